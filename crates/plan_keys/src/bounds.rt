//! Places between rows in key order, as terms give them: before the rows that all terms can let
//! through, and after them.

ghost use Rattle.std.specs.Prelude.{◌≡◌, ◌⊎◌, ◌<◌, ◌≤◌, ◌∷◌, ◌++◌, [], length, take, drop};
ghost use Rattle.std.specs.Prelude.{true, false, IfOk, IfSome, slice_index_or};
ghost use Rattle.std.specs.List.{list_all};
ghost use Rattle.std.specs.declared.cmp.Ordering.TheVariants.{Equal};
ghost use Rattle.sql_values.specs.declared.value.Value.TheVariants.{Null};
ghost use Rattle.row_types.specs.Rows.{Row as PlainRow, to_key, value_cmp};
ghost use Rattle.plan_keys.specs.Bounds.{is_past, stands_before, takes_ties as takes_ties_by};
ghost use Rattle.plan_keys.specs.Bounds.{before, bounds_on};
ghost use Rattle.plan_keys.specs.Terms.{holds, misses};

use crate::terms::Term;
use row_types::{Key, order_to_key};
use sql_values::{Comparison, NoMemory, Value};
use std::alloc::Global;
use std::cmp::Ordering;
use table_store::Table;

/// Values of the first key columns, and whether the place is after the rows that have them.
#[derive(Drop)]
pub struct Bound {
    pub sought: Key,
    pub through: bool,
}

/// The bound that terms give of the rows for which all hold: the low one, before which none of them
/// stands, or the high one, before which all do.
pub fn key_bound(
    alloc: Global,
    key: &[usize],
    terms: &[Term],
    high: bool,
) -> Result<Bound, NoMemory>
    ensures length { IfOk result (λ b. length b.sought ≤ length key.now) }
    ensures rows { IfOk result (λ b. (row : PlainRow) → misses terms.now row ≡ false
        → stands_before key.now b.sought b.through row ≡ high) }
{
    let sought = equal_values(alloc, key, terms)?;
    match next_term(key, terms, sought.len(), high) {
        Some(term) => {
            let value = term.value.copied()?;
            bound_with(sought, value, takes_ties(term.comparison, high))
        }
        None => Ok(Bound {
            sought,
            through: high,
        }),
    }
}

// The same bound, with a value more.
fn bound_with(sought: Key, value: Value, through: bool) -> Result<Bound, NoMemory>
    ensures values { IfOk result (λ b. b.sought ≡ sought ++ value ∷ []) }
    ensures through { IfOk result (λ b. b.through ≡ through) }
{
    let mut sought = sought;
    sought.push(value)?;
    Ok(Bound { sought, through })
}

// The values that terms want of the first key columns, as far as each of these is equal to one.
fn equal_values(alloc: Global, key: &[usize], terms: &[Term]) -> Result<Key, NoMemory>
    ensures length { IfOk result (λ ks. length ks ≤ length key.now) }
    ensures rows { IfOk result (λ ks. (row : PlainRow) → misses terms.now row ≡ false
        → to_key (take (length ks) key.now) ks row ≡ Equal) }
{
    let mut sought = Key::new(alloc);
    for place in key {
        match equal_value(terms, *place) {
            Some(value) => sought.push(value.copied()?)?,
            None => return Ok(sought),
        }
    }
    Ok(sought)
}

// The value that a term wants of the column at a place.
fn equal_value(terms: &[Term], place: usize) -> Option<&Value>
    ensures { IfSome result (λ v. (row : PlainRow) → misses terms.now row ≡ false
        → value_cmp (slice_index_or row place Null) v.now ≡ Equal) }
{
    let term = first_term(terms, place, Comparison::Equals, Comparison::Equals)?;
    Some(&term.value)
}

// The first term that bounds the key column after so many, above or below.
fn next_term<'a>(key: &[usize], terms: &'a [Term], after: usize, high: bool) -> Option<&'a Term>
    ensures column { IfSome result (λ t. after < length key.now) }
    ensures place { IfSome result (λ t. t.now.place ≡ slice_index_or key.now after 0) }
    ensures side { IfSome result (λ t. bounds_on high t.now.comparison ≡ true) }
    ensures held { IfSome result (λ t. (row : PlainRow) → misses terms.now row ≡ false
        → holds t.now row ≡ true) }
{
    let place = *key.get(after)?;
    if high {
        first_term(
            terms,
            place,
            Comparison::LessThan,
            Comparison::LessThanOrEquals,
        )
    } else {
        first_term(
            terms,
            place,
            Comparison::GreaterThan,
            Comparison::GreaterThanOrEquals,
        )
    }
}

// The first term on the column at a place with one of two comparisons.
fn first_term<'a>(
    terms: &'a [Term],
    place: usize,
    strict: Comparison,
    loose: Comparison,
) -> Option<&'a Term>
    ensures place { IfSome result (λ t. t.now.place ≡ place) }
    ensures comparison { IfSome result (λ t. (t.now.comparison ≡ strict)
        ⊎ (t.now.comparison ≡ loose)) }
    ensures held { IfSome result (λ t. (row : PlainRow) → misses terms.now row ≡ false
        → holds t.now row ≡ true) }
{
    for term in terms {
        if term.place == place && (term.comparison == strict || term.comparison == loose) {
            return Some(term);
        }
    }
    None
}

// Whether a bound of a comparison is after the rows that have its value.
fn takes_ties(comparison: Comparison, high: bool) -> bool
    ensures { result ≡ takes_ties_by high comparison }
{
    if high {
        comparison == Comparison::LessThanOrEquals
    } else {
        comparison == Comparison::GreaterThan
    }
}

/// How many rows of a table stand before a place: those whose first key columns have less than the
/// sought values, or, where it is after the rows that have them, not more.
pub fn count_before(table: &Table, sought: &[Value], through: bool) -> usize
    requires { length sought.now ≤ length table.now.table.key }
    ensures within { result ≤ length table.now.table.rows }
    ensures before { list_all (stands_before table.now.table.key sought.now through)
        (take result table.now.table.rows) ≡ true }
    ensures past { list_all (is_past table.now.table.key sought.now through)
        (drop result table.now.table.rows) ≡ true }
{
    let (key, _) = table.key().split_at(sought.len());
    let mut low = 0;
    let mut high = table.len();
    while low < high {
        let middle = low + (high - low) / 2;
        if is_before(order_to_key(table.row_at(middle), key, sought), through) {
            low = middle + 1;
        } else {
            high = middle;
        }
    }
    low
}

// Whether a row stands before the place, by how it stands to the sought values.
fn is_before(order: Ordering, through: bool) -> bool
    ensures { result ≡ before through order }
{
    match order {
        Ordering::Less => true,
        Ordering::Equal => through,
        Ordering::Greater => false,
    }
}
