//! The places of the rows that have to be read.

ghost use Rattle.std.specs.Prelude.{◌≡◌, ◌≤◌, length, take, drop, true, false, IfOk};
ghost use Rattle.std.specs.List.{list_all};
ghost use Rattle.row_types.specs.OuterRows.{outer_rows};
ghost use Rattle.row_types.specs.Rows.{Row as PlainRow};
ghost use Rattle.rel_algebra.specs.Plan.{shown};
ghost use Rattle.plan_keys.specs.LeftOut.{left_out};
ghost use Rattle.plan_keys.specs.Terms.{misses};

use crate::bounds::{count_before, key_bound};
use crate::terms::{Term, terms_of};
use rel_algebra::Node;
use row_types::Outer;
use sql_values::{NoMemory, Value};
use std::alloc::Global;
use table_store::Table;

/// Places of rows: from one on, and before another.
#[derive(Clone, Copy, Debug)]
pub struct Places {
    pub from: usize,
    pub to: usize,
}

/// The places of a table's rows outside of which the first of these nodes, which are Filters, leave
/// each row out (ISO/IEC 9075-2, 7.12): those that equalities and bounds of the first key columns
/// leave. A test that may raise ends what is looked at.
pub fn places_met(
    alloc: Global,
    table: &Table,
    nodes: &[Node],
    outer: &Outer,
    args: &[Value],
) -> Result<Places, NoMemory>
    ensures order { IfOk result (λ p. p.from ≤ p.to) }
    ensures within { IfOk result (λ p. p.to ≤ length table.now.table.rows) }
    ensures before { IfOk result (λ p. list_all (λ row. left_out nodes.now (shown row)
        (outer_rows outer.now) args.now) (take p.from table.now.table.rows) ≡ true) }
    ensures past { IfOk result (λ p. list_all (λ row. left_out nodes.now (shown row)
        (outer_rows outer.now) args.now) (drop p.to table.now.table.rows) ≡ true) }
{
    let terms = terms_of(alloc, table.key(), nodes, outer, args)?;
    places_by(alloc, table, terms.as_slice())
}

/// The places of a table's rows outside of which a comparison among these is not true of any row.
pub fn places_by(alloc: Global, table: &Table, terms: &[Term]) -> Result<Places, NoMemory>
    ensures order { IfOk result (λ p. p.from ≤ p.to) }
    ensures within { IfOk result (λ p. p.to ≤ length table.now.table.rows) }
    ensures before { IfOk result (λ p. list_all (misses terms.now)
        (take p.from table.now.table.rows) ≡ true) }
    ensures past { IfOk result (λ p. list_all (misses terms.now)
        (drop p.to table.now.table.rows) ≡ true) }
{
    if terms.is_empty() {
        return Ok(Places {
            from: 0,
            to: table.len(),
        });
    }
    if wants_null(terms) {
        return Ok(Places { from: 0, to: 0 });
    }
    let from = place_by(alloc, table, terms, false)?;
    let to = place_by(alloc, table, terms, true)?;
    Ok(Places {
        from,
        to: if to < from { from } else { to },
    })
}

// Whether a term compares with NULL, which is true of no row.
fn wants_null(terms: &[Term]) -> bool
    ensures { result ≡ true → (row : PlainRow) → misses terms.now row ≡ true }
{
    for term in terms {
        if let Value::Null = &term.value {
            return true;
        }
    }
    false
}

// The place before which terms leave each row out, or else the one after which they do.
fn place_by(alloc: Global, table: &Table, terms: &[Term], high: bool) -> Result<usize, NoMemory>
    ensures within { IfOk result (λ at. at ≤ length table.now.table.rows) }
    ensures low { IfOk result (λ at. high ≡ false
        → list_all (misses terms.now) (take at table.now.table.rows) ≡ true) }
    ensures high { IfOk result (λ at. high ≡ true
        → list_all (misses terms.now) (drop at table.now.table.rows) ≡ true) }
{
    let bound = key_bound(alloc, table.key(), terms, high)?;
    Ok(count_before(table, bound.sought.as_slice(), bound.through))
}
