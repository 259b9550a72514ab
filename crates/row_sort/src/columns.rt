//! The places of rows in the order of some of their columns: a stable sort by the last column, then
//! by the one before it, and so on to the first. The rows themselves don't move.

ghost use Rattle.std.specs.Prelude.{◌≡◌, [], ◌∷◌, map, slice_index_or, IfOk};
ghost use Rattle.row_types.specs.Ordered.{in_order};
ghost use Rattle.row_types.specs.Sorting.{key_cmp, keys_cmp};
ghost use Rattle.row_sort.specs.Numbers.{numbered, place_of, by_number, by_value};
ghost use Rattle.row_sort.specs.Places.{row_at as row_at_by, at_places, places_from};

use crate::numbers::{do_tell, number_at};
use row_types::{Row, SortKey, order_by_keys};
use sql_values::NoMemory;
use sqlite_items::Items;
use std::alloc::Global;
use std::cmp::Ordering;

/// The place of a row, and its value in a column as a number.
#[derive(Clone, Copy, Drop)]
pub(crate) struct Numbered {
    number: i64,
    place: usize,
}

// The places of all rows, in turn.
fn first_places(alloc: Global, rows: &[Row]) -> Result<Vec<usize>, NoMemory>
    ensures { IfOk result (λ v. v.items ≡ places_from 0 rows.now) }
{
    let mut places = Vec::with_capacity(alloc, rows.len())?;
    for (place, _row) in rows.iter().enumerate() {
        places.push_reserved(place);
    }
    Ok(places)
}

// Places with the values of a column as numbers.
fn with_numbers(
    alloc: Global,
    rows: &[Row],
    column: usize,
    places: &[usize],
    alone: bool,
) -> Result<Vec<Numbered>, NoMemory>
    ensures { IfOk result (λ v. v.items ≡ map (numbered alone rows.now column) places.now) }
{
    let mut all = Vec::with_capacity(alloc, places.len())?;
    for place in places {
        let number = number_at(rows, column, *place, alone);
        all.push_reserved(Numbered {
            number,
            place: *place,
        });
    }
    Ok(all)
}

// The places alone.
fn places_of(alloc: Global, all: &[Numbered]) -> Result<Vec<usize>, NoMemory>
    ensures { IfOk result (λ v. v.items ≡ map place_of all.now) }
{
    let mut places = Vec::with_capacity(alloc, all.len())?;
    for one in all {
        places.push_reserved(one.place);
    }
    Ok(places)
}

// The order of two numbers, turned in a descending order.
fn order_numbers(a: &Numbered, b: &Numbered, descending: bool) -> Ordering
    ensures { result ≡ by_number descending a.now b.now }
{
    if descending {
        b.number.cmp(&a.number)
    } else {
        a.number.cmp(&b.number)
    }
}

// The row at a place; an empty one where there is none.
fn row_at<'a>(rows: &'a [Row], empty: &'a Row, place: usize) -> &'a Row
    requires { empty.now ≡ [] }
    ensures { result.now ≡ row_at_by rows.now place }
{
    match rows.get(place) {
        Some(row) => row,
        None => empty,
    }
}

// The order by the numbers, and where they tie by the values.
fn order_values(a: &Numbered, b: &Numbered, rows: &[Row], empty: &Row, key: SortKey) -> Ordering
    requires { empty.now ≡ [] }
    ensures { result ≡ by_value key rows.now a.now b.now }
{
    match order_numbers(a, b, key.descending) {
        Ordering::Equal => {
            let x = row_at(rows, empty, a.place);
            let y = row_at(rows, empty, b.place);
            order_by_keys(x, y, &[key])
        }
        apart => apart,
    }
}

// Sorted by the numbers alone.
fn sorted_by_number(all: Vec<Numbered>, descending: bool) -> Result<Vec<Numbered>, NoMemory>
    ensures { IfOk result (λ v. v.items ≡ in_order (by_number descending) all.items) }
{
    let mut all = all;
    all.sort_by(|a, b| order_numbers(a, b, descending))?;
    Ok(all)
}

// Sorted by the numbers, and where they tie by the values.
fn sorted_by_value(
    alloc: Global,
    all: Vec<Numbered>,
    rows: &[Row],
    key: SortKey,
) -> Result<Vec<Numbered>, NoMemory>
    ensures { IfOk result (λ v. v.items ≡ in_order (by_value key rows.now) all.items) }
{
    let empty: Row = Items::new(alloc);
    let mut all = all;
    all.sort_by(|a, b| order_values(a, b, rows, &empty, key))?;
    Ok(all)
}

// Places in the order of a column; those that tie keep their order.
fn places_by_column(
    alloc: Global,
    rows: &[Row],
    key: SortKey,
    places: &[usize],
) -> Result<Vec<usize>, NoMemory>
    ensures { IfOk result (λ v. v.items ≡ in_order (at_places (key_cmp key) rows.now) places.now) }
{
    let alone = do_tell(rows, key.place);
    let all = with_numbers(alloc, rows, key.place, places, alone)?;
    if alone {
        let all = sorted_by_number(all, key.descending)?;
        places_of(alloc, all.as_slice())
    } else {
        let all = sorted_by_value(alloc, all, rows, key)?;
        places_of(alloc, all.as_slice())
    }
}

/// The places of rows in the order of these columns (ISO/IEC 9075-2, 10.10); those that tie stand
/// in the order of the rows.
pub(crate) fn places_in_order(
    alloc: Global,
    rows: &[Row],
    keys: &[SortKey],
) -> Result<Vec<usize>, NoMemory>
    ensures { IfOk result (λ v. v.items ≡ in_order (at_places (keys_cmp keys.now) rows.now)
        (places_from 0 rows.now)) }
{
    let mut places = first_places(alloc, rows)?;
    let mut i = keys.len();
    while i > 0 {
        i -= 1;
        match places_by_column(alloc, rows, keys[i], places.as_slice()) {
            Ok(sorted) => places = sorted,
            Err(error) => return Err(error),
        }
    }
    Ok(places)
}
