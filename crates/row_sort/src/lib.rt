//! Rows in the order of some of their columns (ISO/IEC 9075-2, 14.3 and 10.10). A stable sort; what
//! it gives is said by insertion. Nothing here knows of plans.
#![tactic(auto)]

ghost use Rattle.std.specs.Prelude.{◌≡◌, ◌<◌, length, nat_eq, IfOk};
ghost use Rattle.std.specs.List.{All, IsDistinct};
ghost use Rattle.row_types.specs.Sorting.{in_order};
ghost use Rattle.row_sort.specs.Places.{rows_at as rows_at_by};

mod columns;
mod numbers;

use columns::places_in_order;
use row_types::{Row, SortKey};
use sql_values::NoMemory;
use sqlite_items::Items;
use std::alloc::Global;
use std::mem;

// Rows, where each can be taken alone.
fn rows_apart(alloc: Global, rows: Items<Row>) -> Result<Vec<Row>, NoMemory>
    ensures { IfOk result (λ all. all.items ≡ rows) }
{
    let mut left = rows;
    let mut all = Vec::with_capacity(alloc, left.len())?;
    while let Some(row) = left.pop() {
        all.push(row)?;
    }
    all.reverse();
    Ok(all)
}

// The rows at places, in turn. Each place is there, and none comes twice.
fn rows_at(alloc: Global, rows: Vec<Row>, places: &[usize]) -> Result<Items<Row>, NoMemory>
    requires there { All (λ p. p < length rows.items) places.now }
    requires once { IsDistinct nat_eq places.now }
    ensures { IfOk result (λ r. r ≡ rows_at_by rows.items places.now) }
{
    let mut taken = Vec::with_capacity(alloc, places.len())?;
    let mut left = rows;
    for place in places {
        let row = mem::replace(&mut left[*place], Items::new(alloc));
        taken.push_reserved(row);
    }
    Ok(Items::from_vec(taken))
}

/// Rows in the order of these columns; rows that tie keep their order (ISO/IEC 9075-2, 14.3 and
/// 10.10). NULL comes first, and last in a descending order.
pub fn sorted(alloc: Global, rows: Items<Row>, keys: &[SortKey]) -> Result<Items<Row>, NoMemory>
    ensures { IfOk result (λ r. r ≡ in_order keys.now rows) }
{
    let places = places_in_order(alloc, rows.as_slice(), keys)?;
    let apart = rows_apart(alloc, rows)?;
    rows_at(alloc, apart, places.as_slice())
}
