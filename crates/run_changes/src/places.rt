//! Where rows stand in their table.

ghost use Rattle.std.specs.Prelude.{◌≡◌, ◌↔◌, IfOk, IsTrue};
ghost use Rattle.atomic_undo.specs.Changes.{Climb};
ghost use Rattle.data_change.specs.Writing.{found_at, place_in as place_by, places_in as places_by};

use row_types::Row;
use sql_values::NoMemory;
use std::alloc::Global;
use table_store::Table;

// A place where something is, or is to be put.
fn found(place: Result<usize, usize>) -> usize
    ensures { result ≡ found_at place }
{
    match place {
        Ok(at) => at,
        Err(at) => at,
    }
}

// The place of the row that has the key of another one.
fn place_in(table: &Table, row: &Row) -> usize
    ensures { result ≡ place_by table.now.table row.now }
{
    found(table.place_of(row))
}

// The same place, which is looked at first at another one.
fn place_near(table: &Table, at: usize, row: &Row) -> usize
    ensures { result ≡ place_by table.now.table row.now }
{
    if at < table.len() && table.has_key_at(at, row) {
        return at;
    }
    place_in(table, row)
}

/// The places of rows that are met, in turn. They are found by the keys; no row is copied. Where
/// each row stands next after the one before, this is one walk; any other row is searched for.
pub fn places_in(alloc: Global, table: &Table, met: &[Row]) -> Result<Vec<usize>, NoMemory>
    ensures { IfOk result (λ places. places.items ≡ places_by table.now.table met.now) }
{
    let mut places = Vec::with_capacity(alloc, met.len())?;
    let mut next: usize = 0;
    for row in met {
        let place = place_near(table, next, row);
        places.push(place)?;
        next = place.saturating_add(1);
    }
    Ok(places)
}

/// Whether places increase and are below a number.
pub fn climb(places: &[usize], most: usize) -> bool
    ensures { IsTrue result ↔ Climb 0 places.now most }
{
    let mut low = 0;
    for place in places {
        if *place < low || *place >= most {
            return false;
        }
        low = *place + 1;
    }
    true
}
