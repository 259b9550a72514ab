//! Groups of rows, folded as the rows come, and the row that each gives at its end.

ghost use Rattle.std.specs.Prelude.{◌≡◌, [], fold, IfOk, OnOk};
ghost use Rattle.sql_values.specs.Values.{UnlessNoMemory};
ghost use Rattle.rel_algebra.specs.Joins.{places as places_by};
ghost use Rattle.rel_algebra.specs.Meaning.{carried};
ghost use Rattle.rel_algebra.specs.World.{with_front};
ghost use Rattle.run_choices.specs.Ending.{TellsAnywhere};
ghost use Rattle.group_index.specs.Folded.{with_row};
ghost use Rattle.run_rows.specs.GroupRows.{row_of_ends};
ghost use Rattle.run_rows.specs.Groups.{argument_columns as argument_columns_by, folded_parts};

use group_index::{FinishedGroup, Folding};
use row_types::{AggregateColumn, Row};
use run_expressions::Stop;
use sql_values::{FoldKind, NoMemory, Value, ValueFault};
use sqlite_items::Items;
use std::alloc::Global;

/// No rows yet, of so many grouping columns and these aggregates (ISO/IEC 9075-2, 7.13).
pub fn no_rows(alloc: Global, keys: usize, aggregates: &[FoldKind]) -> Result<Folding, NoMemory>
    ensures { IfOk result (λ f. f ≡ folded_parts keys aggregates.now []) }
{
    let places = key_places(alloc, keys)?;
    let columns = argument_columns(alloc, keys, aggregates)?;
    Folding::new(alloc, places.as_slice(), columns.as_slice())
}

// The places of so many grouping columns.
fn key_places(alloc: Global, keys: usize) -> Result<Items<usize>, NoMemory>
    ensures { IfOk result (λ ps. ps ≡ places_by 0 keys) }
{
    let mut places = Items::new(alloc);
    for place in 0..keys {
        places.push(place)?;
    }
    Ok(places)
}

// Each aggregate with the place of its argument, which stand after the grouping columns.
fn argument_columns(
    alloc: Global,
    keys: usize,
    aggregates: &[FoldKind],
) -> Result<Items<AggregateColumn>, NoMemory>
    ensures { IfOk result (λ columns. columns ≡ argument_columns_by keys aggregates.now) }
{
    let mut columns = Items::new(alloc);
    for (index, kind) in aggregates.iter().enumerate() {
        let Some(place) = keys.checked_add(index) else {
            return Err(NoMemory);
        };
        columns.push(AggregateColumn { kind: *kind, place })?;
    }
    Ok(columns)
}

/// The parts of a row more, where it is kept.
pub fn take_parts(folding: &mut Folding, parts: Option<Row>) -> Result<(), NoMemory>
    ensures { OnOk result (folding.new ≡ fold with_row folding.old (with_front parts [])) }
{
    match parts {
        Some(row) => folding.take(row.as_slice()),
        None => Ok(()),
    }
}

/// The row of a group: its key, and then what its aggregates give (10.9). The first that raises
/// ends it.
pub fn group_row(alloc: Global, group: &FinishedGroup) -> Result<Row, Stop>
    ensures { TellsAnywhere result (carried (row_of_ends group.now.key group.now.ends)) }
{
    let mut row = copied_values(alloc, group.key.as_slice())?;
    for end in group.ends.as_slice() {
        row.push(copied_end(end)?)?;
    }
    Ok(row)
}

// The same values once more.
fn copied_values(alloc: Global, values: &[Value]) -> Result<Row, NoMemory>
    ensures { IfOk result (λ row. row ≡ values.now) }
{
    let mut row = Items::new(alloc);
    for value in values {
        row.push(value.copied()?)?;
    }
    Ok(row)
}

// What an aggregate gives, once more.
fn copied_end(end: &Result<Value, ValueFault>) -> Result<Value, ValueFault>
    ensures { UnlessNoMemory result (result ≡ end.now) }
{
    match end {
        Ok(value) => Ok(value.copied()?),
        Err(fault) => Err(*fault),
    }
}
