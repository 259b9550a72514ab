//! The rows that a plan gave, and the rows that a table can hold.

ghost use Rattle.std.specs.Prelude.{◌≡◌, ◌≤◌, ◌+◌, [], ◌++◌, true, IfOk, OnOk, length, take};
ghost use Rattle.std.specs.List.{list_all};
ghost use Rattle.row_types.specs.Cells.{row_end, with_values, value_rows};
ghost use Rattle.row_types.specs.Rows.{fits};
ghost use Rattle.rel_algebra.specs.World.{each};
ghost use Rattle.rel_algebra.specs.Writing.{assigned_row as assigned_by, row_for as row_by};
ghost use Rattle.run_choices.specs.Ending.{TellsAnywhere};
ghost use Rattle.run_rows.specs.Listed.{TellsRows};

use row_types::{ColumnType, PlanRow, Row, RowEnd, RowList, Steps, fits};
use run_expressions::Stop;
use sql_conditions::EngineCondition;
use sql_values::{NoMemory, assign};
use std::alloc::Global;
use std::sync::ledger::Ledger;
use table_store::Table;

/// The values of each row that has them, in turn. Each row is read in a step.
pub fn row_values<L: Ledger>(
    alloc: Global,
    rows: RowList,
    steps: &mut Steps<L>,
) -> Result<Vec<Row>, NoMemory>
    ensures rows { IfOk result (λ all. all.items ≡ value_rows rows) }
    ensures steps { steps.new ≤ steps.old + length rows }
{
    let mut rows = rows;
    let mut all = Vec::with_capacity(alloc, rows.len())?;
    while rows.len() > 0 {
        if let Some(row) = rows.take_first(steps) {
            push_values(&mut all, alloc, row)?;
        }
    }
    Ok(all)
}

// The values of a row after those of others, where it has them.
fn push_values(all: &mut Vec<Row>, alloc: Global, row: PlanRow) -> Result<(), NoMemory>
    ensures { OnOk result (all.new.items ≡ all.old.items ++ with_values (row_end row) []) }
{
    if let RowEnd::Values(values) = row.into_end(alloc)? {
        all.push(values)?;
    }
    Ok(())
}

/// Rows of values as a table can hold them, in turn: of each the columns are assigned, and then
/// NULLs are judged (ISO/IEC 9075-2, 9.2). It raises what the first that is refused raises.
pub fn rows_for(alloc: Global, table: &Table, new: Vec<Row>) -> Result<Vec<Row>, Stop>
    ensures tells { TellsRows result (each (row_by table.now.table) new.items) }
    ensures fit { IfOk result (λ rows. list_all (fits table.now.table.columns table.now.table.key)
        rows.items ≡ true) }
    ensures many { IfOk result (λ rows. length rows.items ≡ length new.items) }
{
    let mut waiting = new;
    waiting.reverse();
    let mut rows = Vec::with_capacity(alloc, waiting.len())?;
    while let Some(values) = waiting.pop() {
        rows.push(row_for(alloc, table, values)?)?;
    }
    Ok(rows)
}

// A row that a table can hold: its columns are assigned, and then NOT NULL is judged.
fn row_for(alloc: Global, table: &Table, values: Row) -> Result<Row, Stop>
    ensures tells { TellsAnywhere result (row_by table.now.table values) }
    ensures fit { IfOk result (λ row. fits table.now.table.columns table.now.table.key row ≡ true) }
{
    let row = assigned_row(alloc, table.columns(), values)?;
    if fits(table.columns(), table.key(), &row) {
        Ok(row)
    } else {
        Err(Stop::of(EngineCondition::ConstraintViolated))
    }
}

// The values that the columns take, in the table's order, each in the place where it stood.
fn assigned_row(alloc: Global, columns: &[ColumnType], values: Row) -> Result<Row, Stop>
    ensures { TellsAnywhere result (assigned_by columns.now values) }
{
    let mut row = values;
    cut(&mut row, columns.len());
    for (place, column) in columns.iter().enumerate() {
        let Some(value) = row.get(place) else {
            return Ok(row);
        };
        let assigned = assign(alloc, value.copied()?, column.data_type)?;
        row.set(place, assigned);
    }
    Ok(row)
}

/// Drops what stands after so many values.
pub fn cut(row: &mut Row, width: usize)
    ensures { row.new ≡ take width row.old }
{
    while row.len() > width {
        row.pop();
    }
}
