//! The cells of SELECT INTO, by the rows of its query (ISO/IEC 9075-2, 14.7).

ghost use Rattle.std.specs.Prelude.{◌≡◌, ◌+◌, ◌≤◌, ◌++◌, length, IfOk, OnOk};
ghost use Rattle.rel_algebra.specs.Plan.{collected};
ghost use Rattle.plan_conditions.specs.Into.{into_end};
ghost use Rattle.plan_rows.specs.Firsts.{values_end};

use plan_conditions::{into_cells, raised_cells};
use plan_rows::{Values, collect_values};
use row_types::{Cell, RowList, Steps, copied_cell};
use sql_values::NoMemory;
use sqlite_items::Items;
use std::alloc::Global;
use std::sync::ledger::Ledger;

/// Adds so many cells of the one row, or, of no row and of several, its condition so often. The
/// first area of a row goes before that. Each row is a step.
pub fn add_into<L: Ledger>(
    cells: &mut Vec<Cell>,
    alloc: Global,
    columns: usize,
    rows: RowList,
    steps: &mut Steps<L>,
) -> Result<(), NoMemory>
    ensures cells { OnOk result (cells.new.items ≡ cells.old.items ++ into_end columns
        (collected rows)) }
    ensures work { steps.new ≤ steps.old + length rows }
{
    let values = collect_values(alloc, rows, steps)?;
    let made = into_of_values(alloc, columns, values)?;
    add_cells(cells, alloc, made.as_slice())
}

// The cells, by the values of the rows.
fn into_of_values(alloc: Global, columns: usize, values: Values) -> Result<Items<Cell>, NoMemory>
    ensures { IfOk result (λ cs. cs ≡ into_end columns (values_end values)) }
{
    match values {
        Values::Rows(rows) => into_cells(alloc, columns, &rows),
        Values::Raised(area) => raised_cells(alloc, columns, &area),
    }
}

// Adds these cells.
fn add_cells(cells: &mut Vec<Cell>, alloc: Global, more: &[Cell]) -> Result<(), NoMemory>
    ensures { OnOk result (cells.new.items ≡ cells.old.items ++ more.now) }
{
    for cell in more {
        cells.push(copied_cell(alloc, cell)?)?;
    }
    Ok(())
}
