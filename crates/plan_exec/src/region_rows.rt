//! An Apply whose inner plan makes one row of one cell by nodes that act on that row alone: it is
//! read once, and worked out for one outer row after another in the same memory.

ghost use Rattle.std.specs.Prelude.{◌≡◌, ◌+◌, ◌≤◌, ◌++◌, ◌∷◌, [], length, map, IfOk, IfSome, OnOk};
ghost use Rattle.row_types.specs.declared.cell.Cell.TheVariants.{Val};
ghost use Rattle.row_types.specs.OuterRows.{outer_rows};
ghost use Rattle.rel_algebra.specs.PlanView.{kind_of, tree_of};
ghost use Rattle.plan_nodes.specs.Fates.{fate_rows};
ghost use Rattle.plan_nodes.specs.Receiving.{received as received_by};
ghost use Rattle.plan_nodes.specs.Ways.{way_fate, way_rows};
ghost use Rattle.plan_regions.specs.Regions.{IsOneCell};
ghost use Rattle.plan_exec.specs.RegionRows.{IsValueOf, region_cells, region_rows};

use crate::collapse::unless_true;
use crate::opened::{Opened, open_row};
use plan_nodes::{Received, Scratch, Way, add_passed};
use plan_regions::{Region, region_of, region_value};
use plan_scalars::eval_on;
use region_steps::Registers;
use rel_algebra::{ApplyKind, Plan, Scalar};
use row_types::{Cell, Outer, PlanRow, RowInSight, RowList, Steps, ValuesInSight};
use sql_values::{NoMemory, Value};
use std::alloc::Global;
use std::sync::ledger::Ledger;

/// The steps of an inner plan whose one value an Apply adds. `None` says nothing of the plan.
pub fn value_region<'a>(
    alloc: Global,
    inner: &'a Plan,
    kind: &ApplyKind,
) -> Result<Option<Region<'a>>, NoMemory>
    ensures { IfOk result (λ found. IfSome found (λ region.
        IsValueOf region.steps.items (tree_of inner.now) (kind_of kind.now))) }
{
    match kind {
        ApplyKind::Single => region_of(alloc, inner),
        _ => Ok(None),
    }
}

/// Receives what comes, on this way, of rows with the value that these steps have under each of
/// them, one row after another. Each is a step.
pub fn add_region_rows<L: Ledger>(
    region: &Region,
    when: &Scalar,
    way: &Way,
    alloc: Global,
    args: &[Value],
    outer: &Outer,
    rows: RowList,
    received: &mut Received,
    steps: &mut Steps<L>,
) -> Result<(), NoMemory>
    requires { IsOneCell region.now.steps.items }
    ensures rows { OnOk result (received.new ≡ received_by received.old
        (way_rows way.now (outer_rows outer.now) args.now
        (region_rows when.now region.now.steps.items (outer_rows outer.now) args.now rows))) }
    ensures work { steps.new ≤ steps.old + length rows }
{
    let mut left = rows;
    let mut scratch = Scratch::new(alloc);
    let mut registers = Registers::new(alloc);
    'rows: while left.len() > 0 {
        if let Some(row) = left.take_first(steps) {
            add_region_row(
                region,
                when,
                way,
                alloc,
                args,
                outer,
                row,
                &mut scratch,
                &mut registers,
                received,
            )?;
        }
    }
    Ok(())
}

// The same of one row, which is opened in the scratch.
fn add_region_row(
    region: &Region,
    when: &Scalar,
    way: &Way,
    alloc: Global,
    args: &[Value],
    outer: &Outer,
    row: PlanRow,
    scratch: &mut Scratch,
    registers: &mut Registers,
    received: &mut Received,
) -> Result<(), NoMemory>
    requires { IsOneCell region.now.steps.items }
    ensures { OnOk result (received.new ≡ received_by received.old
        (way_rows way.now (outer_rows outer.now) args.now
        (region_rows when.now region.now.steps.items (outer_rows outer.now) args.now
        (row ∷ [])))) }
{
    match open_row(alloc, row, scratch)? {
        Opened::Values(values) => {
            add_region_values(
                region,
                when,
                way,
                alloc,
                args,
                outer,
                values.as_slice(),
                scratch,
                registers,
                received,
            )
        }
        Opened::Poison(area) => received.take(alloc, PlanRow::poisoned(area)),
    }
}

// The same of the row of these values and of the cells in the scratch after them.
fn add_region_values(
    region: &Region,
    when: &Scalar,
    way: &Way,
    alloc: Global,
    args: &[Value],
    outer: &Outer,
    values: &[Value],
    scratch: &mut Scratch,
    registers: &mut Registers,
    received: &mut Received,
) -> Result<(), NoMemory>
    requires { IsOneCell region.now.steps.items }
    ensures { let row = map Val values.now ++ scratch.old.cells.items in
        OnOk result (received.new ≡ received_by received.old (fate_rows (way_fate way.now
        (row ++ region_cells when.now region.now.steps.items (outer_rows outer.now) args.now row)
        (outer_rows outer.now) args.now))) }
{
    let cells = scratch.cells.as_slice();
    let cell = added_cell(region, when, alloc, args, outer, values, cells, registers)?;
    scratch.cells.push(cell)?;
    let front = ValuesInSight::of(values);
    add_passed(received, alloc, way, &front, scratch, outer, args)
}

// The cell that is added to the row of these values and cells.
fn added_cell(
    region: &Region,
    when: &Scalar,
    alloc: Global,
    args: &[Value],
    outer: &Outer,
    values: &[Value],
    cells: &[Cell],
    registers: &mut Registers,
) -> Result<Cell, NoMemory>
    requires { IsOneCell region.now.steps.items }
    ensures { IfOk result (λ c. c ∷ [] ≡ region_cells when.now region.now.steps.items
        (outer_rows outer.now) args.now (map Val values.now ++ cells.now)) }
{
    let row = RowInSight::of(values, cells);
    if let Some(cell) = unless_true(eval_on(alloc, when, &row, outer, args)?) {
        return Ok(cell);
    }
    let here = Outer::Under(values, &[], cells, &*outer);
    region_value(alloc, region, registers, &here, args)
}
