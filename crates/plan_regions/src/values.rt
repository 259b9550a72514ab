//! The value of a plan of one row under rows outside it.

ghost use Rattle.std.specs.Prelude.{◌≡◌, ◌∷◌, [], IfOk, OnOk};
ghost use Rattle.std.specs.List.{All};
ghost use Rattle.row_types.specs.OuterRows.{outer_rows};
ghost use Rattle.region_steps.specs.Chains.{chain_cells};
ghost use Rattle.plan_regions.specs.Regions.{IsOneCell, IsSound, steps_cells};

use crate::region::{Region, Step};
use region_steps::Registers;
use row_types::{Cell, Outer};
use sql_values::{NoMemory, Value};
use std::alloc::Global;

/// The one cell of the one row of such a plan, under the rows outside it and the arguments. The
/// registers are memory for it: what they held is gone.
pub fn region_value(
    alloc: Global,
    region: &Region,
    registers: &mut Registers,
    outer: &Outer,
    args: &[Value],
) -> Result<Cell, NoMemory>
    requires { IsOneCell region.now.steps.items }
    ensures { IfOk result (λ c. c ∷ []
        ≡ steps_cells region.now.steps.items [] (outer_rows outer.now) args.now) }
{
    registers.clear();
    run(region.steps.as_slice(), alloc, registers, outer, args)?;
    match registers.cells.pop() {
        Some(cell) => Ok(cell),
        None => Ok(Cell::Val(Value::Null)),
    }
}

// What steps make of the row, the first of them first.
fn run(
    steps: &[Step],
    alloc: Global,
    registers: &mut Registers,
    outer: &Outer,
    args: &[Value],
) -> Result<(), NoMemory>
    requires { All IsSound steps.now }
    ensures { OnOk result (registers.new.cells.items ≡ steps_cells steps.now
        registers.old.cells.items (outer_rows outer.now) args.now) }
{
    for step in steps {
        run_step(step, alloc, registers, outer, args)?;
    }
    Ok(())
}

// The same of one step.
fn run_step(
    step: &Step,
    alloc: Global,
    registers: &mut Registers,
    outer: &Outer,
    args: &[Value],
) -> Result<(), NoMemory>
    requires { IsSound step.now }
    ensures { OnOk result (registers.new.cells.items ≡ chain_cells step.now.nodes.now
        registers.old.cells.items (outer_rows outer.now) args.now) }
{
    if let Some(idle) = step.idle {
        if idle.is_of(registers.cells.as_slice()) {
            registers.shorten(idle.left);
            return Ok(());
        }
    }
    registers.pass(alloc, step.nodes, outer, args)
}
