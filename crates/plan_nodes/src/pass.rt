//! One row on its way through the nodes of a plan.

ghost use Rattle.std.specs.Prelude.{◌≡◌, ◌++◌, map, IfOk};
ghost use Rattle.row_types.specs.declared.cell.Cell.TheVariants.{Val};
ghost use Rattle.row_types.specs.OuterRows.{outer_rows};
ghost use Rattle.plan_nodes.specs.Fates.{fate};
ghost use Rattle.plan_nodes.specs.Passing.{fate_of};

use crate::scratch::Scratch;
use plan_rows::{Tested, filtered};
use plan_scalars::eval_on;
use rel_algebra::Node;
use row_types::{Outer, RowInSight, ValuesInSight};
use sql_conditions::Area;
use sql_values::{NoMemory, Value};
use sqlite_items::Boxed;
use std::alloc::Global;

/// What becomes of a row.
pub enum RowFate<'a> {
    /// It stays: these values, and the cells that are left in the scratch after them.
    Stays(ValuesInSight<'a>),
    /// It is left out.
    Gone,
    /// Deciding on it raises.
    Raises(Boxed<Area>),
}

/// What nodes make of the row of these values and of the cells in the scratch after them. A node
/// that takes whole lists does nothing here.
pub fn pass<'a>(
    alloc: Global,
    nodes: &[Node],
    values: &ValuesInSight<'a>,
    scratch: &mut Scratch,
    outer: &Outer,
    args: &[Value],
) -> Result<RowFate<'a>, NoMemory>
    ensures { IfOk result (λ f. fate_of f scratch.new.cells.items ≡ fate nodes.now
        (map Val values.now ++ scratch.old.cells.items) (outer_rows outer.now) args.now) }
{
    let (first, second) = values.slices();
    let mut front = ValuesInSight::of_pair(first, second);
    for node in nodes {
        match node {
            Node::Extend(scalars) => {
                scratch.extend(alloc, scalars.as_slice(), &front, outer, args)?;
            }
            Node::Filter(test) => {
                let (first, second) = front.slices();
                let values = ValuesInSight::of_pair(first, second);
                let row = RowInSight::over(&values, scratch.cells.as_slice());
                match filtered(eval_on(alloc, test, &row, outer, args)?) {
                    Tested::Stays => {}
                    Tested::Gone => return Ok(RowFate::Gone),
                    Tested::Raises(area) => return Ok(RowFate::Raises(area)),
                }
            }
            Node::Keep(places) => {
                scratch.keep_places(alloc, places, &front)?;
                front = ValuesInSight::none();
            }
            _ => {}
        }
    }
    Ok(RowFate::Stays(front))
}
