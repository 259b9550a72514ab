//! Groups of rows (ISO/IEC 9075-2, 7.13) on their way through the nodes above them: of each group
//! its grouping columns, and then its aggregates. One that raises is a condition cell.

ghost use Rattle.std.specs.Prelude.{◌≡◌, ◌++◌, false, map, List, IfOk, OnOk};
ghost use Rattle.row_types.specs.declared.cell.Cell.TheVariants.{Val};
ghost use Rattle.row_types.specs.Cells.{PlanRow};
ghost use Rattle.row_types.specs.OuterRows.{outer_rows};
ghost use Rattle.group_index.specs.Folded.{no_rows};
ghost use Rattle.rel_algebra.specs.Endings.{cell_end, ending_of};
ghost use Rattle.rel_algebra.specs.Plan.{collected, grouped};
ghost use Rattle.rel_algebra.specs.PlanView.{aggregates_of};
ghost use Rattle.plan_nodes.specs.Fates.{fate_rows, passed};
ghost use Rattle.plan_nodes.specs.Grouping.{end_cells, groups_rows};
ghost use Rattle.plan_nodes.specs.Receiving.{is_list, received as received_by};
ghost use Rattle.plan_nodes.specs.Ways.{way_fate, way_rows};
ghost use Rattle.plan_nodes.specs.declared.received.Received.TheVariants.{Folds};

use crate::last::Way;
use crate::leaves::{add_passed, keep_each};
use crate::received::Received;
use crate::scratch::Scratch;
use group_index::{FinishedGroup, foldings_are_of_groups};
use plan_rows::outcome_cell;
use rel_algebra::Node;
use row_types::{AggregateColumn, Cell, Outer, ValuesInSight};
use sql_values::{NoMemory, Value, ValueFault};
use std::alloc::Global;

/// What nodes make of the groups of the rows that came, received after others: where a row that
/// came had an area, one row that is poisoned by the first.
pub fn grouped_passed(
    alloc: Global,
    came: Received,
    places: &[usize],
    aggregates: &[AggregateColumn],
    nodes: &[Node],
    into: Received,
    outer: &Outer,
    args: &[Value],
) -> Result<Received, NoMemory>
    requires { is_list came ≡ false }
    ensures form { IfOk result (λ out. is_list out ≡ is_list into) }
    ensures rows { IfOk result (λ out. (rows : List PlanRow) →
        received_by (Folds (no_rows places.now aggregates.now)) rows ≡ came
        → out ≡ received_by into (passed nodes.now (outer_rows outer.now) args.now
        (grouped places.now (aggregates_of aggregates.now) (collected rows)))) }
{
    foldings_are_of_groups();
    match came {
        Received::Folds(folding) => {
            let groups = folding.finish()?;
            groups_passed(alloc, groups.as_slice(), nodes, into, outer, args)
        }
        Received::Raised(area) => into.with_poisoned(alloc, area),
        Received::Rows(_) => unreachable!(),
    }
}

// What nodes make of groups, received after others.
fn groups_passed(
    alloc: Global,
    groups: &[FinishedGroup],
    nodes: &[Node],
    into: Received,
    outer: &Outer,
    args: &[Value],
) -> Result<Received, NoMemory>
    ensures { IfOk result (λ out. out ≡ received_by into
        (passed nodes.now (outer_rows outer.now) args.now (groups_rows groups.now))) }
{
    let room = if keep_each(nodes) { groups.len() } else { 0 };
    let mut received = into.with_room(alloc, room)?;
    let way = Way::through(nodes);
    add_groups(&mut received, alloc, &way, groups, outer, args)?;
    Ok(received)
}

// Receives what comes, on this way, of groups.
fn add_groups(
    received: &mut Received,
    alloc: Global,
    way: &Way,
    groups: &[FinishedGroup],
    outer: &Outer,
    args: &[Value],
) -> Result<(), NoMemory>
    ensures { OnOk result (received.new ≡ received_by received.old
        (way_rows way.now (outer_rows outer.now) args.now (groups_rows groups.now))) }
{
    let mut scratch = Scratch::new(alloc);
    for group in groups {
        add_group(received, alloc, way, group, &mut scratch, outer, args)?;
    }
    Ok(())
}

// The same of one group, in the scratch.
fn add_group(
    received: &mut Received,
    alloc: Global,
    way: &Way,
    group: &FinishedGroup,
    scratch: &mut Scratch,
    outer: &Outer,
    args: &[Value],
) -> Result<(), NoMemory>
    ensures { OnOk result (received.new ≡ received_by received.old
        (fate_rows (way_fate way.now (map Val group.now.key ++ end_cells group.now.ends)
        (outer_rows outer.now) args.now))) }
{
    scratch.clear();
    add_ends(&mut scratch.cells, alloc, group.ends.as_slice())?;
    let values = ValuesInSight::of(group.key.as_slice());
    add_passed(received, alloc, way, &values, scratch, outer, args)
}

// Adds the cells of aggregates.
fn add_ends(
    cells: &mut Vec<Cell>,
    alloc: Global,
    ends: &[Result<Value, ValueFault>],
) -> Result<(), NoMemory>
    ensures { OnOk result (cells.new.items ≡ cells.old.items ++ end_cells ends.now) }
{
    for end in ends {
        cells.push(end_cell(alloc, end)?)?;
    }
    Ok(())
}

// The cell of an aggregate: its value, or the area of its fault's condition.
fn end_cell(alloc: Global, end: &Result<Value, ValueFault>) -> Result<Cell, NoMemory>
    ensures { IfOk result (λ c. c ≡ cell_end (ending_of end.now)) }
{
    match end {
        Ok(value) => Ok(Cell::Val(value.copied()?)),
        Err(fault) => outcome_cell(alloc, Err(*fault)),
    }
}
