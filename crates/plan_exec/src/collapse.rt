//! What an Apply makes of the rows of its inner plan, each of which has come before it is judged.

ghost use Rattle.std.specs.Prelude.{◌≡◌, ◌+◌, ◌≤◌, ◌++◌, [], ◌∷◌, true, List, None, length, map};
ghost use Rattle.std.specs.Prelude.{replicate, IfOk, IfSome, OnOk};
ghost use Rattle.row_types.specs.declared.cell.Cell.{Cell as PlainCell};
ghost use Rattle.row_types.specs.declared.cell.Cell.TheVariants.{Val};
ghost use Rattle.row_types.specs.Cells.{PlanRow};
ghost use Rattle.row_types.specs.OuterRows.{outer_rows};
ghost use Rattle.rel_algebra.specs.Plan.{applied, collapse, collected, kind_width};
ghost use Rattle.rel_algebra.specs.Plan.{member_cell as member_by};
ghost use Rattle.rel_algebra.specs.PlanView.{kind_of};
ghost use Rattle.plan_scalars.specs.Sights.{sight_of};
ghost use Rattle.plan_rows.specs.Firsts.{values_end};
ghost use Rattle.plan_exec.specs.Applying.{aggregate_cells, ended_as, makes_one};
ghost use Rattle.plan_nodes.specs.Receiving.{is_list, nothing_of, nothing_wanted};
ghost use Rattle.plan_nodes.specs.Receiving.{received as received_by};

use crate::into::add_into;
use plan_nodes::{Received, Wanted, grouped_passed};
use plan_rows::{Values, among_cell, collect_values, exists_cell, is_true, single_cell};
use plan_scalars::eval_on;
use rel_algebra::ApplyKind;
use row_types::{Cell, Outer, RowInSight, RowList, Steps, copied_cell};
use sql_values::{NoMemory, Value};
use sqlite_items::Boxed;
use std::alloc::Global;
use std::sync::ledger::Ledger;

/// What the rows of an inner plan are wanted for.
pub fn wanted_by(kind: &ApplyKind) -> Wanted
    ensures { nothing_wanted result ≡ nothing_of kind.now }
{
    match kind {
        ApplyKind::Aggregate(columns) => Wanted::Aggregates(columns.as_slice()),
        _ => Wanted::List,
    }
}

/// The number of cells that a kind makes.
pub fn width(kind: &ApplyKind) -> usize
    ensures { result ≡ kind_width (kind_of kind.now) }
{
    match kind {
        ApplyKind::Aggregate(columns) => columns.len(),
        ApplyKind::Into(columns) => *columns,
        _ => 1,
    }
}

/// The cell of the scalar whose value is looked for; NULL of the other kinds.
pub fn member_cell(
    alloc: Global,
    kind: &ApplyKind,
    row: &RowInSight,
    outer: &Outer,
    args: &[Value],
) -> Result<Cell, NoMemory>
    ensures { IfOk result (λ c. c ≡ member_by (kind_of kind.now)
        (sight_of row.now (outer_rows outer.now) args.now)) }
{
    match kind {
        ApplyKind::Member(scalar) => eval_on(alloc, scalar, row, outer, args),
        _ => Ok(Cell::Val(Value::Null)),
    }
}

/// What stands in each cell of an Apply whose scalar has this cell: `None` where the scalar is
/// true, and each has its own.
pub fn unless_true(when: Cell) -> Option<Cell>
    ensures some { IfSome result (λ c. (d : PlainCell) → applied when d ≡ c) }
    ensures none { result ≡ None → (d : PlainCell) → applied when d ≡ d }
{
    match when {
        Cell::Val(value) => {
            if is_true(&value) {
                return None;
            }
            Some(Cell::Val(Value::Null))
        }
        Cell::Cond(area) => Some(Cell::Cond(area)),
    }
}

/// Adds a cell so often.
pub fn add_copies(
    cells: &mut Vec<Cell>,
    alloc: Global,
    cell: &Cell,
    count: usize,
) -> Result<(), NoMemory>
    ensures { OnOk result (cells.new.items ≡ cells.old.items ++ replicate count cell.now) }
{
    for _ in 0..count {
        cells.push(copied_cell(alloc, cell)?)?;
    }
    Ok(())
}

/// Adds the cells that a kind makes of the rows that came of an inner plan. Each row of a list is a
/// step, and so are all aggregates together.
pub fn add_collapsed<L: Ledger>(
    cells: &mut Vec<Cell>,
    alloc: Global,
    kind: &ApplyKind,
    member: Cell,
    came: Received,
    steps: &mut Steps<L>,
) -> Result<(), NoMemory>
    requires { is_list came ≡ is_list (nothing_of kind.now) }
    ensures cells { OnOk result ((rows : List PlanRow) →
        received_by (nothing_of kind.now) rows ≡ came
        → cells.new.items ≡ cells.old.items ++ collapse (kind_of kind.now) member rows) }
    ensures work { (rows : List PlanRow) → received_by (nothing_of kind.now) rows ≡ came →
        steps.new ≤ steps.old + 1 + length rows }
{
    match kind {
        ApplyKind::Aggregate(columns) => {
            let into = Received::Rows(RowList::new(alloc));
            let outer = Outer::Outermost;
            let row = grouped_passed(alloc, came, &[], columns.as_slice(), &[], into, &outer, &[])?;
            let values = collect_values(alloc, row.into_list(), steps)?;
            add_aggregates(cells, alloc, values, columns.len())
        }
        ApplyKind::Single => add_judged(cells, alloc, kind, member, came.into_list(), steps),
        ApplyKind::Exists => add_judged(cells, alloc, kind, member, came.into_list(), steps),
        ApplyKind::Member(_) => add_judged(cells, alloc, kind, member, came.into_list(), steps),
        ApplyKind::Into(columns) => add_into(cells, alloc, *columns, came.into_list(), steps),
    }
}

// Adds the one cell that a kind makes of a list. Each row of it is a step.
fn add_judged<L: Ledger>(
    cells: &mut Vec<Cell>,
    alloc: Global,
    kind: &ApplyKind,
    member: Cell,
    rows: RowList,
    steps: &mut Steps<L>,
) -> Result<(), NoMemory>
    requires { makes_one kind.now ≡ true }
    ensures cells { OnOk result (cells.new.items ≡ cells.old.items ++ ended_as (kind_of kind.now)
        member (collected rows)) }
    ensures work { steps.new ≤ steps.old + length rows }
{
    cells.push(judged(alloc, kind, member, rows, steps)?)?;
    Ok(())
}

// Adds the aggregates, which are the values of one row, or the first area that one raises so often.
fn add_aggregates(
    cells: &mut Vec<Cell>,
    alloc: Global,
    values: Values,
    count: usize,
) -> Result<(), NoMemory>
    ensures { OnOk result (cells.new.items ≡ cells.old.items ++ aggregate_cells count
        (values_end values)) }
{
    match values {
        Values::Rows(rows) => match rows.get(0) {
            Some(row) => add_values(cells, row.as_slice()),
            None => Ok(()),
        },
        Values::Raised(area) => {
            let cell = Cell::Cond(Boxed::new(alloc, area)?);
            add_copies(cells, alloc, &cell, count)
        }
    }
}

// Adds values as cells.
fn add_values(cells: &mut Vec<Cell>, values: &[Value]) -> Result<(), NoMemory>
    ensures { OnOk result (cells.new.items ≡ cells.old.items ++ map Val values.now) }
{
    for value in values {
        cells.push(Cell::Val(value.copied()?))?;
    }
    Ok(())
}

// The one cell that a kind makes of a list. Each row of it is a step.
#[tactic(auto, using(crate::proofs::Collapsing::single_ended, crate::proofs::Collapsing::exists_ended, crate::proofs::Collapsing::member_ended, std::proofs::lemmas::Grind::common_steps))]
fn judged<L: Ledger>(
    alloc: Global,
    kind: &ApplyKind,
    member: Cell,
    rows: RowList,
    steps: &mut Steps<L>,
) -> Result<Cell, NoMemory>
    requires { makes_one kind.now ≡ true }
    ensures cell { IfOk result (λ c. c ∷ [] ≡ ended_as (kind_of kind.now) member (collected rows)) }
    ensures work { steps.new ≤ steps.old + length rows }
{
    match kind {
        ApplyKind::Single => single_cell(alloc, rows, steps),
        ApplyKind::Exists => exists_cell(alloc, rows, steps),
        ApplyKind::Member(_) => among_cell(alloc, member, rows, steps),
        ApplyKind::Aggregate(_) => unreachable!(),
        ApplyKind::Into(_) => unreachable!(),
    }
}
