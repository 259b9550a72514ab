//! The last nodes of a plan, by which a row gets its final cells. They are worked out straight into
//! the memory of the row that comes out.

ghost use Rattle.std.specs.Prelude.{◌≡◌, ◌++◌, [], ◌-◌, true, List, length, take, map, slice_get};
ghost use Rattle.std.specs.Prelude.{Some, IfOk, IfSome};
ghost use Rattle.sql_values.specs.declared.value.Value.{Value as PlainValue};
ghost use Rattle.row_types.specs.declared.cell.Cell.{Cell as PlainCell};
ghost use Rattle.row_types.specs.declared.cell.Cell.TheVariants.{Val};
ghost use Rattle.row_types.specs.Cells.{Whole as WholeRow};
ghost use Rattle.row_types.specs.OuterRows.{outer_rows};
ghost use Rattle.rel_algebra.specs.Joins.{places};
ghost use Rattle.rel_algebra.specs.PlaceForms.{kept_places};
ghost use Rattle.rel_algebra.specs.Plan.{cell_at, cells_of, cells_at};
ghost use Rattle.rel_algebra.specs.PlanView.{scalars_of};
ghost use Rattle.rel_algebra.specs.declared.plan.Node.TheVariants.{Extend, Keep};
ghost use Rattle.plan_scalars.specs.Sights.{sight_of};
ghost use Rattle.plan_nodes.specs.Fates.{Stays, fate, go_on};
ghost use Rattle.plan_nodes.specs.Ways.{last_cells, way_fate};

use crate::scratch::Scratch;
use plan_rows::{own_cell, take_value};
use plan_scalars::eval_on;
use rel_algebra::{KeptPlaces, Node, Scalar};
use row_types::{Cell, Outer, PlanRow, RowInSight, ValuesInSight, gathered};
use sql_values::{NoMemory, Value};
use sqlite_items::Items;
use std::alloc::Global;

/// How a row gets its final cells.
#[derive(Clone, Copy)]
pub enum Last<'a> {
    /// It has them.
    Whole,
    /// They are the cells at these places of the row with the cells of these scalars after its own.
    Picked(&'a [Scalar], &'a [usize]),
    /// They are the first so many of its own.
    Front(usize),
}

/// The way of a row: nodes, and how it then gets its final cells.
#[derive(Clone, Copy)]
pub struct Way<'a> {
    pub nodes: &'a [Node],
    pub last: Last<'a>,
}

impl<'a> Way<'a> {
    /// The way through these nodes.
    pub fn through(nodes: &'a [Node]) -> Way<'a>
        ensures { (row : List PlainCell) (outer : List (List PlainCell)) (args : List PlainValue) →
            fate nodes.now row outer args ≡ way_fate result row outer args }
    {
        match last_places(nodes) {
            Some(places) => with_places(without_last(nodes), places),
            None => Way {
                nodes,
                last: Last::Whole,
            },
        }
    }
}

// The way through nodes and then a Keep of places that are kept so.
fn with_places<'a>(nodes: &'a [Node], places: KeptPlaces<'a>) -> Way<'a>
    ensures { (row : List PlainCell) (outer : List (List PlainCell)) (args : List PlainValue) →
        go_on (fate nodes.now row outer args) (λ r. Stays (cells_at r (kept_places places.entry)))
        ≡ way_fate result row outer args }
{
    match places {
        KeptPlaces::Listed(list) => before_keep(nodes, list),
        KeptPlaces::Front(count) => Way {
            nodes,
            last: Last::Front(count),
        },
    }
}

// The way through nodes and then a Keep of these places.
fn before_keep<'a>(nodes: &'a [Node], places: &'a [usize]) -> Way<'a>
    ensures { (row : List PlainCell) (outer : List (List PlainCell)) (args : List PlainValue) →
        go_on (fate nodes.now row outer args) (λ r. Stays (cells_at r places.now))
        ≡ way_fate result row outer args }
{
    match last_scalars(nodes) {
        Some(scalars) => Way {
            nodes: without_last(nodes),
            last: Last::Picked(scalars, places),
        },
        None => Way {
            nodes,
            last: Last::Picked(&[], places),
        },
    }
}

// The places of the last node, where it is a Keep.
fn last_places(nodes: &[Node]) -> Option<KeptPlaces>
    ensures { IfSome result (λ places. slice_get nodes.now (length nodes.now - 1) ≡
        Some (Keep (kept_places places))) }
{
    match nodes.last()? {
        Node::Keep(places) => Some(places.as_kept()),
        _ => None,
    }
}

// The scalars of the last node, where it is an Extend.
fn last_scalars(nodes: &[Node]) -> Option<&[Scalar]>
    ensures { IfSome result (λ scalars. slice_get nodes.now (length nodes.now - 1) ≡
        Some (Extend scalars.now)) }
{
    match nodes.last()? {
        Node::Extend(scalars) => Some(scalars.as_slice()),
        _ => None,
    }
}

// All nodes but the last.
fn without_last(nodes: &[Node]) -> &[Node]
    ensures { result.now ≡ take (length nodes.now - 1) nodes.now }
{
    let (front, _) = nodes.split_at(nodes.len().saturating_sub(1));
    front
}

/// The row that comes of these values and of the cells in the scratch after them.
pub fn finished(
    alloc: Global,
    last: &Last,
    front: &ValuesInSight,
    scratch: &mut Scratch,
    outer: &Outer,
    args: &[Value],
) -> Result<PlanRow, NoMemory>
    ensures { IfOk result
        (λ r. r ≡ WholeRow (last_cells last.now (map Val front.now ++ scratch.old.cells.items)
        (outer_rows outer.now) args.now)) }
{
    match last {
        Last::Whole => gathered(alloc, front, scratch.cells.as_mut_slice()),
        Last::Picked(scalars, places) => {
            let (first, second) = front.slices();
            let values = ValuesInSight::of_pair(first, second);
            let row = RowInSight::over(&values, scratch.cells.as_slice());
            let mut values = Vec::with_capacity(alloc, places.len())?;
            if pick_values(&mut values, alloc, scalars, places, &row, outer, args)? {
                return Ok(PlanRow::of_values(Items::from_vec(values)));
            }
            picked_cells(alloc, scalars, places, front, scratch, outer, args)
        }
        Last::Front(count) => {
            let (first, second) = front.slices();
            let values = ValuesInSight::of_pair(first, second);
            let row = RowInSight::over(&values, scratch.cells.as_slice());
            let mut values = Vec::with_capacity(alloc, *count)?;
            if front_values(&mut values, alloc, *count, &row)? {
                return Ok(PlanRow::of_values(Items::from_vec(values)));
            }
            front_cells(alloc, *count, front, scratch)
        }
    }
}

/// The same in the scratch's memory for values, where each of the cells is a value. `false` says
/// nothing. The cells in the scratch stay.
pub fn work_out(
    alloc: Global,
    last: &Last,
    front: &ValuesInSight,
    scratch: &mut Scratch,
    outer: &Outer,
    args: &[Value],
) -> Result<bool, NoMemory>
    ensures values { IfOk result (λ all. all ≡ true →
        map Val scratch.new.values.items ≡ last_cells last.now
        (map Val front.now ++ scratch.old.cells.items) (outer_rows outer.now) args.now) }
    ensures cells { scratch.new.cells.items ≡ scratch.old.cells.items }
{
    scratch.values.clear();
    let (first, second) = front.slices();
    let front = ValuesInSight::of_pair(first, second);
    let row = RowInSight::over(&front, scratch.cells.as_slice());
    match last {
        Last::Whole => own_values(&mut scratch.values, alloc, &row),
        Last::Picked(scalars, places) => {
            pick_values(
                &mut scratch.values,
                alloc,
                scalars,
                places,
                &row,
                outer,
                args,
            )
        }
        Last::Front(count) => front_values(&mut scratch.values, alloc, *count, &row),
    }
}

// The first so many cells of a row.
fn front_cells(
    alloc: Global,
    count: usize,
    front: &ValuesInSight,
    scratch: &mut Scratch,
) -> Result<PlanRow, NoMemory>
    ensures { IfOk result (λ r. r ≡ WholeRow (cells_at
        (map Val front.now ++ scratch.old.cells.items) (places 0 count))) }
{
    scratch.keep_front(alloc, count, front)?;
    gathered(alloc, &ValuesInSight::none(), scratch.cells.as_mut_slice())
}

// Adds the values of the first so many cells of a row, where each is one. `false` says nothing.
fn front_values(
    values: &mut Vec<Value>,
    alloc: Global,
    count: usize,
    row: &RowInSight,
) -> Result<bool, NoMemory>
    ensures { IfOk result (λ all. all ≡ true →
        map Val values.new.items ≡ map Val values.old.items ++ cells_at row.now (places 0 count)) }
{
    for place in 0..count {
        let cell = own_cell(alloc, row, place)?;
        if !take_value(values, cell)? {
            return Ok(false);
        }
    }
    Ok(true)
}

// The cells at places of a row with the cells of scalars after its own.
fn picked_cells(
    alloc: Global,
    scalars: &[Scalar],
    places: &[usize],
    front: &ValuesInSight,
    scratch: &mut Scratch,
    outer: &Outer,
    args: &[Value],
) -> Result<PlanRow, NoMemory>
    ensures { let row = map Val front.now ++ scratch.old.cells.items in
        IfOk result (λ r. r ≡ WholeRow (cells_at (row ++ cells_of (scalars_of scalars.now)
        (sight_of row (outer_rows outer.now) args.now)) places.now)) }
{
    scratch.extend(alloc, scalars, front, outer, args)?;
    scratch.keep(alloc, places, front)?;
    gathered(alloc, &ValuesInSight::none(), scratch.cells.as_mut_slice())
}

// Adds the values of the same cells, where each is a value. `false` says nothing.
fn pick_values(
    values: &mut Vec<Value>,
    alloc: Global,
    scalars: &[Scalar],
    places: &[usize],
    row: &RowInSight,
    outer: &Outer,
    args: &[Value],
) -> Result<bool, NoMemory>
    ensures { IfOk result (λ all. all ≡ true →
        map Val values.new.items ≡ map Val values.old.items ++ cells_at
        (row.now ++ cells_of (scalars_of scalars.now)
        (sight_of row.now (outer_rows outer.now) args.now)) places.now) }
{
    let width = row.len();
    for place in places {
        let cell = extended_cell(alloc, scalars, row, width, *place, outer, args)?;
        if !take_value(values, cell)? {
            return Ok(false);
        }
    }
    Ok(true)
}

// Adds the values of a row's cells, where each is a value. `false` says nothing.
fn own_values(values: &mut Vec<Value>, alloc: Global, row: &RowInSight) -> Result<bool, NoMemory>
    ensures { IfOk result (λ all. all ≡ true →
        map Val values.new.items ≡ map Val values.old.items ++ row.now) }
{
    for place in 0..row.len() {
        let cell = own_cell(alloc, row, place)?;
        if !take_value(values, cell)? {
            return Ok(false);
        }
    }
    Ok(true)
}

// The cell at a place of a row with the cells of scalars after its own.
#[tactic(auto, using(crate::proofs::Picks::cell_front, crate::proofs::Picks::cell_following, crate::proofs::Picks::cell_scalar, crate::proofs::Picks::cell_none, std::proofs::lemmas::Grind::common_steps))]
fn extended_cell(
    alloc: Global,
    scalars: &[Scalar],
    row: &RowInSight,
    width: usize,
    place: usize,
    outer: &Outer,
    args: &[Value],
) -> Result<Cell, NoMemory>
    requires { width ≡ length row.now }
    ensures { IfOk result (λ c. c ≡ cell_at (row.now ++ cells_of (scalars_of scalars.now)
        (sight_of row.now (outer_rows outer.now) args.now)) place) }
{
    if place < width {
        return own_cell(alloc, row, place);
    }
    let after = place - width;
    if after < scalars.len() {
        eval_on(alloc, &scalars[after], row, outer, args)
    } else {
        Ok(Cell::Val(Value::Null))
    }
}
