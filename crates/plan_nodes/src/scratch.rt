//! Memory in which the cells of one row are worked out after those of another.

ghost use Rattle.std.specs.Prelude.{◌≡◌, ◌++◌, [], map, OnOk};
ghost use Rattle.row_types.specs.declared.cell.Cell.TheVariants.{Val};
ghost use Rattle.row_types.specs.OuterRows.{outer_rows};
ghost use Rattle.rel_algebra.specs.Joins.{places as first_places};
ghost use Rattle.rel_algebra.specs.Plan.{cells_of, cells_at};
ghost use Rattle.rel_algebra.specs.PlanView.{scalars_of};
ghost use Rattle.plan_scalars.specs.Sights.{sight_of};

use plan_rows::own_cell;
use plan_scalars::eval_on;
use rel_algebra::{ColumnPlaces, KeptPlaces, Scalar};
use row_types::{Cell, Outer, RowInSight, ValuesInSight};
use sql_values::{NoMemory, Value};
use std::alloc::Global;
use std::mem::swap;

/// The cells that stand after the values of a row, and memory for as many more and for the values
/// that come of a row.
#[derive(Drop)]
pub struct Scratch {
    pub cells: Vec<Cell>,
    pub values: Vec<Value>,
    spare: Vec<Cell>,
}

impl Scratch {
    /// No cells. It takes no memory.
    pub fn new(alloc: Global) -> Scratch
        ensures { result.cells.items ≡ [] }
    {
        Scratch {
            cells: Vec::new(alloc),
            values: Vec::new(alloc),
            spare: Vec::new(alloc),
        }
    }

    /// Drops the cells.
    pub fn clear(&mut self)
        ensures { self.new.cells.items ≡ [] }
    {
        self.cells.clear();
    }

    /// Adds the cells of scalars, each of which is read on the row of these values and the cells
    /// that stood after them.
    pub fn extend(
        &mut self,
        alloc: Global,
        scalars: &[Scalar],
        values: &ValuesInSight,
        outer: &Outer,
        args: &[Value],
    ) -> Result<(), NoMemory>
        ensures { OnOk result (self.new.cells.items ≡ self.old.cells.items ++ cells_of
            (scalars_of scalars.now) (sight_of (map Val values.now ++ self.old.cells.items)
            (outer_rows outer.now) args.now)) }
    {
        extend(&mut self.cells, alloc, scalars, values, outer, args)
    }

    /// Keeps of the row of these values and the cells after them the cells at these places, in this
    /// order; they stand after no value.
    pub fn keep(
        &mut self,
        alloc: Global,
        places: &[usize],
        values: &ValuesInSight,
    ) -> Result<(), NoMemory>
        ensures { OnOk result (self.new.cells.items ≡ cells_at
            (map Val values.now ++ self.old.cells.items) places.now) }
    {
        self.spare.clear();
        let (first, second) = values.slices();
        let values = ValuesInSight::of_pair(first, second);
        let row = RowInSight::over(&values, self.cells.as_slice());
        pick(&mut self.spare, alloc, places, &row)?;
        swap(&mut self.cells, &mut self.spare);
        Ok(())
    }

    /// The same of the first so many cells.
    pub fn keep_front(
        &mut self,
        alloc: Global,
        count: usize,
        values: &ValuesInSight,
    ) -> Result<(), NoMemory>
        ensures { OnOk result (self.new.cells.items ≡ cells_at
            (map Val values.now ++ self.old.cells.items) (first_places 0 count)) }
    {
        self.spare.clear();
        let (first, second) = values.slices();
        let values = ValuesInSight::of_pair(first, second);
        let row = RowInSight::over(&values, self.cells.as_slice());
        pick_front(&mut self.spare, alloc, count, &row)?;
        swap(&mut self.cells, &mut self.spare);
        Ok(())
    }

    /// Keeps the cells that a Keep keeps.
    pub fn keep_places(
        &mut self,
        alloc: Global,
        places: &ColumnPlaces,
        values: &ValuesInSight,
    ) -> Result<(), NoMemory>
        ensures { OnOk result (self.new.cells.items ≡ cells_at
            (map Val values.now ++ self.old.cells.items) places.now) }
    {
        match places.as_kept() {
            KeptPlaces::Listed(list) => self.keep(alloc, list, values),
            KeptPlaces::Front(count) => self.keep_front(alloc, count, values),
        }
    }
}

// Adds the cells of scalars, each of which is read on the row as it came.
fn extend(
    cells: &mut Vec<Cell>,
    alloc: Global,
    scalars: &[Scalar],
    values: &ValuesInSight,
    outer: &Outer,
    args: &[Value],
) -> Result<(), NoMemory>
    ensures { OnOk result (cells.new.items ≡ cells.old.items ++ cells_of (scalars_of scalars.now)
        (sight_of (map Val values.now ++ cells.old.items) (outer_rows outer.now) args.now)) }
{
    let (first, second) = values.slices();
    let width = cells.len();
    for scalar in scalars {
        let (came, _) = cells.split_at(width);
        let values = ValuesInSight::of_pair(first, second);
        let cell = eval_on(alloc, scalar, &RowInSight::over(&values, came), outer, args)?;
        cells.push(cell)?;
    }
    Ok(())
}

// Adds the cells at places of a row.
fn pick(
    cells: &mut Vec<Cell>,
    alloc: Global,
    places: &[usize],
    row: &RowInSight,
) -> Result<(), NoMemory>
    ensures { OnOk result (cells.new.items ≡ cells.old.items ++ cells_at row.now places.now) }
{
    for place in places {
        cells.push(own_cell(alloc, row, *place)?)?;
    }
    Ok(())
}

// Adds the first so many cells of a row.
fn pick_front(
    cells: &mut Vec<Cell>,
    alloc: Global,
    count: usize,
    row: &RowInSight,
) -> Result<(), NoMemory>
    ensures { OnOk result (cells.new.items ≡ cells.old.items ++ cells_at row.now
        (first_places 0 count)) }
{
    for place in 0..count {
        cells.push(own_cell(alloc, row, place)?)?;
    }
    Ok(())
}
