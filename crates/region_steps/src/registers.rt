//! The cells of one row, in memory that is used again for the next.

ghost use Rattle.std.specs.Prelude.{◌≡◌, ◌++◌, ◌≤◌, [], length, take, OnOk};
ghost use Rattle.row_types.specs.OuterRows.{outer_rows};
ghost use Rattle.rel_algebra.specs.Joins.{places as first_places};
ghost use Rattle.rel_algebra.specs.Plan.{cells_at, cells_of};
ghost use Rattle.rel_algebra.specs.PlanView.{scalars_of};
ghost use Rattle.plan_scalars.specs.Sights.{sight_of};
ghost use Rattle.region_steps.specs.Chains.{chain_cells};

use crate::choices::cell_here;
use crate::keeping::{goes_forward, keep_forward, pick, pick_front};
use rel_algebra::{ColumnPlaces, KeptPlaces, Node, Scalar};
use row_types::{Cell, Outer, RowInSight};
use sql_values::{NoMemory, Value};
use std::alloc::Global;
use std::mem::swap;

/// The cells of a row, and memory for those of another.
#[derive(Drop)]
pub struct Registers {
    pub cells: Vec<Cell>,
    spare: Vec<Cell>,
}

impl Registers {
    /// No cells. It takes no memory.
    pub fn new(alloc: Global) -> Registers
        ensures { result.cells.items ≡ [] }
    {
        Registers {
            cells: Vec::new(alloc),
            spare: Vec::new(alloc),
        }
    }

    /// Drops the cells.
    pub fn clear(&mut self)
        ensures { self.new.cells.items ≡ [] }
    {
        self.cells.clear();
    }

    /// Drops the cells after the first so many.
    pub fn shorten(&mut self, count: usize)
        ensures { self.new.cells.items ≡ take count self.old.cells.items }
    {
        self.cells.truncate(count);
    }

    /// What nodes make of the row, the first of them first; one that neither adds cells to a row
    /// nor keeps some of its cells does nothing.
    pub fn pass(
        &mut self,
        alloc: Global,
        nodes: &[Node],
        outer: &Outer,
        args: &[Value],
    ) -> Result<(), NoMemory>
        ensures { OnOk result (self.new.cells.items ≡ chain_cells nodes.now self.old.cells.items
            (outer_rows outer.now) args.now) }
    {
        for node in nodes {
            match node {
                Node::Extend(scalars) => self.extend(alloc, scalars.as_slice(), outer, args)?,
                Node::Keep(places) => self.keep(alloc, places)?,
                _ => {}
            }
        }
        Ok(())
    }

    // Adds the cells of scalars, each of which is read on the row as it came.
    fn extend(
        &mut self,
        alloc: Global,
        scalars: &[Scalar],
        outer: &Outer,
        args: &[Value],
    ) -> Result<(), NoMemory>
        ensures { OnOk result (self.new.cells.items ≡ self.old.cells.items ++ cells_of
            (scalars_of scalars.now) (sight_of self.old.cells.items (outer_rows outer.now)
            args.now)) }
    {
        extend(&mut self.cells, alloc, scalars, outer, args)
    }

    // Keeps the cells that a Keep keeps.
    fn keep(&mut self, alloc: Global, places: &ColumnPlaces) -> Result<(), NoMemory>
        ensures { OnOk result (self.new.cells.items ≡ cells_at self.old.cells.items places.now) }
    {
        match places.as_kept() {
            KeptPlaces::Listed(list) => self.keep_listed(alloc, list),
            KeptPlaces::Front(count) => self.keep_front(alloc, count),
        }
    }

    // Keeps the cells at these places, in this order.
    fn keep_listed(&mut self, alloc: Global, places: &[usize]) -> Result<(), NoMemory>
        ensures { OnOk result (self.new.cells.items ≡ cells_at self.old.cells.items places.now) }
    {
        if places.len() <= self.cells.len() && goes_forward(places) {
            return keep_forward(&mut self.cells, alloc, places);
        }
        self.spare.clear();
        pick(
            &mut self.spare,
            alloc,
            places,
            &RowInSight::of(&[], self.cells.as_slice()),
        )?;
        swap(&mut self.cells, &mut self.spare);
        Ok(())
    }

    // Keeps the first so many cells.
    fn keep_front(&mut self, alloc: Global, count: usize) -> Result<(), NoMemory>
        ensures { OnOk result (self.new.cells.items ≡ cells_at self.old.cells.items
            (first_places 0 count)) }
    {
        self.spare.clear();
        pick_front(
            &mut self.spare,
            alloc,
            count,
            &RowInSight::of(&[], self.cells.as_slice()),
        )?;
        swap(&mut self.cells, &mut self.spare);
        Ok(())
    }
}

// Adds the cells of scalars, each of which is read on the row as it came.
fn extend(
    cells: &mut Vec<Cell>,
    alloc: Global,
    scalars: &[Scalar],
    outer: &Outer,
    args: &[Value],
) -> Result<(), NoMemory>
    ensures { OnOk result (cells.new.items ≡ cells.old.items ++ cells_of (scalars_of scalars.now)
        (sight_of cells.old.items (outer_rows outer.now) args.now)) }
{
    let width = cells.len();
    for scalar in scalars {
        let (came, _) = cells.split_at(width);
        let cell = cell_here(alloc, scalar, &RowInSight::of(&[], came), outer, args)?;
        cells.push(cell)?;
    }
    Ok(())
}
