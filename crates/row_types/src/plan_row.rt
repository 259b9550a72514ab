//! The rows of plans.

ghost use Rattle.std.specs.Prelude.{◌≡◌, map, IfOk};
ghost use Rattle.std.specs.Option.{option_copied};
ghost use Rattle.row_types.specs.declared.cell.Cell.TheVariants.{Val};
ghost use Rattle.row_types.specs.Cells.{Whole, Poisoned, area_in, row_area, row_cells, row_end};
ghost use Rattle.row_types.specs.Cells.{cells_end};
ghost use Rattle.row_types.specs.Forms.{end_of};

use crate::cell::{Cell, copied_area};
use crate::row::Row;
use crate::row_in_sight::RowInSight;
use sql_conditions::Area;
use sql_values::NoMemory;
use sqlite_items::{Boxed, Items};
use std::alloc::Global;
use std::marker::Model;

// How a row lies in memory. A row of values alone lies as the rows of tables do, so that it can go
// on as one.
#[derive(Drop)]
enum Form {
    Values(Row),
    Cells(Items<Cell>),
    Poisoned(Boxed<Area>),
}

/// A row of a plan's list: its cells, or, where it is poisoned, the area of the conditions that
/// deciding on it raised. Its cells are one allocation, of 16 bytes a column where all of them are
/// values; an area is one of its own.
#[derive(Drop)]
pub struct PlanRow {
    form: Form,
}

impl Model for PlanRow {
    ghost use Rattle.row_types.specs.Cells.{PlanRow as Plain};
    ghost use Rattle.row_types.specs.Forms.{plan_row_of};

    ghost Value = { Plain };

    ghost view = { λ r. plan_row_of r.form };
}

impl PlanRow {
    /// A row of values. It takes no more memory.
    pub fn of_values(values: Row) -> PlanRow
        ensures { result ≡ Whole (map Val values) }
    {
        PlanRow {
            form: Form::Values(values),
        }
    }

    /// A row of cells. It takes no more memory.
    pub fn of_cells(cells: Items<Cell>) -> PlanRow
        ensures { result ≡ Whole cells }
    {
        PlanRow {
            form: Form::Cells(cells),
        }
    }

    /// A poisoned row. It takes no more memory.
    pub fn poisoned(area: Boxed<Area>) -> PlanRow
        ensures { result ≡ Poisoned area }
    {
        PlanRow {
            form: Form::Poisoned(area),
        }
    }

    /// The cells where they lie; a poisoned row has none.
    pub fn in_sight(&self) -> RowInSight
        ensures { result ≡ row_cells self.now }
    {
        match &self.form {
            Form::Values(values) => RowInSight::of(values.as_slice(), &[]),
            Form::Cells(cells) => RowInSight::of(&[], cells.as_slice()),
            Form::Poisoned(_) => RowInSight::of(&[], &[]),
        }
    }

    /// The area of a row: the poison, or the first among its cells, from left to right. `None`
    /// exactly where the row isn't poisoned and each cell is a value.
    #[tactic(auto, using(crate::proofs::Ends::area_of_values, std::proofs::lemmas::Grind::common_steps))]
    pub fn first_area(&self) -> Option<&Area>
        ensures { option_copied result ≡ row_area self.now }
    {
        match &self.form {
            Form::Values(_) => None,
            Form::Cells(cells) => first_area_in(cells.as_slice()),
            Form::Poisoned(area) => Some(area.get()),
        }
    }

    /// The values of a row, or the area that it has. A row that was made of values hands these on,
    /// and so does a poisoned one its area, without more memory.
    #[tactic(auto, using(crate::proofs::Ends::end_of_values, std::proofs::lemmas::Grind::common_steps))]
    pub fn into_end(self, alloc: Global) -> Result<RowEnd, NoMemory>
        ensures { IfOk result (λ e. end_of e ≡ row_end self) }
    {
        match self.form {
            Form::Values(values) => Ok(RowEnd::Values(values)),
            Form::Cells(cells) => end_of_cells(alloc, cells.as_slice()),
            Form::Poisoned(area) => Ok(RowEnd::Raised(area)),
        }
    }
}

/// The first area among cells, from left to right; `None` exactly where each cell is a value.
pub fn first_area_in(cells: &[Cell]) -> Option<&Area>
    ensures { option_copied result ≡ area_in cells.now }
{
    for cell in cells {
        if let Cell::Cond(area) = cell {
            return Some(area.get());
        }
    }
    None
}

/// What comes of a row that has to have values.
#[derive(Drop)]
pub enum RowEnd {
    /// Its values.
    Values(Row),
    /// The area of the conditions that it raises.
    Raised(Boxed<Area>),
}

// The values of cells, or the first area among them.
#[tactic(auto, using(crate::proofs::Ends::with_values_push, crate::proofs::Ends::with_values_ok, crate::proofs::Ends::with_values_err, std::proofs::lemmas::Grind::common_steps))]
fn end_of_cells(alloc: Global, cells: &[Cell]) -> Result<RowEnd, NoMemory>
    ensures { IfOk result (λ e. end_of e ≡ cells_end cells.now) }
{
    let mut values = Items::from_vec(Vec::with_capacity(alloc, cells.len())?);
    for cell in cells {
        match cell {
            Cell::Val(value) => values.push(value.copied()?)?,
            Cell::Cond(area) => return Ok(RowEnd::Raised(copied_area(alloc, area.get())?)),
        }
    }
    Ok(RowEnd::Values(values))
}
