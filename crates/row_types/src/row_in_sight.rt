//! Rows where scalars read them.

ghost use Rattle.std.specs.Prelude.{◌≡◌, ◌+◌, ◌++◌, [], length, map, IfOk, IfSome};
ghost use Rattle.row_types.specs.declared.cell.Cell.TheVariants.{Val};
ghost use Rattle.row_types.specs.Cells.{cell_at, row_of_level};
ghost use Rattle.row_types.specs.OuterRows.{outer_rows};

use crate::cell::{Cell, copied_cell};
use sql_values::{NoMemory, Value};
use std::alloc::Global;
use std::marker::Model;

/// Values where they lie: those of a row, or of two rows, one after the other.
#[derive(Drop)]
pub struct ValuesInSight<'a> {
    first: &'a [Value],
    second: &'a [Value],
}

impl<'a> Model for ValuesInSight<'a> {
    ghost use Rattle.std.specs.Prelude.{List, ◌++◌};
    ghost use Rattle.sql_values.specs.declared.value.Value.{Value as Plain};

    ghost Value = { List Plain };

    ghost view = { λ v. v.first.now ++ v.second.now };
}

impl<'a> ValuesInSight<'a> {
    /// No values.
    pub fn none() -> ValuesInSight<'a>
        ensures { result ≡ [] }
    {
        ValuesInSight {
            first: &[],
            second: &[],
        }
    }

    /// The values of a row.
    #[tactic(auto, using(crate::proofs::Sight::alone, std::proofs::lemmas::Grind::common_steps))]
    pub fn of(values: &'a [Value]) -> ValuesInSight<'a>
        ensures { result ≡ values.now }
    {
        ValuesInSight {
            first: values,
            second: &[],
        }
    }

    /// The values of one row, and then those of another.
    pub fn of_pair(left: &'a [Value], right: &'a [Value]) -> ValuesInSight<'a>
        ensures { result ≡ left.now ++ right.now }
    {
        ValuesInSight {
            first: left,
            second: right,
        }
    }

    /// The slices that they lie in, the first of which stands before the other.
    pub fn slices(&self) -> (&'a [Value], &'a [Value])
        ensures { result.0.now ++ result.1.now ≡ self.now }
    {
        (self.first, self.second)
    }
}

/// The cells of a row where they lie: values, as tables' rows have them, and cells that stand after
/// these. Nothing is copied to see them.
#[derive(Drop)]
pub struct RowInSight<'a> {
    values: &'a [Value],
    more: &'a [Value],
    cells: &'a [Cell],
}

impl<'a> Model for RowInSight<'a> {
    ghost use Rattle.std.specs.Prelude.{List, map, ◌++◌};
    ghost use Rattle.row_types.specs.declared.cell.Cell.{Cell as Plain};
    ghost use Rattle.row_types.specs.declared.cell.Cell.TheVariants.{Val};

    ghost Value = { List Plain };

    ghost view = { λ r. map Val r.values.now ++ (map Val r.more.now ++ r.cells.now) };
}

impl<'a> RowInSight<'a> {
    /// The row of these values, and of these cells after them.
    pub fn of(values: &'a [Value], cells: &'a [Cell]) -> RowInSight<'a>
        ensures { result ≡ map Val values.now ++ cells.now }
    {
        RowInSight {
            values,
            more: &[],
            cells,
        }
    }

    /// The same, of values that may lie in two places.
    #[tactic(auto, using(crate::proofs::Sight::shown_apart, std::proofs::lemmas::Grind::common_steps))]
    pub fn over(values: &ValuesInSight<'a>, cells: &'a [Cell]) -> RowInSight<'a>
        ensures { result ≡ map Val values.now ++ cells.now }
    {
        let (first, second) = values.slices();
        RowInSight {
            values: first,
            more: second,
            cells,
        }
    }

    /// The number of cells.
    pub fn len(&self) -> usize
        ensures { result ≡ length self.now }
    {
        self.values.len() + self.more.len() + self.cells.len()
    }

    /// The value at a place, where it lies. `None` says nothing of what stands there.
    #[tactic(auto, using(crate::proofs::Sight::cell_value, crate::proofs::Sight::cell_later, std::proofs::lemmas::Grind::common_steps))]
    pub fn value(&self, place: usize) -> Option<&'a Value>
        ensures { IfSome result (λ v. cell_at self.now place ≡ Val v.now) }
    {
        let values = self.values;
        if place < values.len() {
            Some(&values[place])
        } else {
            value_after(self.more, self.cells, place - values.len())
        }
    }

    /// The cell at a place, once more; NULL where the row has none.
    #[tactic(auto, using(crate::proofs::Sight::cell_value, crate::proofs::Sight::cell_later, std::proofs::lemmas::Grind::common_steps))]
    pub fn cell(&self, alloc: Global, place: usize) -> Result<Cell, NoMemory>
        ensures { IfOk result (λ c. c ≡ cell_at self.now place) }
    {
        let values = self.values;
        if place < values.len() {
            Ok(Cell::Val(values[place].copied()?))
        } else {
            cell_after(alloc, self.more, self.cells, place - values.len())
        }
    }
}

// The value at a place among values and the cells after them.
#[tactic(auto, using(crate::proofs::Sight::cell_value, crate::proofs::Sight::cell_later, std::proofs::lemmas::Grind::common_steps))]
fn value_after<'a>(values: &'a [Value], cells: &'a [Cell], place: usize) -> Option<&'a Value>
    ensures { IfSome result (λ v. cell_at (map Val values.now ++ cells.now) place ≡ Val v.now) }
{
    if place < values.len() {
        Some(&values[place])
    } else {
        later_value(cells, place - values.len())
    }
}

// The cell at a place among values and the cells after them, once more.
#[tactic(auto, using(crate::proofs::Sight::cell_value, crate::proofs::Sight::cell_later, std::proofs::lemmas::Grind::common_steps))]
fn cell_after(
    alloc: Global,
    values: &[Value],
    cells: &[Cell],
    place: usize,
) -> Result<Cell, NoMemory>
    ensures { IfOk result (λ c. c ≡ cell_at (map Val values.now ++ cells.now) place) }
{
    if place < values.len() {
        Ok(Cell::Val(values[place].copied()?))
    } else {
        later_cell(alloc, cells, place - values.len())
    }
}

// The value at a place, where a value stands there.
fn later_value(cells: &[Cell], place: usize) -> Option<&Value>
    ensures { IfSome result (λ v. cell_at cells.now place ≡ Val v.now) }
{
    match cells.get(place)? {
        Cell::Val(value) => Some(value),
        Cell::Cond(_) => None,
    }
}

// The cell at a place, once more; NULL where there is none.
fn later_cell(alloc: Global, cells: &[Cell], place: usize) -> Result<Cell, NoMemory>
    ensures { IfOk result (λ c. c ≡ cell_at cells.now place) }
{
    match cells.get(place) {
        Some(cell) => copied_cell(alloc, cell),
        None => Ok(Cell::Val(Value::Null)),
    }
}

/// The rows outside a plan or a scalar, the innermost first.
#[derive(Drop)]
pub enum Outer<'a> {
    /// No row.
    Outermost,
    /// A row, which is values, perhaps those of a second row, and the cells after these; and the
    /// rows outside it.
    Under(&'a [Value], &'a [Value], &'a [Cell], &'a Outer<'a>),
}

/// The cell at a place of the row of a level, the innermost row at level 0; NULL where there is
/// none.
pub fn outer_cell(
    alloc: Global,
    outer: &Outer,
    level: usize,
    place: usize,
) -> Result<Cell, NoMemory>
    ensures { IfOk result (λ c. c ≡ cell_at (row_of_level (outer_rows outer.now) level) place) }
{
    match outer {
        Outer::Outermost => Ok(Cell::Val(Value::Null)),
        Outer::Under(values, more, cells, further) => {
            if level == 0 {
                RowInSight::over(&ValuesInSight::of_pair(values, more), cells).cell(alloc, place)
            } else {
                outer_cell(alloc, further, level - 1, place)
            }
        }
    }
}
