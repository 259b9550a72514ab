//! What raises again: a new condition before others, and another text for the newest.

ghost use Rattle.std.specs.Prelude.{◌≡◌, IfOk};
ghost use Rattle.sql_conditions.specs.Conditions.{area_of, pushed};
ghost use Rattle.row_types.specs.declared.cell.Cell.TheVariants.{Cond};
ghost use Rattle.rel_algebra.specs.OnConditions as spec;

use row_types::Cell;
use sql_conditions::{Area, Condition, EngineCondition, Message, SqlState};
use sql_values::{NoMemory, Value};
use sqlite_items::Boxed;
use std::alloc::Global;

/// The cell of a condition that the engine raises.
pub fn engine_cell(alloc: Global, engine: EngineCondition) -> Result<Cell, NoMemory>
    ensures { IfOk result (λ c. c ≡ Cond (area_of engine)) }
{
    Ok(Cell::Cond(Boxed::new(alloc, Area::of(Condition::of(engine)))?))
}

// A condition before those of a cell; a value has none.
fn before(condition: Condition, cell: Cell) -> Area
    ensures { result ≡ pushed condition (spec.area_in cell) }
{
    match cell {
        Cell::Val(_) => Area::of(condition),
        Cell::Cond(area) => {
            let mut area = area.into_inner();
            area.push_front(condition);
            area
        }
    }
}

// A condition of this state and text before those of a cell; 22004 where the text is NULL.
fn push_text(alloc: Global, state: &SqlState, text: Value, cell: Cell) -> Result<Cell, NoMemory>
    ensures { IfOk result (λ c. c ≡ spec.push_text state.now text (spec.area_in cell)) }
{
    match text {
        Value::Str(text) => {
            let condition = Condition {
                state: *state,
                message: Message::written(text),
            };
            Ok(Cell::Cond(Boxed::new(alloc, before(condition, cell))?))
        }
        _ => engine_cell(alloc, EngineCondition::NullNotAllowed),
    }
}

/// A new condition with a text, before those of a cell (ISO/IEC 9075-4, 17.2 and 17.3); of five the
/// oldest goes, and a value has none. It is 22004 where the text is NULL, and a text that raises
/// goes first.
pub fn push_cell(alloc: Global, state: &SqlState, text: Cell, cell: Cell) -> Result<Cell, NoMemory>
    ensures { IfOk result (λ c. c ≡ spec.push_cell state.now text cell) }
{
    match text {
        Cell::Cond(area) => Ok(Cell::Cond(area)),
        Cell::Val(text) => push_text(alloc, state, text, cell),
    }
}

// Another text for the newest condition of an area; 22004 where the text is NULL.
fn retext_text(alloc: Global, text: Value, area: Area) -> Result<Cell, NoMemory>
    ensures { IfOk result (λ c. c ≡ spec.retext_text text area) }
{
    match text {
        Value::Str(text) => {
            let mut area = area;
            area.retext(Message::written(text));
            Ok(Cell::Cond(Boxed::new(alloc, area)?))
        }
        _ => engine_cell(alloc, EngineCondition::NullNotAllowed),
    }
}

/// The conditions of a cell, the newest with another text (ISO/IEC 9075-4, 17.3); a value stays. It
/// is 22004 where the text is NULL, and a text that raises goes first.
pub fn retext_cell(alloc: Global, text: Cell, cell: Cell) -> Result<Cell, NoMemory>
    ensures { IfOk result (λ c. c ≡ spec.retext_cell text cell) }
{
    match (text, cell) {
        (Cell::Cond(area), _) => Ok(Cell::Cond(area)),
        (Cell::Val(_), Cell::Val(value)) => Ok(Cell::Val(value)),
        (Cell::Val(text), Cell::Cond(area)) => retext_text(alloc, text, area.into_inner()),
    }
}
