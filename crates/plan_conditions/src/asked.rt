//! What is asked of the conditions of a cell: of which class the newest is, how many there are, and
//! an item of one of them.

ghost use Rattle.std.specs.Prelude.{◌≡◌, IfOk};
ghost use Rattle.std.specs.Option.{option_copied};
ghost use Rattle.sql_conditions.specs.States.{is_class};
ghost use Rattle.rel_algebra.specs.OnConditions as spec;
ghost use Rattle.rel_algebra.specs.WordView.{item_word};

use crate::raised::engine_cell;
use rel_algebra::ItemWord;
use row_types::Cell;
use sql_conditions::{Area, Condition, EngineCondition, SqlState};
use sql_values::{NoMemory, Value};
use sqlite_items::at;
use std::alloc::Global;

// Whether a state is of a class.
fn is_of(class: &[u8], state: &SqlState) -> bool
    ensures { result ≡ is_class class.now state.now }
{
    &state.as_bytes()[..2] == class
}

/// Whether the newest condition of a cell is of a class (ISO/IEC 9075-2, 24.1); a value is of none.
pub fn class_cell(class: &[u8; 2], cell: &Cell) -> Cell
    ensures { result ≡ spec.class_cell class.now cell.now }
{
    match cell {
        Cell::Val(_) => Cell::Val(Value::Bool(false)),
        Cell::Cond(area) => Cell::Val(Value::Bool(is_of(class, area.get().state()))),
    }
}

/// How many conditions a cell has (23.1), and NULL of a value.
pub fn number_cell(cell: &Cell) -> Cell
    ensures { result ≡ spec.number_cell cell.now }
{
    match cell {
        Cell::Val(_) => Cell::Val(Value::Null),
        Cell::Cond(area) => Cell::Val(Value::Int(area.get().len() as i64)),
    }
}

// An item of a condition.
fn item_of(alloc: Global, item: ItemWord, condition: &Condition) -> Result<Value, NoMemory>
    ensures { IfOk result (λ v. v ≡ spec.item_of (item_word item) condition.now) }
{
    match item {
        ItemWord::State => Ok(Value::Str(condition.state.to_text(alloc)?)),
        ItemWord::Text => Ok(Value::Str(condition.message.to_text(alloc)?)),
    }
}

// The condition of a number, from one on.
fn condition_numbered<'a>(number: &Value, area: &'a Area) -> Option<&'a Condition>
    ensures { option_copied result ≡ spec.condition_numbered number.now area.now }
{
    match number {
        Value::Int(number) => {
            if *number < 1 {
                return None;
            }
            at(area.as_slice(), (*number - 1) as usize)
        }
        _ => None,
    }
}

// The item of a condition that is there, and else 35000.
fn item_or(alloc: Global, item: ItemWord, condition: Option<&Condition>) -> Result<Cell, NoMemory>
    ensures { IfOk result
        (λ c. c ≡ spec.item_or (item_word item) (option_copied condition.entry)) }
{
    match condition {
        Some(condition) => Ok(Cell::Val(item_of(alloc, item, condition)?)),
        None => engine_cell(alloc, EngineCondition::InvalidConditionNumber),
    }
}

/// The item of the condition with a number, from one on, the newest first (23.1): NULL of a value,
/// and 35000 where there is no such condition. A number that raises goes first.
pub fn item_cell(alloc: Global, item: ItemWord, number: Cell, cell: &Cell) -> Result<Cell, NoMemory>
    ensures { IfOk result (λ c. c ≡ spec.item_cell (item_word item) number cell.now) }
{
    match (number, cell) {
        (Cell::Cond(area), _) => Ok(Cell::Cond(area)),
        (Cell::Val(_), Cell::Val(_)) => Ok(Cell::Val(Value::Null)),
        (Cell::Val(number), Cell::Cond(area)) => {
            item_or(alloc, item, condition_numbered(&number, area.get()))
        }
    }
}
