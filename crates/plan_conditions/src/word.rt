//! What each word makes of the cells of its operands.

ghost use Rattle.std.specs.Prelude.{◌≡◌, [], ◌∷◌, IfOk};
ghost use Rattle.rel_algebra.specs.OnConditions.{condition_cell};
ghost use Rattle.rel_algebra.specs.WordView.{condition_word};
ghost use Rattle.plan_conditions.specs.Operands.{operands_in};

use crate::asked::{class_cell, item_cell, number_cell};
use crate::handled::matches_cell;
use crate::raised::{push_cell, retext_cell};
use rel_algebra::ConditionWord;
use row_types::Cell;
use sql_values::{NoMemory, Value};
use sqlite_items::Items;
use std::alloc::Global;

// The cells of one operand or of two; no word has none or more.
#[derive(Drop)]
enum Operands {
    One(Cell),
    Two(Cell, Cell),
    Other,
}

/// What a word makes of the cells of its operands: NULL where it isn't one of so many. It takes
/// memory for the box of an area alone, and for the text of an SQLSTATE or of a condition that the
/// engine raised.
pub fn word_cell(
    alloc: Global,
    word: &ConditionWord,
    operands: Items<Cell>,
) -> Result<Cell, NoMemory>
    ensures { IfOk result (λ c. c ≡ condition_cell (condition_word word.now) operands) }
{
    match taken(operands) {
        Operands::One(only) => Ok(word_of_one(word, only)),
        Operands::Two(first, second) => word_of_two(alloc, word, first, second),
        Operands::Other => Ok(Cell::Val(Value::Null)),
    }
}

// Cells, by their number.
#[tactic(auto, using(crate::proofs::Taken::one_taken, crate::proofs::Taken::two_taken, crate::proofs::Taken::more_taken, std::proofs::lemmas::Grind::common_steps))]
fn taken(operands: Items<Cell>) -> Operands
    ensures { result ≡ operands_in operands }
{
    let mut left = operands;
    let last = left.pop();
    let before = left.pop();
    if left.len() > 0 {
        return Operands::Other;
    }
    match (before, last) {
        (None, Some(only)) => Operands::One(only),
        (Some(first), Some(second)) => Operands::Two(first, second),
        _ => Operands::Other,
    }
}

/// What a word makes of one cell: NULL where it is a word over two.
pub fn word_of_one(word: &ConditionWord, only: Cell) -> Cell
    ensures { result ≡ condition_cell (condition_word word.now) (only ∷ []) }
{
    match word {
        ConditionWord::Catch => only,
        ConditionWord::Matches(value) => matches_cell(value, &only),
        ConditionWord::Class(class) => class_cell(class, &only),
        ConditionWord::Number => number_cell(&only),
        ConditionWord::Raise => only,
        ConditionWord::Item(_) => Cell::Val(Value::Null),
        ConditionWord::Push(_) => Cell::Val(Value::Null),
        ConditionWord::Retext => Cell::Val(Value::Null),
    }
}

/// What a word makes of two cells: NULL where it is a word over one.
pub fn word_of_two(
    alloc: Global,
    word: &ConditionWord,
    first: Cell,
    second: Cell,
) -> Result<Cell, NoMemory>
    ensures { IfOk result
        (λ c. c ≡ condition_cell (condition_word word.now) (first ∷ second ∷ [])) }
{
    match word {
        ConditionWord::Item(item) => item_cell(alloc, *item, first, &second),
        ConditionWord::Push(state) => push_cell(alloc, state, first, second),
        ConditionWord::Retext => retext_cell(alloc, first, second),
        ConditionWord::Catch => Ok(Cell::Val(Value::Null)),
        ConditionWord::Matches(_) => Ok(Cell::Val(Value::Null)),
        ConditionWord::Class(_) => Ok(Cell::Val(Value::Null)),
        ConditionWord::Number => Ok(Cell::Val(Value::Null)),
        ConditionWord::Raise => Ok(Cell::Val(Value::Null)),
    }
}
