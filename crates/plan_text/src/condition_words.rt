//! The words over cells that may be conditions.

ghost use Rattle.std.specs.Prelude.{◌≡◌, ◌++◌, OnOk};
ghost use Rattle.rel_algebra.specs.WordView.{condition_value, condition_word};
ghost use Rattle.plan_text.specs.ScalarText.{condition_text, handler_text};

use rel_algebra::{ConditionValue, ConditionWord, ItemWord};
use reply_text::put;
use sql_values::NoMemory;

// Writes what a handler waits for, as scripts do.
fn put_handler_value(text: &mut Vec<u8>, value: &ConditionValue) -> Result<(), NoMemory>
    ensures { OnOk result (text.new.items ≡ text.old.items ++ handler_text
        (condition_value value.now)) }
{
    match value {
        ConditionValue::State(state) => {
            put(text, b"SQLSTATE '")?;
            put(text, state.as_bytes())?;
            put(text, b"'")
        }
        ConditionValue::SqlException => put(text, b"SQLEXCEPTION"),
        ConditionValue::SqlWarning => put(text, b"SQLWARNING"),
        ConditionValue::NotFound => put(text, b"NOT FOUND"),
    }
}

/// Writes a word over cells that may be conditions, with what it has beside its operands.
pub(crate) fn put_condition_word(text: &mut Vec<u8>, word: &ConditionWord) -> Result<(), NoMemory>
    ensures { OnOk result (text.new.items ≡ text.old.items ++ condition_text
        (condition_word word.now)) }
{
    match word {
        ConditionWord::Catch => put(text, b"catch"),
        ConditionWord::Matches(value) => {
            put(text, b"matches:")?;
            put_handler_value(text, value)
        }
        ConditionWord::Class(class) => {
            put(text, b"class:")?;
            put(text, class)
        }
        ConditionWord::Number => put(text, b"number"),
        ConditionWord::Item(ItemWord::State) => put(text, b"item:state"),
        ConditionWord::Item(ItemWord::Text) => put(text, b"item:text"),
        ConditionWord::Push(state) => {
            put(text, b"push:")?;
            put(text, state.as_bytes())
        }
        ConditionWord::Retext => put(text, b"retext"),
        ConditionWord::Raise => put(text, b"raise"),
    }
}
