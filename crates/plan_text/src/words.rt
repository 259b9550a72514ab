//! The words of scalars.

ghost use Rattle.std.specs.Prelude.{◌≡◌, ◌++◌, OnOk};
ghost use Rattle.rel_algebra.specs.Plan.{strict};
ghost use Rattle.rel_algebra.specs.PlanView.{list_word, unary_operation};
ghost use Rattle.plan_text.specs.ScalarText.{comparison_text, operator_text, type_text, word_text};

use rel_algebra::{ListWord, UnaryWord};
use reply_text::{put, put_count};
use sql_values::{Comparison, NoMemory, Operator, SqlType};

/// The word of an operator.
pub(crate) fn operator_word(operator: Operator) -> &'static str
    ensures { result.now ≡ operator_text operator }
{
    match operator {
        Operator::Add => "add",
        Operator::Subtract => "sub",
        Operator::Multiply => "mul",
        Operator::Divide => "div",
        Operator::Concatenate => "concat",
    }
}

/// The word of a comparison.
pub(crate) fn comparison_word(comparison: Comparison) -> &'static str
    ensures { result.now ≡ comparison_text comparison }
{
    match comparison {
        Comparison::Equals => "eq",
        Comparison::NotEquals => "ne",
        Comparison::LessThan => "lt",
        Comparison::LessThanOrEquals => "le",
        Comparison::GreaterThan => "gt",
        Comparison::GreaterThanOrEquals => "ge",
    }
}

/// The word of an operation on a list of operands.
pub(crate) fn listed_word(word: ListWord) -> &'static str
    ensures { result.now ≡ word_text (list_word word) }
{
    match word {
        ListWord::Modulo => "mod",
        ListWord::Substring => "substring",
        ListWord::AnyOf => "anyof",
        ListWord::And => "and",
        ListWord::Or => "or",
        ListWord::Case => "case",
        ListWord::Coalesce => "coalesce",
    }
}

// Writes a type.
fn put_type(text: &mut Vec<u8>, data_type: SqlType) -> Result<(), NoMemory>
    ensures { OnOk result (text.new.items ≡ text.old.items ++ type_text data_type) }
{
    match data_type {
        SqlType::Integer => put(text, b"INTEGER"),
        SqlType::Varchar(most) => {
            put(text, b"VARCHAR(")?;
            put_count(text, most as u64)?;
            put(text, b")")
        }
        SqlType::Boolean => put(text, b"BOOLEAN"),
    }
}

/// Writes the word of an operation on one operand.
pub(crate) fn put_unary_word(text: &mut Vec<u8>, word: UnaryWord) -> Result<(), NoMemory>
    ensures { OnOk result (text.new.items ≡ text.old.items ++ word_text
        (strict (unary_operation word))) }
{
    match word {
        UnaryWord::Negation => put(text, b"neg"),
        UnaryWord::Opposite => put(text, b"not"),
        UnaryWord::NullTest => put(text, b"isnull"),
        UnaryWord::TrueTest => put(text, b"istrue"),
        UnaryWord::FalseTest => put(text, b"isfalse"),
        UnaryWord::CharLength => put(text, b"length"),
        UnaryWord::Cast(data_type) => {
            put(text, b"cast:")?;
            put_type(text, data_type)
        }
        UnaryWord::Assign(data_type) => {
            put(text, b"assign:")?;
            put_type(text, data_type)
        }
    }
}
