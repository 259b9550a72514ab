//! CAST and assignment (ISO/IEC 9075-2, 6.13 and 9.2).

ghost use Rattle.std.specs.Prelude.{◌≡◌, take, drop, Ok};
ghost use Rattle.sql_values.specs.declared.value.Value.TheVariants.{Str};
ghost use Rattle.sql_values.specs.Values.{UnlessNoMemory};
ghost use Rattle.sql_values.specs.Casts.{cast_to, assigned, cut_to, word_for as word_for_by};
ghost use Rattle.sql_values.specs.Casts.{decimal_text as decimal_text_by};
ghost use Rattle.sql_values.specs.Casts.{word_text as word_text_by};
ghost use Rattle.sql_values.specs.Spellings.{are_spaces, letters};

use crate::spellings::{spelled_integer, spelled_truth};
use crate::{SqlType, Text, Value, ValueFault};
use std::alloc::Global;

// A number's decimal text, where a type has room for it.
fn decimal_text(alloc: Global, number: i64, most: usize) -> Result<Value, ValueFault>
    ensures { UnlessNoMemory result (result ≡ decimal_text_by most number) }
{
    let digits = number.to_string(alloc)?;
    if digits.len() > most {
        return Err(ValueFault::TooLong);
    }
    Ok(Value::Str(Text::of(alloc, digits)?))
}

// A truth value's word.
fn word_for(truth: bool) -> &'static str
    ensures { result.now ≡ letters (word_for_by truth) }
{
    if truth { "TRUE" } else { "FALSE" }
}

// A truth value's word, where a type has room for it.
fn word_text(alloc: Global, truth: bool, most: usize) -> Result<Value, ValueFault>
    ensures { UnlessNoMemory result (result ≡ word_text_by most truth) }
{
    let word = word_for(truth);
    if word.len() > most {
        return Err(ValueFault::BadCast);
    }
    Ok(Value::Str(Text::of(alloc, String::from_str(alloc, word)?)?))
}

/// The value as one of a type. `BadCast` comes exactly where a text doesn't spell a value of the
/// type, or the type has no room for a truth value's word; `OutOfRange` where the number that a
/// text spells is no INTEGER; `TooLong` where the type has no room for a number's text.
pub fn cast(alloc: Global, v: &Value, to: SqlType) -> Result<Value, ValueFault>
    ensures { UnlessNoMemory result (result ≡ cast_to to v.now) }
{
    match (to, v) {
        (SqlType::Integer, Value::Int(number)) => Ok(Value::Int(*number)),
        (SqlType::Integer, Value::Str(text)) => spelled_integer(text),
        (SqlType::Varchar(most), Value::Int(number)) => decimal_text(alloc, *number, most),
        (SqlType::Varchar(most), Value::Str(text)) => front(alloc, text, most),
        (SqlType::Varchar(most), Value::Bool(truth)) => word_text(alloc, *truth, most),
        (SqlType::Boolean, Value::Str(text)) => spelled_truth(text),
        (SqlType::Boolean, Value::Bool(truth)) => Ok(Value::Bool(*truth)),
        _ => Ok(Value::Null),
    }
}

// The first characters of a text, as many as a type has room for.
fn front(alloc: Global, text: &Text, most: usize) -> Result<Value, ValueFault>
    ensures { UnlessNoMemory result (result ≡ Ok (Str (take most text.now))) }
{
    if text.len() <= most {
        return Ok(Value::Str(text.copied()?));
    }
    Ok(Value::Str(text.part(alloc, 0, most)?))
}

// Whether all characters after the first so many are spaces.
fn spaces_after(text: &Text, most: usize) -> bool
    ensures { result ≡ are_spaces (drop most text.now) }
{
    text.as_str().chars().skip(most).all(|c| c == ' ')
}

// The text as one of so many characters, where it is one without the spaces at its end.
fn cut(alloc: Global, text: Text, most: usize) -> Result<Value, ValueFault>
    ensures { UnlessNoMemory result (result ≡ cut_to most text) }
{
    if text.len() <= most {
        return Ok(Value::Str(text));
    }
    if !spaces_after(&text, most) {
        return Err(ValueFault::TooLong);
    }
    Ok(Value::Str(text.part(alloc, 0, most)?))
}

/// The value that a target of a type takes: a text that is too long is cut where all the excess is
/// spaces. `TooLong` comes exactly where it isn't. A text that fits is handed on.
pub fn assign(alloc: Global, v: Value, to: SqlType) -> Result<Value, ValueFault>
    ensures { UnlessNoMemory result (result ≡ assigned to v) }
{
    match (v, to) {
        (Value::Str(text), SqlType::Varchar(most)) => cut(alloc, text, most),
        (v, _) => Ok(v),
    }
}
