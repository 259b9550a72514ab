//! Operations on texts (ISO/IEC 9075-2, 6.28, 6.29 and 6.32). A NULL operand gives NULL.

ghost use Rattle.std.specs.Prelude.{◌≡◌, min};
ghost use Rattle.std.specs.Option.{option_copied};
ghost use Rattle.sql_values.specs.Values.{UnlessNoMemory};
ghost use Rattle.sql_values.specs.Texts.{concatenation_of, joined as joined_by, length_of, natural};
ghost use Rattle.sql_values.specs.Texts.{part_of, rest_of, substring_of};

use crate::{MOST_TEXT, Text, Value, ValueFault};
use std::alloc::Global;

// One text after another, where a text may have so many characters.
fn joined(alloc: Global, s: &Text, t: &Text) -> Result<Value, ValueFault>
    ensures { UnlessNoMemory result (result ≡ joined_by s.now t.now) }
{
    if s.len() + t.len() > MOST_TEXT {
        return Err(ValueFault::TooLong);
    }
    Ok(Value::Str(s.joined(alloc, t)?))
}

/// One text after another. `TooLong` comes exactly where it has more than `MOST_TEXT` characters.
pub fn concat(alloc: Global, a: &Value, b: &Value) -> Result<Value, ValueFault>
    ensures { UnlessNoMemory result (result ≡ concatenation_of a.now b.now) }
{
    match (a, b) {
        (Value::Str(s), Value::Str(t)) => joined(alloc, s, t),
        _ => Ok(Value::Null),
    }
}

/// The number of characters.
pub fn char_length(v: &Value) -> Value
    ensures { result ≡ length_of v.now }
{
    match v {
        Value::Str(text) => Value::Int(text.len() as i64),
        _ => Value::Null,
    }
}

// A place as a natural number; one below 0 is 0, one above the most is the most.
fn place_within(place: i128, most: usize) -> usize
    ensures { result ≡ min most (natural place) }
{
    if place <= 0 {
        0
    } else if place > most as i128 {
        most
    } else {
        place as usize
    }
}

// The characters from a place on, up to before the place that lies the length further.
fn part(alloc: Global, text: &Text, from: i64, length: i64) -> Result<Value, ValueFault>
    ensures { UnlessNoMemory result (result ≡ part_of text.now from length) }
{
    if length < 0 {
        return Err(ValueFault::BadSubstring);
    }
    let after = text.len() + 1;
    let first = place_within(from as i128, after).max(1);
    let end = place_within(from as i128 + length as i128, after);
    Ok(Value::Str(text.part(alloc, first - 1, end.saturating_sub(first))?))
}

// The characters from a place on.
fn rest(alloc: Global, text: &Text, from: i64) -> Result<Value, ValueFault>
    ensures { UnlessNoMemory result (result ≡ rest_of text.now from) }
{
    let length = text.len();
    let first = place_within(from as i128, length + 1).max(1);
    Ok(Value::Str(text.part(alloc, first - 1, length)?))
}

/// The characters from a place on, counted from 1: up to before the place that lies the length
/// further, or up to the text's end. Places before the text and after it have no character.
/// `BadSubstring` comes exactly where the length is below 0 and no operand is NULL.
pub fn substring(
    alloc: Global,
    text: &Value,
    from: &Value,
    length: Option<&Value>,
) -> Result<Value, ValueFault>
    ensures { UnlessNoMemory result (result ≡ substring_of text.now from.now
        (option_copied length.entry)) }
{
    match (text, from, length) {
        (Value::Str(text), Value::Int(from), None) => rest(alloc, text, *from),
        (Value::Str(text), Value::Int(from), Some(Value::Int(length))) => part(
            alloc, text, *from, *length,
        ),
        _ => Ok(Value::Null),
    }
}
