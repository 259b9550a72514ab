//! What texts spell: numbers and truth values (ISO/IEC 9075-2, 5.3 and 6.13).

ghost use Rattle.std.specs.Prelude.{◌≡◌, reverse, IsAscii};
ghost use Rattle.std.specs.List.{prefix_len};
ghost use Rattle.sql_values.specs.Spellings.{are_digits as are_digits_by, integer_in, is_space};
ghost use Rattle.sql_values.specs.Spellings.{trimmed as trimmed_by, truth_in};
ghost use Rattle.sql_values.specs.Spellings.{without_sign as without_sign_by};
ghost use Rattle.sql_values.specs.Casts.{integer_or_fault, truth_or_fault};

use crate::{Text, Value, ValueFault};

// How many spaces stand at the head.
fn leading_spaces(bytes: &[u8]) -> usize
    ensures { result ≡ prefix_len is_space bytes.now }
{
    bytes.iter().take_while(|b| **b == b' ').count()
}

// How many spaces stand at the end.
fn trailing_spaces(bytes: &[u8]) -> usize
    ensures { result ≡ prefix_len is_space (reverse bytes.now) }
{
    bytes.iter().rev().take_while(|b| **b == b' ').count()
}

// The text without the spaces at both ends.
fn trimmed(text: &str) -> &str
    requires { IsAscii text.now }
    ensures { result.now ≡ trimmed_by text.now }
{
    let rest = &text[leading_spaces(text.as_bytes())..];
    &rest[..rest.len() - trailing_spaces(rest.as_bytes())]
}

// The bytes without a sign at their head.
fn without_sign(bytes: &[u8]) -> &[u8]
    ensures { result.now ≡ without_sign_by bytes.now }
{
    match bytes.first() {
        Some(b'+') => &bytes[1..],
        Some(b'-') => &bytes[1..],
        _ => bytes,
    }
}

// Whether they are one digit or more.
fn are_digits(bytes: &[u8]) -> bool
    ensures { result ≡ are_digits_by bytes.now }
{
    !bytes.is_empty() && bytes.iter().all(|b| b.is_ascii_digit())
}

// The number that a text without spaces at its ends spells.
fn number_in(word: &str) -> Result<Value, ValueFault>
    ensures { result ≡ integer_or_fault (integer_in word.now) }
{
    if !are_digits(without_sign(word.as_bytes())) {
        return Err(ValueFault::BadCast);
    }
    match word.parse::<i64>() {
        Ok(number) => Ok(Value::Int(number)),
        Err(_) => Err(ValueFault::OutOfRange),
    }
}

/// The INTEGER that a text spells. `BadCast` comes exactly where it spells no number, `OutOfRange`
/// where the number is no INTEGER.
pub(crate) fn spelled_integer(text: &Text) -> Result<Value, ValueFault>
    ensures { result ≡ integer_or_fault (integer_in (trimmed_by text.now)) }
{
    let text = text.as_str();
    if text.is_ascii() {
        number_in(trimmed(text))
    } else {
        Err(ValueFault::BadCast)
    }
}

// The truth value that a text without spaces at its ends spells.
fn word_in(word: &str) -> Result<Value, ValueFault>
    ensures { result ≡ truth_or_fault (truth_in word.now) }
{
    if word.eq_ignore_ascii_case("TRUE") {
        Ok(Value::Bool(true))
    } else if word.eq_ignore_ascii_case("FALSE") {
        Ok(Value::Bool(false))
    } else if word.eq_ignore_ascii_case("UNKNOWN") {
        Ok(Value::Null)
    } else {
        Err(ValueFault::BadCast)
    }
}

/// The truth value that a text spells. `BadCast` comes exactly where it spells none.
pub(crate) fn spelled_truth(text: &Text) -> Result<Value, ValueFault>
    ensures { result ≡ truth_or_fault (truth_in (trimmed_by text.now)) }
{
    let text = text.as_str();
    if text.is_ascii() {
        word_in(trimmed(text))
    } else {
        Err(ValueFault::BadCast)
    }
}
