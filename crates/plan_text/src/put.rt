//! Commas, columns, arguments and values, written after a text.

ghost use Rattle.std.specs.Prelude.{◌≡◌, ◌++◌, OnOk};
ghost use Rattle.std.specs.Fmt.{signed_decimal};
ghost use Rattle.reply_text.specs.Texts.{value_text};
ghost use Rattle.plan_text.specs.ScalarText.{place_text, column_text, argument_text};
ghost use Rattle.plan_text.specs.Parts.{mark_text};

use itoa::Buffer;
use reply_text::{put, put_count, put_doubled};
use sql_values::{NoMemory, Value};

/// Writes a comma, except before the first of a list.
pub(crate) fn put_mark(text: &mut Vec<u8>, first: bool) -> Result<(), NoMemory>
    ensures { OnOk result (text.new.items ≡ text.old.items ++ mark_text first) }
{
    if first {
        return Ok(());
    }
    put(text, b", ")
}

/// Writes a column of the row itself.
pub(crate) fn put_place(text: &mut Vec<u8>, place: usize) -> Result<(), NoMemory>
    ensures { OnOk result (text.new.items ≡ text.old.items ++ place_text place) }
{
    put(text, b"#")?;
    put_count(text, place as u64)
}

/// Writes a column of the row itself, or of one outside it.
pub(crate) fn put_column(text: &mut Vec<u8>, level: usize, place: usize) -> Result<(), NoMemory>
    ensures { OnOk result (text.new.items ≡ text.old.items ++ column_text level place) }
{
    if level == 0 {
        return put_place(text, place);
    }
    put(text, b"^")?;
    put_count(text, level as u64)?;
    put(text, b".")?;
    put_count(text, place as u64)
}

/// Writes an argument.
pub(crate) fn put_argument(text: &mut Vec<u8>, place: usize) -> Result<(), NoMemory>
    ensures { OnOk result (text.new.items ≡ text.old.items ++ argument_text place) }
{
    put(text, b"$")?;
    put_count(text, place as u64)
}

// Writes a whole number.
fn put_integer(text: &mut Vec<u8>, number: i64) -> Result<(), NoMemory>
    ensures { OnOk result (text.new.items ≡ text.old.items ++ signed_decimal number) }
{
    let mut buffer = Buffer::new();
    put(text, buffer.format(number).as_bytes())
}

/// Writes a value.
pub(crate) fn put_value(text: &mut Vec<u8>, value: &Value) -> Result<(), NoMemory>
    ensures { OnOk result (text.new.items ≡ text.old.items ++ value_text value.now) }
{
    match value {
        Value::Null => put(text, b"NULL"),
        Value::Int(number) => put_integer(text, *number),
        Value::Str(characters) => {
            put(text, b"'")?;
            put_doubled(text, characters.as_str().as_bytes())?;
            put(text, b"'")
        }
        Value::Bool(true) => put(text, b"TRUE"),
        Value::Bool(false) => put(text, b"FALSE"),
    }
}
