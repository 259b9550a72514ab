//! Records, written as csv writes them.

ghost use Rattle.std.specs.Prelude.{◌≡◌, ◌<◌, ◌+◌, ◌^◌, ℕ, List, [], ◌∷◌, ◌++◌, length, IfOk, OnOk};
ghost use Rattle.csv.specs.Writing.{row_text};
ghost use Rattle.reply_text.specs.Texts.{doubled, quoted as quoted_by, value_text, record_text};
ghost use Rattle.reply_text.specs.Texts.{record_writer as record_writer_by};
ghost use Rattle.reply_text.specs.Writers.{written, IsBetween, IsWithin};

use csv::{Writer, WriterBuilder};
use itoa::Buffer;
use sql_values::{NoMemory, Text, Value};
use std::alloc::Global;

/// Writes bytes after the text, each quote mark twice.
pub fn put_doubled(text: &mut Vec<u8>, bytes: &[u8]) -> Result<(), NoMemory>
    ensures { OnOk result (text.new.items ≡ text.old.items ++ doubled bytes.now) }
{
    for byte in bytes {
        if *byte == b'\'' {
            text.push(*byte)?;
        }
        text.push(*byte)?;
    }
    Ok(())
}

// A text in quote marks.
fn quoted(alloc: Global, text: &Text) -> Result<Vec<u8>, NoMemory>
    ensures { IfOk result (λ q. q.items ≡ quoted_by text.now) }
{
    let bytes = text.as_str().as_bytes();
    let mut field = Vec::with_capacity(alloc, bytes.len().saturating_add(2))?;
    field.push(b'\'')?;
    put_doubled(&mut field, bytes)?;
    field.push(b'\'')?;
    Ok(field)
}

// Writes one more field of a record.
fn write_field(writer: &mut Writer<Vec<u8>>, field: &[u8]) -> Result<(), NoMemory>
    ensures { (before : List ℕ) (fields : List (List ℕ)) → IsWithin writer.old before fields →
        length fields + 1 < 2 ^ 64 → OnOk result
        (IsWithin writer.new before (fields ++ field.now ∷ [])) }
{
    match writer.write_field(field) {
        Ok(()) => Ok(()),
        Err(_) => Err(NoMemory),
    }
}

// Writes one more value of a record.
fn write_value(writer: &mut Writer<Vec<u8>>, alloc: Global, value: &Value) -> Result<(), NoMemory>
    ensures { (before : List ℕ) (fields : List (List ℕ)) → IsWithin writer.old before fields →
        length fields + 1 < 2 ^ 64 → OnOk result
        (IsWithin writer.new before (fields ++ value_text value.now ∷ [])) }
{
    match value {
        Value::Null => write_field(writer, b"NULL"),
        Value::Int(number) => {
            let mut buffer = Buffer::new();
            write_field(writer, buffer.format(*number).as_bytes())
        }
        Value::Str(text) => write_field(writer, quoted(alloc, text)?.as_slice()),
        Value::Bool(true) => write_field(writer, b"TRUE"),
        Value::Bool(false) => write_field(writer, b"FALSE"),
    }
}

// Ends a record.
fn end_record(writer: &mut Writer<Vec<u8>>) -> Result<(), NoMemory>
    ensures between { (before : List ℕ) (fields : List (List ℕ)) →
        IsWithin writer.old before fields → OnOk result (IsBetween writer.new) }
    ensures text { (before : List ℕ) (fields : List (List ℕ)) → IsWithin writer.old before fields →
        OnOk result (written writer.new ≡ before ++ row_text record_writer_by fields) }
{
    match writer.end_record() {
        Ok(()) => Ok(()),
        Err(_) => Err(NoMemory),
    }
}

/// A writer of the records of a reply, which has written none.
pub(crate) fn record_writer(alloc: Global) -> Writer<Vec<u8>>
    ensures between { IsBetween result }
    ensures text { written result ≡ [] }
{
    record_writer_after(Vec::new(alloc))
}

/// A writer of records that come after a text.
pub(crate) fn record_writer_after(text: Vec<u8>) -> Writer<Vec<u8>>
    ensures between { IsBetween result }
    ensures text { written result ≡ text.items }
{
    WriterBuilder::new().flexible(true).from_writer(text)
}

/// Writes the record of these values.
pub(crate) fn write_record(
    writer: &mut Writer<Vec<u8>>,
    alloc: Global,
    values: &[Value],
) -> Result<(), NoMemory>
    requires { IsBetween writer.old }
    ensures between { OnOk result (IsBetween writer.new) }
    ensures text { OnOk result (written writer.new ≡ written writer.old ++ record_text values.now) }
{
    for value in values {
        write_value(writer, alloc, value)?;
    }
    end_record(writer)
}

/// What a writer has written.
pub(crate) fn written_text(writer: Writer<Vec<u8>>) -> Result<Vec<u8>, NoMemory>
    ensures { IfOk result (λ text. text.items ≡ written writer) }
{
    match writer.into_inner() {
        Ok(text) => Ok(text),
        Err(_) => Err(NoMemory),
    }
}
