//! Replies, and those of statements that raise nothing.

ghost use Rattle.std.specs.Prelude.{◌≡◌, ◌≤◌, ◌+◌, [], ◌++◌, length, IfOk, OnOk};
ghost use Rattle.std.specs.List.{flat_map};
ghost use Rattle.row_types.specs.Cells.{row_end, with_values, value_rows};
ghost use Rattle.reply_text.specs.Writers.{written, IsBetween};
ghost use Rattle.reply_text.specs.Texts.{record_text, count_text, rows_text, values_text, end_text};
ghost use Rattle.reply_text.specs.Texts.{done_text};

use crate::bytes::{put, put_count};
use crate::record::{record_writer, write_record, written_text};
use csv::Writer;
use row_types::{PlanRow, Row, RowEnd, RowList, Steps};
use sql_values::{NoMemory, Value};
use std::alloc::Global;
use std::marker::Model;
use std::sync::ledger::Ledger;

/// What a statement replies. Contracts see its bytes.
#[derive(Debug, Drop)]
pub struct Reply {
    text: Vec<u8>,
}

impl Model for Reply {
    ghost use Rattle.std.specs.Prelude.{List, ℕ};

    ghost Value = { List ℕ };

    ghost view = { λ r. r.text.items };
}

impl Reply {
    /// A reply of these bytes, for a statement whose text is written elsewhere.
    pub fn of_bytes(text: Vec<u8>) -> Reply
        ensures { result ≡ text.items }
    {
        Reply { text }
    }

    /// The bytes.
    pub fn as_bytes(&self) -> &[u8]
        ensures { result.now ≡ self.now }
    {
        self.text.as_slice()
    }
}

// Writes the line with the number of rows.
fn put_total(text: &mut Vec<u8>, count: u64) -> Result<(), NoMemory>
    ensures { OnOk result (text.new.items ≡ text.old.items ++ count_text count) }
{
    if count == 0 {
        return put(text, b"02000 rows 0\n");
    }
    put(text, b"00000 rows ")?;
    put_count(text, count)?;
    put(text, b"\n")
}

// Writes the record of a row that has values.
fn write_row(writer: &mut Writer<Vec<u8>>, alloc: Global, row: PlanRow) -> Result<(), NoMemory>
    requires { IsBetween writer.old }
    ensures between { OnOk result (IsBetween writer.new) }
    ensures text { OnOk result (written writer.new ≡ written writer.old ++ flat_map record_text
        (with_values (row_end row) [])) }
{
    match row.into_end(alloc)? {
        RowEnd::Values(values) => write_record(writer, alloc, values.as_slice()),
        RowEnd::Raised(_) => Ok(()),
    }
}

// The text of a record for each row.
fn records_text<L: Ledger>(
    alloc: Global,
    rows: RowList,
    steps: &mut Steps<L>,
) -> Result<Vec<u8>, NoMemory>
    ensures text { IfOk result (λ text. text.items ≡ flat_map record_text (value_rows rows)) }
    ensures steps { steps.new ≤ steps.old + length rows }
{
    let mut rows = rows;
    let mut writer = record_writer(alloc);
    while rows.len() > 0 {
        if let Some(row) = rows.take_first(steps) {
            write_row(&mut writer, alloc, row)?;
        }
    }
    written_text(writer)
}

/// The reply of a query whose rows all have values: a record for each of them, and how many there
/// are. Each row is read in a step.
pub fn rows_reply<L: Ledger>(
    alloc: Global,
    rows: RowList,
    steps: &mut Steps<L>,
) -> Result<Reply, NoMemory>
    requires { length (value_rows rows) ≡ length rows }
    ensures reply { IfOk result (λ r. r ≡ rows_text (value_rows rows)) }
    ensures steps { steps.new ≤ steps.old + length rows }
{
    let total = rows.len() as u64;
    let mut text = records_text(alloc, rows, steps)?;
    put_total(&mut text, total)?;
    Ok(Reply::of_bytes(text))
}

// The text of a record for each row of values.
fn value_records(alloc: Global, rows: &[Row]) -> Result<Vec<u8>, NoMemory>
    ensures { IfOk result (λ text. text.items ≡ flat_map record_text rows.now) }
{
    let mut writer = record_writer(alloc);
    for row in rows {
        write_record(&mut writer, alloc, row.as_slice())?;
    }
    written_text(writer)
}

/// The reply of a query whose rows are rows of values: a record for each of them, and how many
/// there are.
pub fn records_reply(alloc: Global, rows: &[Row]) -> Result<Reply, NoMemory>
    ensures { IfOk result (λ r. r ≡ rows_text rows.now) }
{
    let mut text = value_records(alloc, rows)?;
    put_total(&mut text, rows.len() as u64)?;
    Ok(Reply::of_bytes(text))
}

// The record of the values that a statement hands out, where there are any.
fn handed_out(alloc: Global, values: &[Value]) -> Result<Vec<u8>, NoMemory>
    ensures { IfOk result (λ text. text.items ≡ values_text values.now) }
{
    if values.is_empty() {
        return Ok(Vec::new(alloc));
    }
    let mut writer = record_writer(alloc);
    write_record(&mut writer, alloc, values)?;
    written_text(writer)
}

// Writes the last line.
fn put_end(text: &mut Vec<u8>, rows: Option<u64>) -> Result<(), NoMemory>
    ensures { OnOk result (text.new.items ≡ text.old.items ++ end_text rows) }
{
    match rows {
        None => put(text, b"00000\n"),
        Some(count) => put_total(text, count),
    }
}

/// The reply of a statement that isn't a query: the values that it hands out, if any, and `00000`,
/// with the number of its rows where it has one.
pub fn done_reply(alloc: Global, values: &[Value], rows: Option<u64>) -> Result<Reply, NoMemory>
    ensures { IfOk result (λ r. r ≡ done_text values.now rows) }
{
    let mut text = handed_out(alloc, values)?;
    put_end(&mut text, rows)?;
    Ok(Reply::of_bytes(text))
}
