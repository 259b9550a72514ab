//! The text of a dump: tables one after the other, each with its name, the number of its rows, and
//! a record for each of them. Which tables there are, and where their rows lie, is not known here.

ghost use Rattle.std.specs.Prelude.{◌≡◌, [], ◌++◌, IfOk, OnOk};
ghost use Rattle.reply_text.specs.Texts.{record_text, table_line};

use crate::Reply;
use crate::bytes::{put, put_count};
use crate::record::{record_writer, record_writer_after, write_record, written_text};
use csv::Writer;
use row_types::Row;
use sql_values::{Name, NoMemory};
use std::alloc::Global;
use std::marker::Model;
use std::mem::replace;

/// A dump, as far as it is made. Contracts see its text. Where a call lacks memory, the text is lost.
#[derive(Drop)]
pub struct Dump {
    alloc: Global,
    writer: Writer<Vec<u8>>,
}

impl Model for Dump {
    ghost use Rattle.std.specs.Prelude.{List, ℕ};
    ghost use Rattle.reply_text.specs.Writers.{written, IsBetween};

    ghost Value = { List ℕ };

    ghost view = { λ d. written d.writer };

    ghost invariant = { λ d. IsBetween d.writer };
}

// Writes the line of a table: its name, and how many rows it has.
fn put_table(text: &mut Vec<u8>, name: &Name, rows: usize) -> Result<(), NoMemory>
    ensures { OnOk result (text.new.items ≡ text.old.items ++ table_line name.now rows) }
{
    put(text, b"table ")?;
    put(text, name.as_bytes())?;
    put(text, b" rows ")?;
    put_count(text, rows as u64)?;
    put(text, b"\n")
}

impl Dump {
    /// A dump of no table.
    pub fn new(alloc: Global) -> Dump
        ensures { result ≡ [] }
    {
        Dump {
            alloc,
            writer: record_writer(alloc),
        }
    }

    /// One more table of so many rows, which come next.
    pub fn add_table(&mut self, name: &Name, rows: usize) -> Result<(), NoMemory>
        ensures { OnOk result (self.new ≡ self.old ++ table_line name.now rows) }
    {
        let before = replace(&mut self.writer, record_writer(self.alloc));
        let mut text = written_text(before)?;
        put_table(&mut text, name, rows)?;
        self.writer = record_writer_after(text);
        Ok(())
    }

    /// One more row of the last table.
    pub fn add_row(&mut self, row: &Row) -> Result<(), NoMemory>
        ensures { OnOk result (self.new ≡ self.old ++ record_text row.now) }
    {
        match write_record(&mut self.writer, self.alloc, row.as_slice()) {
            Ok(()) => Ok(()),
            Err(_) => {
                self.writer = record_writer(self.alloc);
                Err(NoMemory)
            }
        }
    }

    /// The dump as it is written out.
    pub fn into_reply(self) -> Result<Reply, NoMemory>
        ensures { IfOk result (λ r. r ≡ self) }
    {
        let Dump { alloc: _, writer } = self;
        Ok(Reply::of_bytes(written_text(writer)?))
    }
}
