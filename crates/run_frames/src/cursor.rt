//! Cursors.

ghost use Rattle.std.specs.Prelude.{◌≡◌, IfOk};
ghost use Rattle.rel_algebra.specs.World.{Closed, Opened};
ghost use Rattle.run_frames.specs.Cursors.{is_opened, fetched_of, left_of};

use crate::copies::turned;
use row_types::Row;
use sql_values::NoMemory;
use sqlite_items::Items;
use std::alloc::Global;
use std::marker::Model;

// Where the rows lie.
#[derive(Drop)]
enum Form {
    Closed,
    // The rows that are left, the next one last.
    Opened(Vec<Row>),
}

/// A cursor (ISO/IEC 9075-2, 4.38): closed, or the rows that are left. Moving on takes the same
/// time however many these are.
#[derive(Drop)]
pub struct Cursor {
    form: Form,
}

impl Model for Cursor {
    ghost use Rattle.rel_algebra.specs.World.{Cursor as Plain};
    ghost use Rattle.run_frames.specs.Cursors.{cursor_in_form};

    ghost Value = { Plain };

    ghost view = { λ c. cursor_in_form c.form };
}

/// What FETCH finds.
#[derive(Drop)]
pub enum Fetched {
    /// The cursor is closed.
    Closed,
    /// No row is left.
    NoRow,
    /// The next row.
    Row(Row),
}

impl Cursor {
    /// A closed cursor.
    pub fn closed() -> Cursor
        ensures { result ≡ Closed }
    {
        Cursor { form: Form::Closed }
    }

    /// A cursor with these rows.
    pub fn opened(alloc: Global, rows: Items<Row>) -> Result<Cursor, NoMemory>
        ensures { IfOk result (λ c. c ≡ Opened rows) }
    {
        Ok(Cursor {
            form: Form::Opened(turned(alloc, rows)?),
        })
    }

    /// Whether it is open.
    pub fn is_open(&self) -> bool
        ensures { result ≡ is_opened self.now }
    {
        match &self.form {
            Form::Closed => false,
            Form::Opened(_) => true,
        }
    }

    /// Moves on, and hands out the row that was next.
    pub fn advance(&mut self) -> Fetched
        ensures row { result ≡ fetched_of self.old }
        ensures left { self.new ≡ left_of self.old }
    {
        match &mut self.form {
            Form::Closed => Fetched::Closed,
            Form::Opened(rows) => match rows.pop() {
                Some(row) => Fetched::Row(row),
                None => Fetched::NoRow,
            },
        }
    }
}
