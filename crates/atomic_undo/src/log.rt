//! The log of changes.

ghost use Rattle.std.specs.Prelude.{◌≡◌, ◌<◌, ◌≤◌, ◌+◌, [], ◌∷◌, ◌++◌, length, OnOk, IsTrue, ◌↔◌};

use row_types::Row;
use sql_values::NoMemory;
use sqlite_items::Items;
use std::alloc::Global;
use std::marker::Model;
use table_store::PlacedRow;

/// One change of a table's rows, as it is taken back. What changes many rows in one pass is one.
#[derive(Drop)]
pub enum Edit {
    /// A row went in at this place.
    Inserted(usize),
    /// Rows went in after the others, from this place on.
    Appended(usize),
    /// Rows went in that stand at these places, which increase.
    InsertedAll(Items<usize>),
    /// The row at this place went out.
    Removed(usize, Row),
    /// These rows went out of their places, which increase.
    RemovedAll(Items<PlacedRow>),
    /// The row at this place was replaced.
    Replaced(usize, Row),
}

/// The changes of one statement, the oldest first, and the place of its table.
#[derive(Drop)]
pub struct Entry {
    pub table: usize,
    pub edits: Items<Edit>,
}

/// A place in a log.
#[derive(Clone, Copy)]
pub struct Mark {
    count: usize,
}

impl Model for Mark {
    ghost use Rattle.std.specs.Prelude.{ℕ};

    ghost Value = { ℕ };

    ghost view = { λ m. m.count };

    ghost inverse = { λ n. record { count = n } };
}

/// All changes since it was made, the oldest first; and the number of entries that there is memory
/// for.
#[derive(Drop)]
pub struct Log {
    list: Vec<Entry>,
}

impl Model for Log {
    ghost use Rattle.std.specs.Prelude.{vec_capacity};
    ghost use Rattle.atomic_undo.specs.Book.{Book};

    ghost Value = { Book };

    ghost view = { λ l. record { entries = l.list.items; capacity = vec_capacity l.list } };
}

impl Log {
    /// A log of no changes.
    pub fn new(alloc: Global) -> Log
        ensures { result.entries ≡ [] }
    {
        Log {
            list: Vec::new(alloc),
        }
    }

    /// The place where the log ends.
    pub fn mark(&self) -> Mark
        ensures { result ≡ length self.now.entries }
    {
        Mark {
            count: self.list.len(),
        }
    }

    /// What the log takes its memory from.
    pub fn allocator(&self) -> Global {
        *self.list.allocator()
    }

    /// Whether there are entries after a mark.
    pub fn goes_past(&self, mark: Mark) -> bool
        ensures { IsTrue result ↔ (mark < length self.now.entries) }
    {
        mark.count < self.list.len()
    }

    /// Memory for one more entry.
    pub fn reserve_one(&mut self) -> Result<(), NoMemory>
        ensures entries { self.new.entries ≡ self.old.entries }
        ensures room { OnOk result (length self.new.entries < self.new.capacity) }
    {
        self.list.reserve(1)?;
        Ok(())
    }

    /// One more entry, for which there is memory.
    pub fn push(&mut self, entry: Entry)
        requires { length self.old.entries < self.old.capacity }
        ensures { self.new.entries ≡ self.old.entries ++ entry ∷ [] }
    {
        self.list.push_reserved(entry);
    }

    /// The last entry.
    pub fn pop(&mut self) -> Entry
        requires { 0 < length self.old.entries }
        ensures { self.old.entries ≡ self.new.entries ++ result ∷ [] }
    {
        match self.list.pop() {
            Some(entry) => entry,
            None => unreachable!(),
        }
    }
}
