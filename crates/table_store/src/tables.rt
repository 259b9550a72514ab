//! All tables, by their names.

ghost use Rattle.std.specs.Prelude.{◌≡◌, ◌<◌, ◌≤◌, ◌+◌, [], ◌++◌, length, take, slice_index};
ghost use Rattle.std.specs.Prelude.{slice_index_or, slice_set, OnOk, OnErr, IfOk, None};
ghost use Rattle.std.specs.Option.{option_copied, option_map};
ghost use Rattle.std.specs.List.{insert, remove};
ghost use Rattle.row_types.specs.Tables.{table_at, table_named, with_rows_at, without_table_named};
ghost use Rattle.row_types.specs.Tables.{place_named, HaveDistinctNames};
ghost use Rattle.table_store.specs.Kept.{CanInsert, CanAppend, CanInsertAll, CanReplace};
ghost use Rattle.table_store.specs.Places.{Climb, removed_all, all_placed_at, inserted_all};
ghost use Rattle.table_store.specs.Memory.{with_one_more, without_place, kept_at, table_of, NoLess};
ghost use Rattle.table_store.specs.Memory.{AllWellKept};

use crate::placed_row::PlacedRow;
use crate::table::Table;
use indexmap::IndexMap;
use row_types::Row;
use sql_values::{Name, NoMemory};
use sqlite_items::Items;
use std::alloc::Global;
use std::marker::Model;

/// A finite map of names to tables, in the order of their making; and the number of rows that each
/// has memory for. A name is found in the same time however many tables there are.
#[derive(Drop)]
pub struct Tables {
    entries: IndexMap<Name, Table>,
}

impl Model for Tables {
    ghost use Rattle.table_store.specs.Memory.{Memory, memory_of, AllWellKept};

    ghost Value = { Memory };

    ghost view = { λ t. memory_of t.entries.entries };

    ghost invariant = { λ t. AllWellKept (memory_of t.entries.entries).tables };
}

impl Tables {
    /// No tables.
    pub fn new(alloc: Global) -> Tables
        ensures { result ≡ record { tables = []; capacities = [] } }
    {
        Tables {
            entries: IndexMap::new(alloc),
        }
    }

    /// The number of tables.
    pub fn len(&self) -> usize
        ensures value { result ≡ length self.now.tables }
        ensures names { HaveDistinctNames self.now.tables }
        ensures rows { AllWellKept self.now.tables }
    {
        self.entries.len()
    }

    /// Where a name stands; `None` exactly where no table has it.
    pub fn place_of(&self, name: &Name) -> Option<usize>
        ensures place { result ≡ place_named name.now self.now.tables }
        ensures names { HaveDistinctNames self.now.tables }
    {
        self.entries.get_index_of(name)
    }

    /// The table of a name; `None` exactly where none has it.
    pub fn table(&self, name: &Name) -> Option<&Table>
        ensures kept { option_copied result ≡ option_map (kept_at self.now)
            (place_named name.now self.now.tables) }
        ensures table { option_map table_of (option_copied result) ≡
            table_named name.now self.now.tables }
    {
        self.entries.get(name)
    }

    /// A table more of a free name, after the others. Without memory nothing changes.
    pub fn add_table(&mut self, name: Name, table: Table) -> Result<(), NoMemory>
        requires { table_named name self.old.tables ≡ None }
        ensures ok { OnOk result (self.new ≡ with_one_more self.old name table) }
        ensures unchanged { OnErr result (self.new ≡ self.old) }
    {
        let _rows = table.len();
        self.entries.insert(name, table)?;
        Ok(())
    }

    /// The table of a name goes; the others stay in their order.
    pub fn drop_table(&mut self, name: &Name)
        ensures memory { self.new ≡ without_place (place_named name.now self.old.tables) self.old }
        ensures tables { self.new.tables ≡ without_table_named name.now self.old.tables }
    {
        let Some(at) = self.entries.get_index_of(name) else {
            return;
        };
        let _table = self.entries.shift_remove_index(at);
    }

    /// The table at a place.
    pub fn table_at(&self, t: usize) -> &Table
        requires { t < length self.now.tables }
        ensures { result.now ≡ kept_at self.now t }
    {
        &self.entries[t]
    }

    /// Puts a row into the table at a place, where it keeps the key order. There is memory for it.
    pub fn insert_at(&mut self, t: usize, at: usize, row: Row)
        requires there { t < length self.old.tables }
        requires can { CanInsert (kept_at self.old t) at row }
        ensures tables { self.new.tables ≡ with_rows_at t
            (insert (table_at self.old.tables t).rows at row) self.old.tables }
        ensures capacities { NoLess self.old.capacities self.new.capacities }
    {
        self.entries[t].insert_at(at, row);
    }

    /// Puts rows after those of the table at a place, with which they stand in key order. There is
    /// memory for them.
    pub fn append(&mut self, t: usize, more: Vec<Row>)
        requires there { t < length self.old.tables }
        requires can { CanAppend (kept_at self.old t) more.items }
        ensures tables { self.new.tables ≡ with_rows_at t
            ((table_at self.old.tables t).rows ++ more.items) self.old.tables }
        ensures capacities { NoLess self.old.capacities self.new.capacities }
    {
        self.entries[t].append(more);
    }

    /// Puts rows into the table at a place, at places that increase and are theirs afterwards, in
    /// one pass over its rows. There is memory for them.
    pub fn insert_all(&mut self, t: usize, new: Items<PlacedRow>)
        requires there { t < length self.old.tables }
        requires can { CanInsertAll (kept_at self.old t) new }
        ensures tables { self.new.tables ≡ with_rows_at t
            (inserted_all new (table_at self.old.tables t).rows) self.old.tables }
        ensures capacities { NoLess self.old.capacities self.new.capacities }
    {
        self.entries[t].insert_all(new);
    }

    /// Takes a row out of the table at a place and hands it back; its memory is kept.
    pub fn remove_at(&mut self, t: usize, at: usize) -> Row
        requires there { t < length self.old.tables }
        requires place { at < length (table_at self.old.tables t).rows }
        ensures row { result ≡ slice_index_or (table_at self.old.tables t).rows at result }
        ensures tables { self.new.tables ≡ with_rows_at t
            (remove (table_at self.old.tables t).rows at) self.old.tables }
        ensures capacities { NoLess self.old.capacities self.new.capacities }
    {
        self.entries[t].remove_at(at)
    }

    /// Takes the rows at places, which increase, out of the table at a place in one pass over its
    /// rows, and hands them back with their places; their memory is kept. Memory is taken for what
    /// is handed back alone, and without it the tables stay.
    pub fn remove_all(&mut self, t: usize, places: &[usize]) -> Result<Vec<PlacedRow>, NoMemory>
        requires there { t < length self.old.tables }
        requires places { Climb 0 places.now (length (table_at self.old.tables t).rows) }
        ensures taken { IfOk result (λ v. v.items ≡ all_placed_at places.now
            (table_at self.old.tables t).rows) }
        ensures tables { OnOk result (self.new.tables ≡ with_rows_at t
            (removed_all places.now (table_at self.old.tables t).rows) self.old.tables) }
        ensures unchanged { OnErr result (self.new.tables ≡ self.old.tables) }
        ensures capacities { NoLess self.old.capacities self.new.capacities }
    {
        self.entries[t].remove_all(places)
    }

    /// Takes the rows at places, which increase, out of the table at a place in one pass over its
    /// rows; their memory is kept. It takes no memory.
    pub fn drop_all(&mut self, t: usize, places: &[usize])
        requires there { t < length self.old.tables }
        requires places { Climb 0 places.now (length (table_at self.old.tables t).rows) }
        ensures tables { self.new.tables ≡ with_rows_at t
            (removed_all places.now (table_at self.old.tables t).rows) self.old.tables }
        ensures capacities { NoLess self.old.capacities self.new.capacities }
    {
        self.entries[t].drop_all(places);
    }

    /// Takes all rows from a place on out of the table at a place; their memory is kept.
    pub fn truncate(&mut self, t: usize, at: usize)
        requires { t < length self.old.tables }
        ensures tables { self.new.tables ≡ with_rows_at t
            (take at (table_at self.old.tables t).rows) self.old.tables }
        ensures capacities { NoLess self.old.capacities self.new.capacities }
    {
        self.entries[t].truncate(at);
    }

    /// Puts a row in the place of another in the table at a place, and hands that back.
    pub fn replace_at(&mut self, t: usize, at: usize, row: Row) -> Row
        requires there { t < length self.old.tables }
        requires can { CanReplace (kept_at self.old t) at row }
        ensures row { result ≡ slice_index_or (table_at self.old.tables t).rows at result }
        ensures tables { self.new.tables ≡ with_rows_at t
            (slice_set (table_at self.old.tables t).rows at row) self.old.tables }
        ensures capacities { NoLess self.old.capacities self.new.capacities }
    {
        self.entries[t].replace_at(at, row)
    }

    /// Memory for more rows in the table at a place. Without it the tables stay.
    pub fn reserve(&mut self, t: usize, n: usize) -> Result<(), NoMemory>
        requires { t < length self.old.tables }
        ensures tables { self.new.tables ≡ self.old.tables }
        ensures room { OnOk result (length (table_at self.new.tables t).rows + n ≤
            slice_index self.new.capacities t) }
        ensures capacities { NoLess self.old.capacities self.new.capacities }
    {
        self.entries[t].reserve(n)
    }
}
