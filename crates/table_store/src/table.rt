//! One table.

ghost use Rattle.std.specs.Prelude.{◌≡◌, ◌<◌, ◌≤◌, ◌+◌, ◌-◌, ◌^◌, [], ◌++◌, length, take};
ghost use Rattle.std.specs.Prelude.{slice_index_or, slice_set, OnOk, OnErr, IfOk, IsTrue};
ghost use Rattle.std.specs.List.{insert, remove};
ghost use Rattle.std.specs.Ordering.{is_eq};
ghost use Rattle.row_types.specs.Ordered.{searched};
ghost use Rattle.row_types.specs.Rows.{by_key, to_key, has_key_columns};
ghost use Rattle.row_types.specs.Tables.{with_rows};
ghost use Rattle.table_store.specs.Kept.{IsKept, CanInsert, CanAppend, CanInsertAll, CanReplace};
ghost use Rattle.table_store.specs.Places.{Climb, removed_all, all_placed_at, inserted_all};

use crate::placed_row::PlacedRow;
use crate::rows::Rows;
use crate::search::{find, place_of};
use row_types::{ColumnType, Key, Row, RowType, Steps, order_by_key};
use sql_values::NoMemory;
use sqlite_items::Items;
use std::alloc::Global;
use std::cmp::Ordering;
use std::marker::Model;
use std::sync::ledger::Ledger;

/// A table (ISO/IEC 9075-2, 4.14): its columns, the places of its key columns, and its rows, each
/// of which fits, in increasing order of their keys; and the number of rows that it has memory for.
#[derive(Drop)]
pub struct Table {
    row_type: RowType,
    stored: Rows,
}

impl Model for Table {
    ghost use Rattle.std.specs.Prelude.{IsTrue};
    ghost use Rattle.table_store.specs.Kept.{Kept};
    ghost use Rattle.row_types.specs.Rows.{has_key_columns, well_kept};

    ghost Value = { Kept };

    ghost view = { λ t. record { table = record { columns = t.row_type.columns; key = t.row_type.key; rows = t.stored.rows }; capacity = t.stored.capacity } };

    ghost invariant = { λ t. IsTrue (has_key_columns t.row_type.columns t.row_type.key) × IsTrue (well_kept t.row_type.columns t.row_type.key t.stored.rows) };
}

impl Table {
    /// A table without rows.
    pub fn new(alloc: Global, row_type: RowType) -> Table
        requires { IsTrue (has_key_columns row_type.columns row_type.key) }
        ensures { result.table ≡ record {
          columns = row_type.columns;
          key = row_type.key;
          rows =
              [];
        } }
    {
        Table {
            row_type,
            stored: Rows::new(alloc),
        }
    }

    /// The columns, in the order of a row's values.
    pub fn columns(&self) -> &[ColumnType]
        ensures { result.now ≡ self.now.table.columns }
    {
        self.row_type.columns.as_slice()
    }

    /// The places of the key columns.
    pub fn key(&self) -> &[usize]
        ensures value { result.now ≡ self.now.table.key }
        ensures columns { IsTrue (has_key_columns self.now.table.columns self.now.table.key) }
    {
        self.row_type.key.as_slice()
    }

    /// The number of rows.
    pub fn len(&self) -> usize
        ensures value { result ≡ length self.now.table.rows }
        ensures kept { IsKept self.now }
        ensures small { result < 2 ^ 63 }
    {
        self.stored.len()
    }

    /// The row at a place, in key order.
    pub fn row_at(&self, at: usize) -> &Row
        requires { at < length self.now.table.rows }
        ensures { result.now ≡ slice_index_or self.now.table.rows at result.now }
    {
        self.stored.row_at(at)
    }

    /// The row at a place, in key order. Reading it is a step.
    pub fn read_row<L: Ledger>(&self, at: usize, steps: &mut Steps<L>) -> &Row
        requires { at < length self.now.table.rows }
        ensures row { result.now ≡ slice_index_or self.now.table.rows at result.now }
        ensures step { steps.new ≡ steps.old + 1 }
    {
        steps.tick();
        self.stored.row_at(at)
    }

    /// Where the key of a row stands; `Err` is the place to insert the row.
    pub fn place_of(&self, row: &Row) -> Result<usize, usize>
        ensures place { result ≡ searched (λ r. by_key self.now.table.key r row.now)
            self.now.table.rows }
        ensures kept { IsKept self.now }
    {
        let _rows = self.stored.len();
        place_of(&self.stored, row, self.row_type.key.as_slice())
    }

    /// Where a key stands; `Err` is the place to insert a row with it.
    pub fn find(&self, key: &Key) -> Result<usize, usize>
        requires { length key.now ≡ length self.now.table.key }
        ensures { result ≡ searched (to_key self.now.table.key key.now) self.now.table.rows }
    {
        find(&self.stored, key.as_slice(), self.row_type.key.as_slice())
    }

    /// Whether a row has the key of the row at a place.
    pub fn has_key_at(&self, at: usize, row: &Row) -> bool
        requires { at < length self.now.table.rows }
        ensures { result ≡ is_eq (by_key self.now.table.key row.now
            (slice_index_or self.now.table.rows at row.now)) }
    {
        match order_by_key(row, self.stored.row_at(at), self.row_type.key.as_slice()) {
            Ordering::Equal => true,
            Ordering::Less => false,
            Ordering::Greater => false,
        }
    }

    /// Puts a row in at a place where it keeps the key order. There is memory for it.
    pub fn insert_at(&mut self, at: usize, row: Row)
        requires { CanInsert self.old at row }
        ensures rows { self.new.table ≡ with_rows (insert self.old.table.rows at row) self.old.table }
        ensures capacity { self.old.capacity ≤ self.new.capacity }
    {
        self.stored.insert_at(at, row);
    }

    /// Puts rows after the others, with which they stand in key order. There is memory for them.
    pub fn append(&mut self, more: Vec<Row>)
        requires { CanAppend self.old more.items }
        ensures rows { self.new.table ≡ with_rows (self.old.table.rows ++ more.items) self.old.table }
        ensures capacity { self.old.capacity ≤ self.new.capacity }
    {
        self.stored.append(more);
    }

    /// Puts rows in at places, which increase and are theirs afterwards, in one pass over the rows.
    /// There is memory for them.
    pub fn insert_all(&mut self, new: Items<PlacedRow>)
        requires { CanInsertAll self.old new }
        ensures rows { self.new.table ≡ with_rows (inserted_all new self.old.table.rows)
            self.old.table }
        ensures capacity { self.new.capacity ≡ self.old.capacity }
    {
        self.stored.insert_all(new);
    }

    /// Takes the row at a place out and hands it back; its memory is kept.
    pub fn remove_at(&mut self, at: usize) -> Row
        requires { at < length self.old.table.rows }
        ensures row { result ≡ slice_index_or self.old.table.rows at result }
        ensures rows { self.new.table ≡ with_rows (remove self.old.table.rows at) self.old.table }
        ensures capacity { self.new.capacity ≡ self.old.capacity }
    {
        self.stored.remove_at(at)
    }

    /// Takes the rows at places, which increase, out in one pass over the rows, and hands them back
    /// with their places; their memory is kept. Memory is taken for what is handed back alone, and
    /// without it the table stays.
    pub fn remove_all(&mut self, places: &[usize]) -> Result<Vec<PlacedRow>, NoMemory>
        requires { Climb 0 places.now (length self.old.table.rows) }
        ensures taken { IfOk result (λ v. v.items ≡ all_placed_at places.now self.old.table.rows) }
        ensures rows { OnOk result (self.new.table ≡ with_rows
            (removed_all places.now self.old.table.rows) self.old.table) }
        ensures unchanged { OnErr result (self.new.table ≡ self.old.table) }
        ensures capacity { self.new.capacity ≡ self.old.capacity }
    {
        self.stored.remove_all(places)
    }

    /// Takes the rows at places, which increase, out in one pass over the rows; their memory is
    /// kept. It takes no memory.
    pub fn drop_all(&mut self, places: &[usize])
        requires { Climb 0 places.now (length self.old.table.rows) }
        ensures rows { self.new.table ≡ with_rows (removed_all places.now self.old.table.rows)
            self.old.table }
        ensures capacity { self.new.capacity ≡ self.old.capacity }
    {
        self.stored.drop_all(places);
    }

    /// Takes all rows from a place on out; their memory is kept.
    pub fn truncate(&mut self, at: usize)
        ensures rows { self.new.table ≡ with_rows (take at self.old.table.rows) self.old.table }
        ensures capacity { self.new.capacity ≡ self.old.capacity }
    {
        self.stored.truncate(at);
    }

    /// Puts a row in the place of another and hands that back.
    pub fn replace_at(&mut self, at: usize, row: Row) -> Row
        requires { CanReplace self.old at row }
        ensures row { result ≡ slice_index_or self.old.table.rows at result }
        ensures rows { self.new.table ≡ with_rows (slice_set self.old.table.rows at row)
            self.old.table }
        ensures capacity { self.new.capacity ≡ self.old.capacity }
    {
        self.stored.replace_at(at, row)
    }

    /// For how many more rows there is memory.
    pub fn spare(&self) -> usize
        ensures { result ≡ self.now.capacity - length self.now.table.rows }
    {
        self.stored.spare()
    }

    /// Memory for more rows. Without it the table stays.
    pub fn reserve(&mut self, n: usize) -> Result<(), NoMemory>
        ensures rows { self.new.table ≡ self.old.table }
        ensures room { OnOk result (length self.new.table.rows + n ≤ self.new.capacity) }
        ensures capacity { self.old.capacity ≤ self.new.capacity }
    {
        self.stored.reserve(n)
    }
}
