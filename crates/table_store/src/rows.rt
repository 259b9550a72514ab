//! Rows by their places. This alone knows how they lie in memory: in blocks of 1,024, all full but
//! the last that has rows. So an insert or a removal moves at most half the rows of a block and one
//! row of each block after it, and a place is found by a division. Many rows go in or out in one
//! pass, in which a row without values, which takes no memory, stands where a row was moved away.

ghost use Rattle.std.specs.Prelude.{◌≡◌, ◌<◌, ◌≤◌, ◌+◌, ◌-◌, ◌^◌, [], ◌∷◌, ◌++◌, length, take};
ghost use Rattle.std.specs.Prelude.{slice_get, slice_index, slice_index_or, slice_set, vec_len};
ghost use Rattle.std.specs.Prelude.{vec_capacity, OnOk, OnErr, IfOk, IsTrue, Some, ◌↔◌};
ghost use Rattle.std.specs.List.{insert, remove};
ghost use Rattle.table_store.specs.Places.{Climb, removed_all, all_placed_at, places_of};
ghost use Rattle.table_store.specs.Places.{inserted_all};

use crate::block::Block;
use crate::blocks::{insert_in, push_in, remove_in, replace_in, row_in};
use crate::placed_row::PlacedRow;
use row_types::Row;
use sql_values::NoMemory;
use sqlite_items::Items;
use std::alloc::Global;
use std::collections::VecDeque;
use std::marker::Model;

// More blocks than these are not made.
const MOST: usize = 1 << 40;

/// A table's rows in blocks, all of them full but the last that has rows, so that a place is found
/// by a division.
#[derive(Drop)]
pub struct Rows {
    blocks: Vec<Block>,
    count: usize,
}

impl Model for Rows {
    ghost use Rattle.std.specs.Prelude.{◌≡◌, ◌≤◌, ◌*◌, ◌^◌, length};
    ghost use Rattle.table_store.specs.Blocks.{Room};
    ghost use Rattle.table_store.specs.Blocks.{joined, Packed};

    ghost Value = { Room };

    ghost view = { λ r. record { rows = joined r.blocks.items; capacity = 1024 * length r.blocks.items } };

    ghost invariant = { λ r. Packed r.blocks.items × (r.count ≡ length (joined r.blocks.items)) × (length r.blocks.items ≤ 2 ^ 40) };
}

// Whether the next of some places is this one.
fn is_next(places: &[usize], next: usize, at: usize) -> bool
    ensures { IsTrue result ↔ (slice_get places.now next ≡ Some at) }
{
    match places.get(next) {
        Some(place) => *place == at,
        None => false,
    }
}

// The place of the last row.
fn last_place(rows: &[PlacedRow]) -> usize
    requires { 0 < length rows.now }
    ensures { result ≡ slice_index (places_of rows.now) (length rows.now - 1) }
{
    rows[rows.len() - 1].at
}

impl Rows {
    /// No rows, and no memory for any.
    pub fn new(alloc: Global) -> Rows
        ensures { result.rows ≡ [] }
    {
        Rows {
            blocks: Vec::new(alloc),
            count: 0,
        }
    }

    /// The number of rows.
    pub fn len(&self) -> usize
        ensures value { result ≡ length self.now.rows }
        ensures memory { length self.now.rows ≤ self.now.capacity }
        ensures small { result < 2 ^ 63 }
    {
        self.count
    }

    /// The row at a place.
    pub fn row_at(&self, at: usize) -> &Row
        requires { at < length self.now.rows }
        ensures { result.now ≡ slice_index_or self.now.rows at result.now }
    {
        row_in(&self.blocks, at / 1024, at % 1024)
    }

    /// Puts a row in at a place; those after it move on. There is memory for it.
    pub fn insert_at(&mut self, at: usize, row: Row)
        requires room { length self.old.rows < self.old.capacity }
        requires place { at ≤ length self.old.rows }
        ensures rows { self.new.rows ≡ insert self.old.rows at row }
        ensures capacity { self.old.capacity ≤ self.new.capacity }
    {
        insert_in(&mut self.blocks, at / 1024, at % 1024, row);
        self.count += 1;
    }

    // One row more, after the others.
    fn push(&mut self, row: Row)
        requires { length self.old.rows < self.old.capacity }
        ensures rows { self.new.rows ≡ self.old.rows ++ row ∷ [] }
        ensures capacity { self.new.capacity ≡ self.old.capacity }
    {
        push_in(&mut self.blocks, self.count / 1024, row);
        self.count += 1;
    }

    /// Puts rows after the others. There is memory for them.
    pub fn append(&mut self, more: Vec<Row>)
        requires { length self.old.rows + length more.items ≤ self.old.capacity }
        ensures rows { self.new.rows ≡ self.old.rows ++ more.items }
        ensures capacity { self.new.capacity ≡ self.old.capacity }
    {
        let mut rest = VecDeque::from_vec(more);
        while let Some(row) = rest.pop_front() {
            self.push(row);
        }
    }

    /// Takes the row at a place out and hands it back; its memory is kept.
    pub fn remove_at(&mut self, at: usize) -> Row
        requires { at < length self.old.rows }
        ensures row { result ≡ slice_index_or self.old.rows at result }
        ensures rows { self.new.rows ≡ remove self.old.rows at }
        ensures capacity { self.new.capacity ≡ self.old.capacity }
    {
        self.count -= 1;
        remove_in(&mut self.blocks, at / 1024, at % 1024)
    }

    /// Puts a row in the place of another, and hands that back.
    pub fn replace_at(&mut self, at: usize, row: Row) -> Row
        requires { at < length self.old.rows }
        ensures row { result ≡ slice_index_or self.old.rows at result }
        ensures rows { self.new.rows ≡ slice_set self.old.rows at row }
        ensures capacity { self.new.capacity ≡ self.old.capacity }
    {
        replace_in(&mut self.blocks, at / 1024, at % 1024, row)
    }

    /// Takes all rows from a place on out.
    pub fn truncate(&mut self, at: usize)
        ensures rows { self.new.rows ≡ take at self.old.rows }
        ensures capacity { self.new.capacity ≡ self.old.capacity }
    {
        while at < self.len() {
            let _ = self.remove_at(self.len() - 1);
        }
    }

    // Takes the row at a place away and leaves one without values there.
    fn vacate(&mut self, at: usize) -> Row
        requires { at < length self.old.rows }
        ensures row { result ≡ slice_index_or self.old.rows at [] }
        ensures rows { self.new.rows ≡ slice_set self.old.rows at [] }
        ensures capacity { self.new.capacity ≡ self.old.capacity }
    {
        let none = Items::new(*self.blocks.allocator());
        self.replace_at(at, none)
    }

    // Moves the row at a place to another and leaves one without values there.
    fn move_row(&mut self, from: usize, to: usize)
        requires from { from < length self.old.rows }
        requires to { to < length self.old.rows }
        ensures rows { self.new.rows ≡ slice_set (slice_set self.old.rows from []) to
            (slice_index_or self.old.rows from []) }
        ensures capacity { self.new.capacity ≡ self.old.capacity }
    {
        let row = self.vacate(from);
        let _ = self.replace_at(to, row);
    }

    // Takes the rows at places away and leaves rows without values there. The list has memory for
    // them.
    fn vacate_all(&mut self, places: &[usize], taken: &mut Vec<PlacedRow>)
        requires places { Climb 0 places.now (length self.old.rows) }
        requires noted { vec_len taken.old + length places.now ≤ vec_capacity taken.old }
        ensures taken { taken.new.items ≡ taken.old.items ++ all_placed_at places.now self.old.rows }
        ensures left { removed_all places.now self.new.rows ≡ removed_all places.now self.old.rows }
        ensures len { length self.new.rows ≡ length self.old.rows }
        ensures capacity { self.new.capacity ≡ self.old.capacity }
    {
        for i in 0..places.len() {
            let row = self.vacate(places[i]);
            taken.push_reserved(PlacedRow { at: places[i], row });
        }
    }

    // Moves the rows from a place on that are not at places down over those that are, and cuts off
    // what stands after them then.
    fn close_up(&mut self, places: &[usize], first: usize)
        requires places { Climb first places.now (length self.old.rows) }
        requires there { first ≤ length self.old.rows }
        ensures rows { self.new.rows ≡ removed_all places.now self.old.rows }
        ensures capacity { self.new.capacity ≡ self.old.capacity }
    {
        let count = self.len();
        let mut from = first;
        let mut passed = 0;
        while from < count {
            if is_next(places, passed, from) {
                passed += 1;
            } else {
                self.move_row(from, from - passed);
            }
            from += 1;
        }
        self.truncate(count - passed);
    }

    /// Takes the rows at places, which increase, out in one pass, and hands them back with their
    /// places. Memory is taken for these alone; without it the rows stay.
    pub fn remove_all(&mut self, places: &[usize]) -> Result<Vec<PlacedRow>, NoMemory>
        requires { Climb 0 places.now (length self.old.rows) }
        ensures taken { IfOk result (λ v. v.items ≡ all_placed_at places.now self.old.rows) }
        ensures rows { OnOk result (self.new.rows ≡ removed_all places.now self.old.rows) }
        ensures unchanged { OnErr result (self.new.rows ≡ self.old.rows) }
        ensures capacity { self.new.capacity ≡ self.old.capacity }
    {
        let mut taken = Vec::with_capacity(*self.blocks.allocator(), places.len())?;
        self.vacate_all(places, &mut taken);
        self.drop_all(places);
        Ok(taken)
    }

    /// Takes the rows at places, which increase, out in one pass. It takes no memory.
    pub fn drop_all(&mut self, places: &[usize])
        requires { Climb 0 places.now (length self.old.rows) }
        ensures rows { self.new.rows ≡ removed_all places.now self.old.rows }
        ensures capacity { self.new.capacity ≡ self.old.capacity }
    {
        match places.get(0) {
            Some(first) => self.close_up(places, *first),
            None => {}
        }
    }

    // Rows without values after the others.
    fn lengthen(&mut self, n: usize)
        requires { length self.old.rows + n ≤ self.old.capacity }
        ensures rows { take (length self.old.rows) self.new.rows ≡ self.old.rows }
        ensures len { length self.new.rows ≡ length self.old.rows + n }
        ensures capacity { self.new.capacity ≡ self.old.capacity }
    {
        for _ in 0..n {
            let none = Items::new(*self.blocks.allocator());
            self.push(none);
        }
    }

    /// Puts rows in at places, which increase and are theirs afterwards, in one pass from the back.
    /// There is memory for them.
    pub fn insert_all(&mut self, new: Items<PlacedRow>)
        requires room { length self.old.rows + length new ≤ self.old.capacity }
        requires places { Climb 0 (places_of new) (length self.old.rows + length new) }
        ensures rows { self.new.rows ≡ inserted_all new self.old.rows }
        ensures capacity { self.new.capacity ≡ self.old.capacity }
    {
        self.lengthen(new.len());
        let mut left = new;
        let mut to = self.len();
        while left.len() > 0 {
            to -= 1;
            if last_place(left.as_slice()) == to {
                let Some(last) = left.pop() else {
                    unreachable!()
                };
                let _ = self.replace_at(to, last.row);
            } else {
                self.move_row(to - left.len(), to);
            }
        }
    }

    /// For how many more rows there is memory.
    pub fn spare(&self) -> usize
        ensures value { result ≡ self.now.capacity - length self.now.rows }
        ensures sum { length self.now.rows + result ≡ self.now.capacity }
    {
        1024 * self.blocks.len() - self.count
    }

    // One block more.
    fn grow(&mut self) -> Result<(), NoMemory>
        ensures rows { self.new.rows ≡ self.old.rows }
        ensures more { OnOk result (self.new.capacity ≡ self.old.capacity + 1024) }
        ensures capacity { self.old.capacity ≤ self.new.capacity }
    {
        if self.blocks.len() >= MOST {
            return Err(NoMemory);
        }
        let block = Block::new(*self.blocks.allocator())?;
        self.blocks.push(block)?;
        Ok(())
    }

    /// Memory for so many more rows. Without it the rows stay, with as much memory as there was, or
    /// more.
    pub fn reserve(&mut self, n: usize) -> Result<(), NoMemory>
        ensures rows { self.new.rows ≡ self.old.rows }
        ensures room { OnOk result (length self.new.rows + n ≤ self.new.capacity) }
        ensures capacity { self.old.capacity ≤ self.new.capacity }
    {
        while self.spare() < n {
            self.grow()?;
        }
        Ok(())
    }
}
