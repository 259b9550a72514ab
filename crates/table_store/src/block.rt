//! A block of rows: up to 1,024, for which it has memory from the start.

ghost use Rattle.std.specs.Prelude.{◌≡◌, ◌<◌, ◌≤◌, [], ◌∷◌, ◌++◌, length, slice_index_or};
ghost use Rattle.std.specs.Prelude.{slice_set, IfOk};
ghost use Rattle.std.specs.List.{insert, remove};

use row_types::Row;
use sql_values::NoMemory;
use std::alloc::Global;
use std::collections::VecDeque;
use std::marker::Model;
use std::mem;

/// A block of a table's rows, with memory for 1,024 of them, which it never gives up.
#[derive(Drop)]
pub struct Block {
    held: VecDeque<Row>,
}

impl Model for Block {
    ghost use Rattle.std.specs.Prelude.{List, ◌≤◌};
    ghost use Rattle.std.specs.VecDeque.{deque_capacity};
    ghost use Rattle.row_types.specs.Rows.{Row};

    ghost Value = { List Row };

    ghost view = { λ b. b.held.items };

    ghost invariant = { λ b. 1024 ≤ deque_capacity b.held };
}

impl Block {
    /// A block without rows, with memory for all that it can have.
    pub fn new(alloc: Global) -> Result<Block, NoMemory>
        ensures { IfOk result (λ b. b ≡ []) }
    {
        let held = VecDeque::with_capacity(alloc, 1024)?;
        Ok(Block { held })
    }

    /// The number of rows.
    pub fn len(&self) -> usize
        ensures { result ≡ length self.now }
    {
        self.held.len()
    }

    /// The row at a place.
    pub fn row_at(&self, at: usize) -> &Row
        requires { at < length self.now }
        ensures { result.now ≡ slice_index_or self.now at result.now }
    {
        &self.held[at]
    }

    /// Puts a row in at a place; those after it move on. The block isn't full.
    pub fn insert_at(&mut self, at: usize, row: Row)
        requires room { length self.old < 1024 }
        requires place { at ≤ length self.old }
        ensures { self.new ≡ insert self.old at row }
    {
        match self.held.insert(at, row) {
            Ok(()) => {}
            Err(_) => unreachable!(),
        }
    }

    /// Takes the row at a place out; those after it move up.
    pub fn remove_at(&mut self, at: usize) -> Row
        requires { at < length self.old }
        ensures row { result ≡ slice_index_or self.old at result }
        ensures rest { self.new ≡ remove self.old at }
    {
        match self.held.remove(at) {
            Some(row) => row,
            None => unreachable!(),
        }
    }

    /// Puts a row in the place of another, and hands that back.
    pub fn replace_at(&mut self, at: usize, row: Row) -> Row
        requires { at < length self.old }
        ensures row { result ≡ slice_index_or self.old at result }
        ensures rest { self.new ≡ slice_set self.old at row }
    {
        mem::replace(&mut self.held[at], row)
    }

    /// Puts a row before all others. The block isn't full.
    pub fn push_front(&mut self, row: Row)
        requires { length self.old < 1024 }
        ensures { self.new ≡ row ∷ self.old }
    {
        match self.held.push_front(row) {
            Ok(()) => {}
            Err(_) => unreachable!(),
        }
    }

    /// Puts a row after all others. The block isn't full.
    pub fn push_back(&mut self, row: Row)
        requires { length self.old < 1024 }
        ensures { self.new ≡ self.old ++ row ∷ [] }
    {
        match self.held.push_back(row) {
            Ok(()) => {}
            Err(_) => unreachable!(),
        }
    }

    /// Takes the first row out.
    pub fn pop_front(&mut self) -> Row
        requires { 0 < length self.old }
        ensures { self.old ≡ result ∷ self.new }
    {
        match self.held.pop_front() {
            Some(row) => row,
            None => unreachable!(),
        }
    }

    /// Takes the last row out.
    pub fn pop_back(&mut self) -> Row
        requires { 0 < length self.old }
        ensures { self.old ≡ self.new ++ result ∷ [] }
    {
        match self.held.pop_back() {
            Some(row) => row,
            None => unreachable!(),
        }
    }
}
