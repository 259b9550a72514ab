//! Frames.

ghost use Rattle.std.specs.Prelude.{◌≡◌, ◌++◌, [], ◌∷◌, IfOk, OnOk, OnErr, map, replicate};
ghost use Rattle.rel_algebra.specs.World.{frame_of, no_frame, variable_of, Closed, Opened};
ghost use Rattle.rel_algebra.specs.Doing.{put_in, with_more, with_cursors, with_diagnostics};
ghost use Rattle.rel_algebra.specs.Doing.{first_of};
ghost use Rattle.rel_algebra.specs.Cursors.{cursor_in, put_cursor};
ghost use Rattle.rel_algebra.specs.States.{success};
ghost use Rattle.routine_views.specs.Views.{target as target_of};
ghost use Rattle.run_frames.specs.Cursors.{is_opened, fetched_of, moved_on};
ghost use Rattle.run_frames.specs.Frames.{kept_of, with_kept, extent_of};

use crate::copies::{close_more, extend, fill, split_after, tail_of};
use crate::{Arguments, Aside, Cursor, Extent, Fetched};
use bound_trees::BoundTarget;
use row_types::Row;
use run_choices::{Raise, value_at};
use smallvec::SmallVec;
use sql_values::{NoMemory, Value};
use sqlite_items::Items;
use std::alloc::Global;
use std::collections::VecDeque;
use std::marker::Model;

/// What a statement's names stand for: the values of the variables in sight and the cursors in
/// sight, by their slots, the outermost first; and its diagnostics, which are the current area and
/// ROW_COUNT (ISO/IEC 9075-2, 4.33). Up to four variables need no memory. Where memory is wanting,
/// a frame stays as it was.
#[derive(Drop)]
pub struct Frame {
    variables: SmallVec<Value, 4>,
    cursors: Vec<Cursor>,
    current: Raise,
    row_count: u64,
}

impl Model for Frame {
    ghost use Rattle.rel_algebra.specs.World.{Frame as Plain};

    ghost Value = { Plain };

    ghost view = { λ f. record {
      variables = f.variables.items;
      cursors = f.cursors.items;
      current = f.current;
      row_count = f.row_count;
    } };
}

impl Frame {
    /// The frame of what stands in no routine. It takes no memory.
    pub fn empty(alloc: Global) -> Frame
        ensures { result ≡ no_frame }
    {
        Frame::of(Arguments::new(alloc))
    }

    /// The frame of a routine that is called with these values. It takes no memory.
    pub fn of(values: Arguments) -> Frame
        ensures { result ≡ frame_of values }
    {
        let variables = values.into_values();
        let alloc = *variables.allocator();
        Frame {
            variables,
            cursors: Vec::new(alloc),
            current: Raise::success(),
            row_count: 0,
        }
    }

    /// The value in a slot; NULL where there is none.
    pub fn variable(&self, slot: usize) -> Result<Value, NoMemory>
        ensures { IfOk result (λ v. v ≡ variable_of slot self.now) }
    {
        value_at(self.variables.as_slice(), slot)
    }

    /// The values of the variables in sight.
    pub fn variables(&self) -> &[Value]
        ensures { result.now ≡ self.now.variables }
    {
        self.variables.as_slice()
    }

    /// The current area.
    pub fn current(&self) -> &Raise
        ensures { result.now ≡ self.now.current }
    {
        &self.current
    }

    /// ROW_COUNT.
    pub fn row_count(&self) -> u64
        ensures { result ≡ self.now.row_count }
    {
        self.row_count
    }

    /// How many variables and cursors are in sight.
    pub fn extent(&self) -> Extent
        ensures { result ≡ extent_of self.now }
    {
        Extent {
            variables: self.variables.len(),
            cursors: self.cursors.len(),
        }
    }

    // ---- storing

    /// Stores a value in the slot of a target; where there is no such slot, nothing.
    pub fn set(&mut self, target: &BoundTarget, value: Value)
        ensures { self.new ≡ put_in (target_of target.now ∷ []) (value ∷ []) self.old }
    {
        let slot = target.slot;
        if slot < self.variables.len() {
            self.variables[slot] = value;
        }
    }

    /// Stores each value in the slot of its target, in their order.
    #[tactic(auto, using(crate::proofs::Puts::put_none, std::proofs::lemmas::Grind::common_steps))]
    pub fn put(&mut self, targets: &[BoundTarget], values: Vec<Value>)
        ensures { self.new ≡ put_in (map target_of targets.now) values.items self.old }
    {
        let mut left = VecDeque::from_vec(values);
        for target in targets {
            match left.pop_front() {
                Some(value) => self.set(target, value),
                None => return,
            }
        }
    }

    // ---- what is in sight

    /// Declares so many variables, each with this value.
    pub fn declare(&mut self, count: usize, value: &Value) -> Result<(), NoMemory>
        ensures ok { OnOk result (self.new ≡ with_more (replicate count value.now) self.old) }
        ensures err { OnErr result (self.new ≡ self.old) }
    {
        fill(&mut self.variables, count, value)
    }

    /// Declares variables with the values of a row.
    pub fn declare_row(&mut self, row: &[Value]) -> Result<(), NoMemory>
        ensures ok { OnOk result (self.new ≡ with_more row.now self.old) }
        ensures err { OnErr result (self.new ≡ self.old) }
    {
        extend(&mut self.variables, row)
    }

    /// Declares so many cursors, all closed.
    pub fn declare_cursors(&mut self, count: usize) -> Result<(), NoMemory>
        ensures ok { OnOk result
            (self.new ≡ with_cursors (self.old.cursors ++ replicate count Closed) self.old) }
        ensures err { OnErr result (self.new ≡ self.old) }
    {
        close_more(&mut self.cursors, count)
    }

    /// Keeps the first so many variables and cursors: those that were declared after them leave.
    pub fn cut(&mut self, extent: Extent)
        ensures { self.new ≡ first_of extent.variables extent.cursors self.old }
    {
        self.variables.truncate(extent.variables);
        self.cursors.truncate(extent.cursors);
    }

    /// Keeps the first so many variables and cursors, and hands out those after them, until
    /// `bring_back`.
    pub fn set_aside(&mut self, alloc: Global, extent: Extent) -> Result<Aside, NoMemory>
        ensures ok { OnOk result (self.new ≡ first_of extent.variables extent.cursors self.old) }
        ensures kept { IfOk result (λ a. a ≡ kept_of extent.variables extent.cursors self.old) }
        ensures err { OnErr result (self.new ≡ self.old) }
    {
        let variables = tail_of(alloc, self.variables.as_slice(), extent.variables)?;
        let cursors = split_after(alloc, &mut self.cursors, extent.cursors)?;
        self.variables.truncate(extent.variables);
        Ok(Aside { variables, cursors })
    }

    /// What was kept aside comes back, after the variables and cursors that are in sight.
    pub fn bring_back(&mut self, kept: Aside) -> Result<(), NoMemory>
        ensures ok { OnOk result (self.new ≡ with_kept kept self.old) }
        ensures err { OnErr result (self.new ≡ self.old) }
    {
        let Aside {
            variables,
            mut cursors,
        } = kept;
        let before = self.variables.len();
        extend(&mut self.variables, variables.as_slice())?;
        match self.cursors.append(&mut cursors) {
            Ok(()) => Ok(()),
            Err(_) => {
                self.variables.truncate(before);
                Err(NoMemory)
            }
        }
    }

    // ---- diagnostics

    /// A statement that raises nothing leaves the area of success, and its ROW_COUNT.
    pub fn complete(&mut self, rows: u64)
        ensures { self.new ≡ with_diagnostics success rows self.old }
    {
        self.set_diagnostics(Raise::success(), rows);
    }

    /// An action of a handler leaves the area of success.
    pub fn settle(&mut self)
        ensures { self.new ≡ with_diagnostics success 0 self.old }
    {
        self.complete(0);
    }

    /// The current area and ROW_COUNT.
    pub fn set_diagnostics(&mut self, raise: Raise, rows: u64)
        ensures { self.new ≡ with_diagnostics raise rows self.old }
    {
        self.current = raise;
        self.row_count = rows;
    }

    // ---- cursors

    /// Whether the cursor of a slot is open.
    pub fn is_open(&self, slot: usize) -> bool
        ensures { result ≡ is_opened (cursor_in slot self.now) }
    {
        match self.cursors.get(slot) {
            Some(cursor) => cursor.is_open(),
            None => false,
        }
    }

    /// Opens the cursor of a slot, with these rows.
    pub fn open(&mut self, alloc: Global, slot: usize, rows: Items<Row>) -> Result<(), NoMemory>
        ensures ok { OnOk result (self.new ≡ put_cursor slot (Opened rows) self.old) }
        ensures err { OnErr result (self.new ≡ self.old) }
    {
        let cursor = Cursor::opened(alloc, rows)?;
        if slot < self.cursors.len() {
            self.cursors[slot] = cursor;
        }
        Ok(())
    }

    /// Closes the cursor of a slot.
    pub fn close(&mut self, slot: usize)
        ensures { self.new ≡ put_cursor slot Closed self.old }
    {
        if slot < self.cursors.len() {
            self.cursors[slot] = Cursor::closed();
        }
    }

    /// Moves the cursor of a slot on, and hands out the row that was next.
    pub fn advance(&mut self, slot: usize) -> Fetched
        ensures row { result ≡ fetched_of (cursor_in slot self.old) }
        ensures left { self.new ≡ moved_on slot (cursor_in slot self.old) self.old }
    {
        if slot < self.cursors.len() {
            self.cursors[slot].advance()
        } else {
            Fetched::Closed
        }
    }
}
