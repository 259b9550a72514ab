//! The world that runs work on.

ghost use Rattle.std.specs.Prelude.{◌≡◌, ◌<◌, ◌≤◌, ◌-◌, ℕ, suc, [], length, nat_lt, take};
ghost use Rattle.std.specs.Prelude.{if◌then◌else◌};
ghost use Rattle.row_types.specs.Tables.{table_at};
ghost use Rattle.atomic_undo.specs.Applying.{IsFor, IsApplied, KeepsMarks};
ghost use Rattle.rel_algebra.specs.World.{most_active, turn};
ghost use Rattle.run_choices.specs.Ending.{Tells};
ghost use Rattle.run_expressions.specs.Content.{IsBackAt, counted, turned, world_of};

use atomic_undo::{ApplyFault, Changes, Log, Mark, apply, roll_back};
use run_choices::Stop;
use std::alloc::Global;
use std::marker::Model;
use table_store::Tables;

// how many routines that call themselves may be active
const MOST_ACTIVE: u32 = 24;

/// The tables with the log by which their changes are taken back, the turns that are left, and how
/// many routines that call themselves are active. The log belongs to the tables.
#[derive(Drop)]
pub struct World {
    alloc: Global,
    tables: Tables,
    log: Log,
    turns: u64,
    active: u32,
}

impl Model for World {
    ghost use Rattle.atomic_undo.specs.Undo.{Belongs};
    ghost use Rattle.run_expressions.specs.Content.{Content};

    ghost Value = { Content };

    ghost view = { λ w. record { memory = w.tables; book = w.log; turns = w.turns; active = w.active } };

    ghost invariant = { λ w. Belongs w.tables.capacities w.log.entries w.tables.tables };
}

impl World {
    /// A world of tables and turns, in which no routine is active and nothing has changed yet.
    pub fn new(alloc: Global, tables: Tables, turns: u64) -> World
        ensures memory { result.memory ≡ tables }
        ensures log { result.book.entries ≡ [] }
        ensures turns { result.turns ≡ turns }
        ensures active { result.active ≡ 0 }
    {
        World {
            alloc,
            tables,
            log: Log::new(alloc),
            turns,
            active: 0,
        }
    }

    /// The tables, at the end of a statement. The log is given up.
    pub fn into_tables(self) -> Tables
        ensures { result ≡ self.memory }
    {
        let World {
            alloc: _,
            tables,
            log: _,
            turns: _,
            active: _,
        } = self;
        tables
    }

    /// What runs take their memory from.
    pub fn allocator(&self) -> Global {
        self.alloc
    }

    /// The tables.
    pub fn tables(&self) -> &Tables
        ensures { result.now ≡ self.now.memory }
    {
        &self.tables
    }

    /// The place where the log ends.
    pub fn mark(&self) -> Mark
        ensures { result ≡ length self.now.book.entries }
    {
        self.log.mark()
    }

    /// Makes changes in the table at a place, all or none.
    pub fn change(&mut self, table: usize, changes: Changes) -> Result<u64, ApplyFault>
        requires there { table < length self.old.memory.tables }
        requires changes { IsFor (table_at self.old.memory.tables table) changes }
        ensures answer { IsApplied self.old.memory self.old.book self.new.memory self.new.book table
            changes result }
        ensures marks { KeepsMarks self.old.memory self.old.book self.new.memory self.new.book }
        ensures turns { self.new.turns ≡ self.old.turns }
        ensures active { self.new.active ≡ self.old.active }
    {
        apply(&mut self.tables, &mut self.log, table, changes)
    }

    /// Takes all changes after a mark back, and no memory.
    pub fn roll_back(&mut self, mark: Mark)
        requires { mark ≤ length self.old.book.entries }
        ensures { IsBackAt mark self.old self.new }
    {
        roll_back(&mut self.tables, &mut self.log, mark);
    }

    /// Takes one turn. Where none is left it stops, and nothing changes.
    pub fn take_turn(&mut self) -> Result<(), Stop>
        ensures answer { Tells (world_of self.new) result (turn (world_of self.old)) }
        ensures others { self.new ≡ turned (self.old.turns - 1) self.old }
    {
        if self.turns == 0 {
            return Err(Stop::Spent);
        }
        self.turns -= 1;
        Ok(())
    }

    /// How many routines that call themselves may still start.
    pub fn room(&self) -> u32
        ensures { result ≡ most_active - self.now.active }
    {
        MOST_ACTIVE.saturating_sub(self.active)
    }

    /// A routine that calls itself starts. Where as many as may be are active it answers that it
    /// can't, and nothing changes.
    pub fn activate(&mut self) -> bool
        ensures answer { result ≡ nat_lt self.old.active most_active }
        ensures others { self.new ≡ counted (if result then suc self.old.active
            else self.old.active) self.old }
    {
        if self.active >= MOST_ACTIVE {
            return false;
        }
        self.active += 1;
        true
    }

    /// The routine that calls itself and started last has ended.
    pub fn deactivate(&mut self)
        requires one { 0 < self.old.active }
        ensures { self.new ≡ counted (self.old.active - 1) self.old }
    {
        self.active -= 1;
    }
}
