//! Areas.

ghost use Rattle.std.specs.Prelude.{◌≡◌, ◌<◌, ◌≤◌, [], ◌∷◌, IfOk, length};
ghost use Rattle.sql_conditions.specs.declared.area.TheConstants.{MOST_CONDITIONS};
ghost use Rattle.sql_conditions.specs.Conditions.{pushed, retexted, state_in};

use crate::{Condition, Message, SqlState};
use arrayvec::ArrayVec;
use sql_texts::NoMemory;
use std::marker::Model;

/// How many conditions an area keeps at most.
const MOST_CONDITIONS: usize = 4;

/// A diagnostics area (ISO/IEC 9075-2, 4.33): one to four conditions, the newest first. None of its
/// functions takes memory.
#[derive(Debug, Drop)]
pub struct Area {
    conditions: ArrayVec<Condition, MOST_CONDITIONS>,
}

impl Model for Area {
    ghost use Rattle.std.specs.Prelude.{◌<◌, length};
    ghost use Rattle.sql_conditions.specs.Conditions.{Area as Plain};

    ghost Value = { Plain };

    ghost view = { λ a. a.conditions.items };

    ghost invariant = { λ a. 0 < length a.conditions.items };
}

impl Area {
    /// The area of one condition.
    pub fn of(condition: Condition) -> Area
        ensures { result ≡ condition ∷ [] }
    {
        let mut conditions = ArrayVec::new();
        conditions.push(condition);
        Area { conditions }
    }

    /// The conditions, the newest first.
    pub fn as_slice(&self) -> &[Condition]
        ensures { result.now ≡ self.now }
    {
        self.conditions.as_slice()
    }

    /// How many conditions it has.
    pub fn len(&self) -> usize
        ensures count { result ≡ length self.now }
        ensures some { 0 < result }
        ensures within { result ≤ MOST_CONDITIONS }
    {
        self.conditions.len()
    }

    /// The state of the newest condition.
    pub fn state(&self) -> &SqlState
        ensures { result.now ≡ state_in self.now }
    {
        &self.conditions.as_slice()[0].state
    }

    /// The same area once more; its texts are shared.
    pub fn copied(&self) -> Result<Area, NoMemory>
        ensures { IfOk result (λ a. a ≡ self.now) }
    {
        let mut conditions = ArrayVec::new();
        let held = self.conditions.as_slice();
        for condition in held {
            conditions.push(condition.copied()?);
        }
        Ok(Area { conditions })
    }

    /// Puts a condition first. Where there were four, the oldest goes.
    pub fn push_front(&mut self, condition: Condition)
        ensures { self.new ≡ pushed condition self.old }
    {
        if self.conditions.is_full() {
            self.conditions.remove(MOST_CONDITIONS - 1);
        }
        self.conditions.insert(0, condition);
    }

    /// Gives the newest condition another text.
    pub fn retext(&mut self, message: Message)
        ensures { self.new ≡ retexted message self.old }
    {
        self.conditions.as_mut_slice()[0].message = message;
    }
}
