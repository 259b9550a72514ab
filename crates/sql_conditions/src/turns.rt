//! Turns: how often loops may start their bodies, and routines call themselves.

ghost use Rattle.std.specs.Prelude.{◌≡◌, ◌<◌, ◌-◌, ◌↔◌, IsTrue};

use std::marker::Model;

/// The turns that are left to a statement of a script. Contracts see their number.
#[derive(Drop)]
pub struct Turns {
    left: u64,
}

impl Model for Turns {
    ghost use Rattle.std.specs.Prelude.{ℕ};

    ghost Value = { ℕ };

    ghost view = { λ t. t.left };
}

impl Turns {
    /// So many turns.
    pub fn of(budget: u64) -> Turns
        ensures { result ≡ budget }
    {
        Turns { left: budget }
    }

    /// How many are left.
    pub fn left(&self) -> u64
        ensures { result ≡ self.now }
    {
        self.left
    }

    /// Takes a turn: each start of a loop's body takes one, and each call of a routine that calls
    /// itself. `false` comes exactly where none is left.
    pub fn take(&mut self) -> bool
        ensures taken { IsTrue result ↔ (0 < self.old) }
        ensures left { self.new ≡ self.old - 1 }
    {
        if self.left == 0 {
            return false;
        }
        self.left -= 1;
        true
    }
}
