//! The sink for replies, written piece by piece and flushed once.
ghost use Rattle.std.specs.Prelude.{ℕ, Option};
ghost use Rattle.io_edges.specs.Causes.{HasCause};
ghost use Rattle.io_edges.specs.TakenBytes.{TakenBytes, WriteTakes, WritesSome, FlushTells};
ghost use Rattle.io_edges.specs.TakenBytes.{IsWithin};

use crate::Failed;

/// Where bytes go to.
pub trait Sink {
    /// What was taken so far and how much of it is flushed, where the sink tells it.
    ghost told: { Self → Option TakenBytes };

    /// How often it has failed. The number never falls, and stays at 2^64 - 1.
    ghost faults: { Self → ℕ };

    /// Takes the first bytes of the piece, at least one where it has one, and says how many. The
    /// number of flushed bytes stays. `Failed` comes only where the count of faults rose, and then
    /// nothing was taken.
    fn write(&mut self, piece: &[u8]) -> Result<usize, Failed>
        ensures some { WritesSome result piece.now }
        ensures bytes { WriteTakes (told self.old) (told self.new) result piece.now }
        ensures cause { HasCause (faults self.old) (faults self.new) result };

    /// Flushes all that was taken. `Failed` comes only where the count of faults rose, and then the
    /// number of flushed bytes stays.
    fn flush(&mut self) -> Result<(), Failed>
        ensures bytes { FlushTells (told self.old) (told self.new) result }
        ensures cause { HasCause (faults self.old) (faults self.new) result };

    /// No more is flushed than was taken.
    ghost within: { (sink : Self) → IsWithin (told sink) };
}
