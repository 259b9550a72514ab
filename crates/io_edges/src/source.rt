//! The source of a script, read piece by piece.
ghost use Rattle.std.specs.Prelude.{◌≡◌, ◌≤◌, ◌+◌, ◌-◌, ◌^◌, ℕ, min, List, Option};
ghost use Rattle.std.specs.Io.{ReadsAtMost};
ghost use Rattle.std.specs.Io.KnownBytes.{ReadConsumes};
ghost use Rattle.io_edges.specs.Causes.{HasCause};
ghost use Rattle.io_edges.specs.EmptyReads.{empty_by};

/// A call of a source or a sink failed, and took nothing.
#[derive(Clone, Copy, Debug, PartialEq, Eq)]
pub struct Failed;

impl Failed {
    // Counts a fault, up to the last value of the count.
    pub(crate) fn counted(faults: &mut u64) -> Failed
        ensures count { faults.new ≡ min (faults.old + 1) (2 ^ 64 - 1) }
        ensures later { faults.old ≤ faults.new }
    {
        *faults = faults.saturating_add(1);
        Failed
    }
}

/// Where bytes come from.
pub trait Source {
    /// The bytes that are left, where the source tells them.
    ghost left: { Self → Option (List ℕ) };

    /// How often it has failed. The number never falls, and stays at 2^64 - 1.
    ghost faults: { Self → ℕ };

    /// How many reads took nothing: they gave no byte, or failed.
    ghost empty_reads: { Self → ℕ };

    /// Takes the next bytes into the first places of the buffer, and says how many. 0 for a buffer
    /// that is not empty means the end. `Failed` comes only where the count of faults rose, and
    /// then nothing was taken.
    fn read(&mut self, buf: &mut [u8]) -> Result<usize, Failed>
        ensures bound { ReadsAtMost result buf.new }
        ensures bytes { ReadConsumes (left self.old) (left self.new) result buf.new }
        ensures cause { HasCause (faults self.old) (faults self.new) result }
        ensures empty { empty_reads self.new ≡ empty_reads self.old + empty_by result };
}
