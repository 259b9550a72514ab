//! How many reads of a source took nothing. Only proofs read the count: it takes no memory and
//! never ends.
ghost use Rattle.std.specs.Prelude.{◌≡◌, ◌+◌, length};

use crate::log::Log;

/// The reads that took nothing so far.
#[derive(Drop)]
pub(crate) struct EmptyReads {
    log: Log<()>,
}

impl EmptyReads {
    ghost use Rattle.io_edges.specs.EmptyReads.{count_of, one_if_none};

    /// No read so far.
    pub(crate) fn new() -> Self
        ensures { count_of result ≡ 0 }
    {
        EmptyReads { log: Log::new() }
    }

    /// Counts a read that took so many bytes, where that is none.
    pub(crate) fn count(&mut self, taken: usize)
        ensures { count_of self.new ≡ count_of self.old + one_if_none taken }
    {
        if taken == 0 {
            self.log = self.log.and(&());
        }
    }
}
