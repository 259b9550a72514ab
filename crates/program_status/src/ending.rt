//! The end of a run whose replies are all written.
ghost use Rattle.std.specs.Prelude.{◌≡◌, ◌≤◌};
ghost use Rattle.io_edges.specs.Causes.{Rose};
ghost use Rattle.program_status.specs.Endings.{Finishes};

use crate::status::Status;
use io_edges::Sink;

/// Flushes what was written, and answers with the status: 0 where no reply told of an exception, 1
/// where one did, and 4 where the sink refuses the flush.
pub fn finish<K: Sink>(excepts: bool, out: &mut K) -> Status
    ensures ends { Finishes excepts (K.told out.old) (K.told out.new) result }
    ensures fault { result ≡ Status.WriteFault → Rose (K.faults out.old) (K.faults out.new) }
    ensures later { K.faults out.old ≤ K.faults out.new }
{
    match out.flush() {
        Ok(()) if excepts => Status::DoneWithExceptions,
        Ok(()) => Status::Done,
        Err(_) => Status::WriteFault,
    }
}
