//! A reply: it is written whole, and may tell of an exception.
ghost use Rattle.std.specs.Prelude.{◌≡◌, IfOk, OnErr};
ghost use Rattle.io_edges.specs.Causes.{HasCause};
ghost use Rattle.io_edges.specs.TakenBytes.{Takes};
ghost use Rattle.program_status.specs.Replies.{is_exception};
ghost use Rattle.program_status.specs.Writing.{TakesFront};

use crate::write::write_whole;
use io_edges::{Failed, Sink};

/// Whether a reply tells of an exception or a fault.
pub fn is_exception(reply: &[u8]) -> bool
    ensures { result ≡ is_exception reply.now }
{
    match reply.first() {
        Some(b) => *b == b'!',
        None => false,
    }
}

/// Writes a reply whole: whether it tells of an exception. It fails where the sink does; a front of
/// the reply was then taken, and not all of it.
pub fn write_reply<K: Sink>(out: &mut K, reply: &[u8]) -> Result<bool, Failed>
    ensures ok { IfOk result (λ excepts. is_exception reply.now ≡ excepts) }
    ensures written { IfOk result (λ _. Takes (K.told out.old) (K.told out.new) reply.now) }
    ensures err { OnErr result (TakesFront (K.told out.old) (K.told out.new) reply.now) }
    ensures cause { HasCause (K.faults out.old) (K.faults out.new) result }
{
    write_whole(out, reply)?;
    Ok(is_exception(reply))
}
