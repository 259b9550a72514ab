//! Writing a text whole.
ghost use Rattle.std.specs.Prelude.{OnOk, OnErr};
ghost use Rattle.io_edges.specs.Causes.{HasCause};
ghost use Rattle.io_edges.specs.TakenBytes.{Takes};
ghost use Rattle.program_status.specs.Statuses.{Tells, line_of};
ghost use Rattle.program_status.specs.Writing.{TakesFront};

use crate::status::Status;
use io_edges::{Failed, Sink};

/// Writes all the bytes, in as many calls as it takes. It fails where the sink does; a front was
/// then taken.
pub fn write_whole<K: Sink>(out: &mut K, bytes: &[u8]) -> Result<(), Failed>
    ensures ok { OnOk result (Takes (K.told out.old) (K.told out.new) bytes.now) }
    ensures err { OnErr result (TakesFront (K.told out.old) (K.told out.new) bytes.now) }
    ensures cause { HasCause (K.faults out.old) (K.faults out.new) result }
{
    let mut rest = bytes;
    while !rest.is_empty() {
        match out.write(rest) {
            Ok(count) => rest = &rest[count..],
            Err(failed) => return Err(failed),
        }
    }
    Ok(())
}

/// Writes the line of a status. A sink that fails changes nothing else.
pub fn tell<E: Sink>(err: &mut E, status: Status)
    ensures { Tells (E.told err.old) (E.told err.new) (E.faults err.old) (E.faults err.new)
        (line_of status) }
{
    let _ = write_whole(err, status.line());
}
