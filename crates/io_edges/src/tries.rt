//! Calls of a reader or a writer of std that are made again where they were interrupted, as often
//! as `TRIES_AGAIN` says and no more.
ghost use Rattle.std.specs.Prelude.{◌≡◌, ◌+◌, true, false};
ghost use Rattle.std.specs.Io.{ReadsAtMost, WritesAtMost};
ghost use Rattle.std.specs.Io.KnownBytes.{ReadConsumes, WriteAppends, Keeps};
ghost use Rattle.std.specs.IoError.{error_kind};
ghost use Rattle.std.specs.declared.io.ErrorKind.TheVariants.{Interrupted};
ghost use Rattle.io_edges.specs.Tries.{tries_left};

use std::io;
use std::io::{Error, ErrorKind, Read, Write};

/// How often a call that was interrupted is made again. Where all of these are interrupted too, it
/// fails.
pub const TRIES_AGAIN: u32 = 100;

/// How often a call may still be made again.
#[derive(Drop)]
pub(crate) struct Tries {
    left: u32,
}

impl Tries {
    /// None was made again so far.
    pub(crate) fn new() -> Self
        ensures { tries_left result ≡ TRIES_AGAIN }
    {
        Tries { left: TRIES_AGAIN }
    }

    /// Whether a call that ended in this error is made again: it was interrupted, and a try is left,
    /// which is then taken.
    pub(crate) fn again(&mut self, error: &Error) -> bool
        ensures taken { result ≡ true → (error_kind error.now ≡ Interrupted) ×
            (tries_left self.old ≡ tries_left self.new + 1) }
        ensures given_up { result ≡ false → (self.new ≡ self.old) ×
            (error_kind error.now ≡ Interrupted → tries_left self.old ≡ 0) }
    {
        if self.left == 0 || error.kind() != ErrorKind::Interrupted {
            return false;
        }
        self.left -= 1;
        true
    }
}

/// Reads, and again where that was interrupted.
pub(crate) fn read_again<R: Read>(reader: &mut R, buf: &mut [u8]) -> io::Result<usize>
    ensures bound { ReadsAtMost result buf.new }
    ensures bytes { ReadConsumes (R.remaining reader.old) (R.remaining reader.new) result buf.new }
{
    let mut tries = Tries::new();
    'reads: loop {
        match reader.read(buf) {
            Err(error) if tries.again(&error) => {}
            answer => return answer,
        }
    }
}

/// Writes, and again where that was interrupted.
pub(crate) fn write_again<W: Write>(writer: &mut W, piece: &[u8]) -> io::Result<usize>
    ensures bound { WritesAtMost result piece.now }
    ensures bytes { WriteAppends (W.contents writer.old) (W.contents writer.new) result piece.now }
{
    let mut tries = Tries::new();
    'writes: loop {
        match writer.write(piece) {
            Err(error) if tries.again(&error) => {}
            answer => return answer,
        }
    }
}

/// Flushes, and again where that was interrupted.
pub(crate) fn flush_again<W: Write>(writer: &mut W) -> io::Result<()>
    ensures bytes { Keeps (W.contents writer.old) (W.contents writer.new) }
{
    let mut tries = Tries::new();
    'flushes: loop {
        match writer.flush() {
            Err(error) if tries.again(&error) => {}
            answer => return answer,
        }
    }
}
