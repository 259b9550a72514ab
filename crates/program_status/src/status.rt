//! How a call of the program ended.
ghost use Rattle.std.specs.Prelude.{◌≡◌};

/// The answer of the program. Its number is the exit status of the process.
#[derive(Clone, Copy, Debug, PartialEq, Eq)]
pub enum Status {
    /// 0: all replies were written and flushed, and none begins with `!`.
    Done,
    /// 1: all replies were written and flushed, and one begins with `!`.
    DoneWithExceptions,
    /// 2: the words are no command; nothing was touched.
    Usage,
    /// 3: the source failed; nothing was run or written.
    ReadFault,
    /// 4: the sink failed; a front of the replies was written.
    WriteFault,
    /// 5: there was no memory; nothing was run, or the replies of the first statements were
    /// written.
    NoMemory,
    /// 6: the script has a byte too many; nothing was run or written.
    ScriptTooLong,
}

impl Status {
    ghost use Rattle.program_status.specs.Statuses.{line_of, number_of};

    /// The exit status of the process.
    pub fn number(self) -> u8
        ensures { result ≡ number_of self }
    {
        match self {
            Status::Done => 0,
            Status::DoneWithExceptions => 1,
            Status::Usage => 2,
            Status::ReadFault => 3,
            Status::WriteFault => 4,
            Status::NoMemory => 5,
            Status::ScriptTooLong => 6,
        }
    }

    /// The line for the user, empty where all was done.
    pub fn line(self) -> &'static [u8]
        ensures { result.now ≡ line_of self }
    {
        match self {
            Status::Done | Status::DoneWithExceptions => b"",
            Status::Usage => {
                b"usage: psm run [--plain] [--budget N] [--dump] | psm check | psm demo --seed S --rows N\n"
            }
            Status::ReadFault => b"psm: read failed\n",
            Status::WriteFault => b"psm: write failed\n",
            Status::NoMemory => b"psm: no memory\n",
            Status::ScriptTooLong => b"psm: script too long\n",
        }
    }
}
