//! Places in a script, counted on byte by byte.

ghost use Rattle.std.specs.Prelude.{◌≡◌, ◌+◌, ◌≤◌, ◌<◌, ◌^◌, length};
ghost use Rattle.sql_lex.specs.Places.{origin, past, moved};

/// A place in a script.
#[derive(Clone, Copy, Debug, PartialEq, Eq)]
pub struct Position {
    /// How many bytes stand before it.
    pub at: usize,
    /// Its line, counted by LF, from 1.
    pub line: u64,
    /// Its column in the line, counted in bytes, from 1.
    pub column: u64,
}

impl Position {
    /// The place of the first byte.
    pub(crate) const ORIGIN: Position = Position {
        at: 0,
        line: 1,
        column: 1,
    };

    // The place right after a byte that stands at this place.
    fn moved(self, b: u8) -> Position
        requires at { self.at < 2 ^ 63 }
        requires line { self.line < 2 ^ 63 }
        requires column { self.column < 2 ^ 63 }
        ensures { result ≡ moved b self }
    {
        if b == b'\n' {
            Position {
                at: self.at + 1,
                line: self.line + 1,
                column: 1,
            }
        } else {
            Position {
                at: self.at + 1,
                line: self.line,
                column: self.column + 1,
            }
        }
    }

    /// The place right after bytes of which the first stands at this place.
    pub(crate) fn past(self, bytes: &[u8]) -> Position
        requires at { self.at + length bytes.now < 2 ^ 63 }
        requires line { self.line ≤ self.at + 1 }
        requires column { self.column ≤ self.at + 1 }
        ensures is { result ≡ past bytes.now self }
        ensures at { result.at ≡ self.at + length bytes.now }
        ensures line { result.line ≤ result.at + 1 }
        ensures column { result.column ≤ result.at + 1 }
    {
        let mut position = self;
        for b in bytes {
            position = position.moved(*b);
        }
        position
    }
}
