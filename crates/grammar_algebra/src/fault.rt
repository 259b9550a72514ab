//! Why nothing was read.

use sql_texts::NoMemory;
use std::alloc::{AllocError, AllocFailed};

/// Why a function of a parser read nothing. Its input then stands at the token that does not go on
/// with what was read.
#[derive(Clone, Copy, Debug, PartialEq, Eq)]
pub enum ParseError {
    /// No memory was there.
    NoMemory,
    /// What is read goes on with no token that stands here.
    NoStatement,
    /// The token that stands here opens one construct more than may be open.
    TooDeep,
}

impl ParseError {
    ghost use Rattle.std.specs.Prelude.{◌≡◌};
    ghost use Rattle.grammar_algebra.specs.Statement.{fault_at};

    /// The same, with the place where the input stands.
    pub fn at(self, place: usize) -> ParseFault
        ensures { result ≡ fault_at self place }
    {
        match self {
            ParseError::NoMemory => ParseFault::NoMemory,
            ParseError::NoStatement => ParseFault::NoStatement(place),
            ParseError::TooDeep => ParseFault::TooDeep(place),
        }
    }
}

impl From<AllocError> for ParseError {
    ghost use Rattle.std.specs.Prelude.{◌≡◌};
    ghost use Rattle.grammar_algebra.specs.declared.fault.ParseError.TheVariants.{NoMemory};

    ghost from_gives = { λ _ e. e ≡ NoMemory };

    fn from(_: AllocError) -> ParseError {
        ParseError::NoMemory
    }
}

impl<T: Drop> From<AllocFailed<T>> for ParseError {
    ghost use Rattle.std.specs.Prelude.{◌≡◌};
    ghost use Rattle.grammar_algebra.specs.declared.fault.ParseError.TheVariants.{NoMemory};

    ghost from_gives = { λ _ e. e ≡ NoMemory };

    fn from(_: AllocFailed<T>) -> ParseError {
        ParseError::NoMemory
    }
}

impl From<NoMemory> for ParseError {
    ghost use Rattle.std.specs.Prelude.{◌≡◌};
    ghost use Rattle.grammar_algebra.specs.declared.fault.ParseError.TheVariants.{NoMemory};

    ghost from_gives = { λ _ e. e ≡ NoMemory };

    fn from(_: NoMemory) -> ParseError {
        ParseError::NoMemory
    }
}

/// Why no statement was read, and at which token, counted from 0.
#[derive(Clone, Copy, Debug, PartialEq, Eq)]
pub enum ParseFault {
    /// No memory was there.
    NoMemory,
    /// From the first token on stands the beginning of a statement up to this token, and no longer
    /// one.
    NoStatement(usize),
    /// From the first token on stands the beginning of a statement up to this token, and with it a
    /// longer one, in which it opens one construct more than may be open.
    TooDeep(usize),
}
