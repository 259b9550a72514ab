//! A fault: its kind, and the token at which it is shown.

use syntax_trees::Anchor;

/// The kinds of fault, in the order in which they decide at one place.
#[derive(Clone, Copy, Debug, PartialEq, Eq)]
pub enum FaultKind {
    /// A name stands for nothing, or not for what is asked of it.
    UnknownName,
    /// A name or a constraint that is there already.
    DuplicateName,
    /// A value of another kind than is asked for.
    TypeMismatch,
    /// Too few or too many.
    WrongCount,
    /// What may not stand there.
    NotPermitted,
    /// A function above the limit of heights.
    TooHigh,
}

/// A fault at a token.
#[derive(Clone, Copy, Debug)]
pub struct Fault {
    pub at: Anchor,
    pub kind: FaultKind,
}
