//! The stages of a repetition.

/// How far a repetition has come whose items change as it goes on, as a block's declarations do:
/// variables come first, then cursors, then handlers.
#[derive(Clone, Copy, Debug, PartialEq, Eq)]
pub enum Stage {
    First,
    Second,
    Third,
}
