//! How a statement ends.

use run_choices::Raise;
use sql_values::Value;
use std::mem::size_of;

/// How a statement ends. A label and a compound statement stand by their level: how many compound
/// statements and loops are around what is left.
#[derive(Drop)]
pub enum Outcome {
    /// At its end.
    Next,
    /// LEAVE (ISO/IEC 9075-4, 14.9).
    Leaving(usize),
    /// ITERATE (14.8).
    Iterating(usize),
    /// RETURN (ISO/IEC 9075-2, 15.2).
    Returning(Value),
    /// To the end of a compound statement, of which a handler takes these conditions.
    Exiting(usize, Raise),
    /// No handler takes these conditions.
    Raising(Raise),
    /// No turn is left.
    Spent,
}

const _: () = prove!(size_of::<Outcome>() <= 32);
