//! The words that begin what may have a label.

/// A word that begins a compound statement (ISO/IEC 9075-4, 14.1) or a loop (14.10 to 14.13).
#[derive(Clone, Copy, Debug, PartialEq, Eq)]
pub enum StructureWord {
    Begin,
    Loop,
    While,
    Repeat,
    For,
}
