//! The words whose operands stand in brackets after them.

use sql_values::FoldKind;
use syntax_trees::Operation;

/// A word whose operands stand in brackets after it.
#[derive(Clone, Copy, Debug, PartialEq, Eq)]
pub enum FunctionWord {
    /// COALESCE (ISO/IEC 9075-2, 6.12).
    Coalesce,
    /// MOD (6.28).
    Modulo,
    /// CHAR_LENGTH (6.28).
    CharLength,
    /// SUBSTRING (6.32).
    Substring,
    /// CAST (6.13).
    Cast,
    /// The word of an aggregate function (10.9).
    Aggregate(FoldKind),
}

/// What such a word stands for.
#[derive(Debug, Drop)]
pub enum Function {
    /// An operation of its operands.
    Operation(Operation),
    /// An aggregate of its argument.
    Aggregate(FoldKind),
}
