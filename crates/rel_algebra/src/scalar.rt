//! Scalars: what plans compute of a row. They name no routine, and columns by their places alone.

use crate::condition_word::ConditionWord;
use sql_values::{Comparison, Operator, SqlType, Value};
use sqlite_items::{Boxed, Items};

/// An operation on one operand.
#[derive(Clone, Copy, Debug, PartialEq, Eq)]
pub enum UnaryWord {
    /// The number with the other sign (ISO/IEC 9075-2, 6.27).
    Negation,
    /// NOT (6.39).
    Opposite,
    /// IS NULL (8.8).
    NullTest,
    /// IS TRUE (6.39).
    TrueTest,
    /// IS FALSE (6.39).
    FalseTest,
    /// CHAR_LENGTH (6.28).
    CharLength,
    /// CAST (6.13).
    Cast(SqlType),
    /// The value that a target of the type takes (9.2).
    Assign(SqlType),
}

/// An operation on a list of operands.
#[derive(Clone, Copy, Debug, PartialEq, Eq)]
pub enum ListWord {
    /// MOD (6.28): the dividend and the divisor.
    Modulo,
    /// SUBSTRING (6.32): the text, the place, and perhaps the length.
    Substring,
    /// The first among the others: `x IN (a, b)` (8.4).
    AnyOf,
    /// AND, up to the first operand that is false (6.39).
    And,
    /// OR, up to the first operand that is true (6.39).
    Or,
    /// Tests and results in turn, and perhaps a last result (6.12).
    Case,
    /// The first operand that isn't NULL (6.12).
    Coalesce,
}

/// What a plan computes of a row, of the rows outside it and of the arguments. A chain of operators
/// is a list, as are the operands of the words that take many, so that a scalar is as deep as the
/// brackets and calls of its text nest.
#[cycle(scalar)]
#[derive(Drop)]
pub enum Scalar {
    /// A value.
    Constant(Value),
    /// A column: its level, which is 0 for the row itself and d for the d-th row outside it, and
    /// its place in that row.
    Column(usize, usize),
    /// An argument, by its place.
    Argument(usize),
    /// An operation on one operand.
    Unary(UnaryWord, Boxed<Scalar>),
    /// A comparison (8.2) with its two sides.
    Compare(Comparison, Boxed<Scalar>, Boxed<Scalar>),
    /// A chain of operators, read from the left: the first operand, and then each operator with its
    /// right operand.
    Chain(Boxed<Scalar>, Items<ScalarLink>),
    /// An operation on a list of operands.
    Listed(ListWord, Items<Scalar>),
    /// A word over cells that may be conditions, with its operands: their conditions are not raised
    /// by reading them.
    OnCondition(ConditionWord, Items<Scalar>),
}

/// An operator and what stands right of it.
#[cycle(scalar)]
#[derive(Drop)]
pub struct ScalarLink {
    pub operator: Operator,
    pub operand: Scalar,
}
