//! Bound expressions. Chains, operands and arguments are lists, so that a tree is as deep as the
//! brackets and calls of its text nest.

ghost use Rattle.std.specs.Prelude.{◌≡◌};
ghost use Rattle.bound_trees.specs.Operands.{takes};

use crate::BoundQuery;
use sql_values::{Comparison, Name, Operator, SqlType, Value};
use sqlite_items::{Boxed, Items};

/// A word that stands over operands alone.
#[derive(Clone, Copy, Debug, PartialEq, Eq)]
pub enum BoundOperation {
    /// The number with the other sign (6.27).
    Negation,
    /// NOT (6.39).
    Opposite,
    /// A comparison with its two sides (8.2).
    Comparing(Comparison),
    /// IS NULL (8.8), and IS UNKNOWN (6.39).
    NullTest,
    /// IS TRUE (6.39).
    TrueTest,
    /// IS FALSE (6.39).
    FalseTest,
    /// IN over a list (8.4): the left side among the items.
    AnyOf,
    /// MOD (6.28).
    Modulo,
    /// CHAR_LENGTH (6.28).
    CharLength,
    /// SUBSTRING (6.32): the text, the place, and perhaps the length.
    Substring,
    /// CAST (6.13).
    Cast(SqlType),
    /// AND, up to the first operand that is false (6.39).
    And,
    /// OR, up to the first operand that is true (6.39).
    Or,
    /// COALESCE, up to the first operand that isn't NULL (6.12).
    Coalesce,
    /// CASE (6.12): tests and results in turn, and perhaps a last result.
    Case,
    /// CASE with an operand (6.12): the operand, then what it is compared with and results in turn,
    /// and perhaps a last result.
    CaseOf,
}

impl BoundOperation {
    /// Whether the word takes so many operands. Over another number of them it stands for NULL.
    pub fn takes(self, count: usize) -> bool
        ensures { result ≡ takes self count }
    {
        match self {
            BoundOperation::Negation => count == 1,
            BoundOperation::Opposite => count == 1,
            BoundOperation::Comparing(_) => count == 2,
            BoundOperation::NullTest => count == 1,
            BoundOperation::TrueTest => count == 1,
            BoundOperation::FalseTest => count == 1,
            BoundOperation::CharLength => count == 1,
            BoundOperation::Cast(_) => count == 1,
            BoundOperation::CaseOf => count >= 3,
            _ => true,
        }
    }
}

/// A value expression (ISO/IEC 9075-2, 6.25).
#[cycle(bound)]
#[derive(Drop)]
pub enum BoundExpr {
    /// A literal (5.3).
    Literal(Value),
    /// A column: how many queries outwards it stands, and its place in that query's row.
    Column(usize, usize),
    /// A parameter, by its place among the function's parameters.
    Variable(usize),
    /// A word with its operands.
    Operation(BoundOperation, Items<BoundExpr>),
    /// A chain of operators, read from the left: the first operand, and then each operator with its
    /// right operand.
    Chain(Boxed<BoundExpr>, Items<BoundLink>),
    /// A call of a function, by its name, with its arguments (10.4).
    Call(Name, Items<BoundExpr>),
    /// A scalar subquery (7.19): the value of its one row, NULL where it has none.
    Single(Boxed<BoundQuery>),
    /// EXISTS (8.10): whether the query has a row.
    Exists(Boxed<BoundQuery>),
    /// IN over a query (8.4): the left side, and the query, which has one column.
    In(Boxed<BoundExpr>, Boxed<BoundQuery>),
}

/// An operator and what stands right of it.
#[cycle(bound)]
#[derive(Drop)]
pub struct BoundLink {
    pub operator: Operator,
    pub operand: BoundExpr,
}
