//! Expressions. What only has operands is one node, a word with its operands.

use crate::{Anchor, ColumnName, DataType, Ident, Query};
use sql_values::{Comparison, FoldKind, Operator, Text};
use sqlite_items::{Boxed, Items};
use std::mem::size_of;

/// A literal (ISO/IEC 9075-2, 5.3), or NULL.
#[derive(Drop)]
pub enum Literal {
    Number(i64),
    Text(Text),
    True,
    False,
    Unknown,
    Null,
}

/// What IS asks for (ISO/IEC 9075-2, 6.39 and 8.8).
#[derive(Clone, Copy, Debug, PartialEq, Eq)]
pub enum TruthTest {
    Null,
    True,
    False,
    Unknown,
}

/// A word or sign that stands over operands alone.
#[derive(Debug, Drop)]
pub enum Operation {
    /// The sign `+`, and its operand (ISO/IEC 9075-2, 6.27).
    Plus,
    /// The sign `-`, and its operand.
    Minus,
    /// NOT, and its operand (6.39).
    Not,
    /// A comparison (8.2), and its two sides.
    Compare(Comparison),
    /// IS, and its operand.
    Is(TruthTest),
    /// IS NOT, and its operand.
    IsNot(TruthTest),
    /// IN over a list (8.4): the left side, and then the items.
    In,
    /// NOT IN over a list.
    NotIn,
    /// MOD, the dividend and the divisor (6.28).
    Modulo,
    /// CHAR_LENGTH, and its text (6.28).
    CharLength,
    /// SUBSTRING (6.32): the text, the place, and perhaps the length.
    Substring,
    /// CAST to a type, and its operand (6.13).
    Cast(Boxed<DataType>),
    /// COALESCE, and its operands (6.12).
    Coalesce,
    /// CASE without an operand (6.12): tests and results in turn, and perhaps the result of ELSE.
    Case,
    /// CASE with an operand (6.12): the operand, then what it is compared with and results in turn,
    /// and perhaps the result of ELSE.
    CaseOf,
}

/// An operator of a chain. The operators of one chain are of one level: OR, AND, the additive ones
/// with `||`, or the multiplicative ones.
#[derive(Clone, Copy, Debug, PartialEq, Eq)]
pub enum ChainOperator {
    /// OR (ISO/IEC 9075-2, 6.39).
    Or,
    /// AND.
    And,
    /// An operator of two operands.
    Value(Operator),
}

/// A value expression (ISO/IEC 9075-2, 6.26).
#[cycle(tree)]
#[derive(Drop)]
pub enum Expr {
    /// A literal. Its anchor is itself.
    Literal(Anchor, Literal),
    /// A column, a variable or a parameter. Its anchor is its first name.
    Name(ColumnName),
    /// A call of a function, with its arguments. Its anchor is the function's name.
    Call(Ident, Items<Expr>),
    /// A word with its operands. Its anchor is the word, the sign or the comparison's operator; of
    /// IN, also with NOT, it is IN, and of IS it is IS.
    Operation(Anchor, Operation, Items<Expr>),
    /// An aggregate function (10.9) with its argument; COUNT(*) has none. Its anchor is its word.
    Aggregate(Anchor, FoldKind, Items<Expr>),
    /// A chain of operators, read from the left, with at least one. Its anchor is the first
    /// operator.
    Chain(Boxed<Expr>, Items<Link>),
    /// A scalar subquery (7.19). Its anchor is the query's.
    Subquery(Boxed<Query>),
    /// EXISTS (8.10). Its anchor is the word.
    Exists(Anchor, Boxed<Query>),
    /// IN over a query (8.4), or NOT IN: whether NOT stands before it, the left side, and the
    /// query. Its anchor is IN.
    InQuery(Anchor, bool, Boxed<Expr>, Boxed<Query>),
}

/// An operator of a chain, and the operand after it.
#[cycle(tree)]
#[derive(Drop)]
pub struct Link {
    pub operator: ChainOperator,
    /// The operator's token.
    pub anchor: Anchor,
    pub operand: Expr,
}

// Lists of expressions hold each in place.
const _: () = prove!(size_of::<Expr>() <= 80);
