//! Nodes of expressions, of what was read.

ghost use Rattle.std.specs.Prelude.{◌≡◌, ◌∷◌, List, Option};
ghost use Rattle.grammar_sql.specs.declared.function_word.Function.TheVariants as functions;
ghost use Rattle.grammar_sql.specs.declared.predicate_part.PredicatePart.TheVariants as predicate_parts;
ghost use Rattle.sql_lex.specs.declared.token.Token.{Token};
ghost use Rattle.syntax_trees.specs.declared.expr.Expr.TheVariants as tree;
ghost use Rattle.syntax_trees.specs.declared.expr.Operation.TheVariants as operations;
ghost use Rattle.grammar_algebra.specs.Reading.{Outcome, mapped};
ghost use Rattle.grammar_algebra.specs.Reads.{Reads};
ghost use Rattle.grammar_sql.specs.Expressions as expressions;
ghost use Rattle.grammar_sql.specs.Trees as trees;

use crate::parts::pair_read;
use grammar_algebra::ParseError;
use grammar_sql::{Function, PredicatePart};
use parse_nodes::{calls, cast_of, chained, exists_of, only, prefixed, subquery, with_first};
use sql_values::{Comparison, FoldKind};
use sqlite_items::Items;
use std::alloc::Global;
use syntax_trees::{Anchor, DataType, Expr, Link, Operation, Query};

/// A chain of what was read; one of an operand alone is no chain. It reads nothing.
pub fn chain_read(
    alloc: Global,
    read: Result<(Expr, Items<Link>), ParseError>,
) -> Result<Expr, ParseError>
    ensures { (outcome : Outcome (Expr × List Link)) → (rest : List Token) → Reads outcome read rest →
        Reads (mapped (λ p. expressions.chain p.0 p.1) outcome) result rest }
{
    let (first, links) = read?;
    Ok(chained(alloc, first, links)?)
}

/// An operand that was read under its sign or NOT, if it has one. It reads nothing.
pub fn prefixed_read(
    alloc: Global,
    read: Result<(Option<(Operation, Anchor)>, Expr), ParseError>,
) -> Result<Expr, ParseError>
    ensures { (outcome : Outcome (Option (Operation × Anchor) × Expr)) → (rest : List Token) → Reads outcome read rest →
        Reads (mapped (λ p. expressions.prefixed p.0 p.1) outcome) result rest }
{
    let (prefix, operand) = read?;
    Ok(prefixed(alloc, prefix, operand)?)
}

/// A comparison, and what was read on its right. It reads nothing.
pub fn compared_read(
    alloc: Global,
    sign: (Comparison, Anchor),
    read: Result<Expr, ParseError>,
) -> Result<PredicatePart, ParseError>
    ensures { (outcome : Outcome Expr) → (rest : List Token) → Reads outcome read rest →
        Reads (mapped (λ right. predicate_parts.Operation (operations.Compare sign.0, sign.1) (trees.only right)) outcome) result rest }
{
    let operands = only(alloc, read?)?;
    Ok(PredicatePart::Operation((Operation::Compare(sign.0), sign.1), operands))
}

/// A query that was read, as a value. It reads nothing.
pub fn subquery_read(alloc: Global, read: Result<Query, ParseError>) -> Result<Expr, ParseError>
    ensures { (outcome : Outcome Query) → (rest : List Token) → Reads outcome read rest →
        Reads (mapped (λ query. tree.Subquery query) outcome) result rest }
{
    Ok(subquery(alloc, read?)?)
}

/// EXISTS with its anchor and the query that was read. It reads nothing.
pub fn exists_read(
    alloc: Global,
    anchor: Anchor,
    read: Result<Query, ParseError>,
) -> Result<Expr, ParseError>
    ensures { (outcome : Outcome Query) → (rest : List Token) → Reads outcome read rest →
        Reads (mapped (λ query. tree.Exists anchor query) outcome) result rest }
{
    Ok(exists_of(alloc, anchor, read?)?)
}

/// What CHAR_LENGTH comes to, with the text that was read. It reads nothing.
pub fn char_length_read(
    alloc: Global,
    read: Result<Expr, ParseError>,
) -> Result<(Function, Items<Expr>), ParseError>
    ensures { (outcome : Outcome Expr) → (rest : List Token) → Reads outcome read rest →
        Reads (mapped (λ text. expressions.calls operations.CharLength (trees.only text)) outcome) result rest }
{
    let operands = only(alloc, read?)?;
    Ok(calls(Operation::CharLength, operands))
}

/// What MOD comes to, with the two operands that were read. It reads nothing.
pub fn modulo_read(
    alloc: Global,
    read: Result<(Expr, Expr), ParseError>,
) -> Result<(Function, Items<Expr>), ParseError>
    ensures { (outcome : Outcome (Expr × Expr)) → (rest : List Token) → Reads outcome read rest →
        Reads (mapped (λ p. expressions.calls operations.Modulo (p.0 ∷ trees.only p.1)) outcome) result rest }
{
    let operands = pair_read(alloc, read)?;
    Ok(calls(Operation::Modulo, operands))
}

/// What CAST comes to, with the operand and the type that were read. It reads nothing.
pub fn cast_read(
    alloc: Global,
    read: Result<(Expr, DataType), ParseError>,
) -> Result<(Function, Items<Expr>), ParseError>
    ensures { (outcome : Outcome (Expr × DataType)) → (rest : List Token) → Reads outcome read rest →
        Reads (mapped (λ p. expressions.calls (operations.Cast p.1) (trees.only p.0)) outcome) result rest }
{
    let (value, data_type) = read?;
    Ok(cast_of(alloc, value, data_type)?)
}

/// What the word of an aggregate comes to, with the argument that was read. It reads nothing.
pub fn aggregate_read(
    alloc: Global,
    kind: FoldKind,
    read: Result<Expr, ParseError>,
) -> Result<(Function, Items<Expr>), ParseError>
    ensures { (outcome : Outcome Expr) → (rest : List Token) → Reads outcome read rest →
        Reads (mapped (λ value. (functions.Aggregate kind, trees.only value)) outcome) result rest }
{
    let operands = only(alloc, read?)?;
    Ok((Function::Aggregate(kind), operands))
}

/// CASE with its operand, if there is one, and with the tests and results that were read. It reads
/// nothing.
pub fn cases_read(
    alloc: Global,
    read: Result<(Option<Expr>, Items<Expr>), ParseError>,
) -> Result<(Operation, Items<Expr>), ParseError>
    ensures { (outcome : Outcome (Option Expr × List Expr)) → (rest : List Token) → Reads outcome read rest →
        Reads (mapped (λ p. expressions.case_of p.0 p.1) outcome) result rest }
{
    let (operand, arms) = read?;
    match operand {
        None => Ok((Operation::Case, arms)),
        Some(operand) => {
            let values = with_first(alloc, operand, arms)?;
            Ok((Operation::CaseOf, values))
        }
    }
}
