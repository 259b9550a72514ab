//! Nodes of expressions, made of what was read.

ghost use Rattle.std.specs.Prelude.{◌≡◌, ◌∷◌, IfOk};
ghost use Rattle.syntax_trees.specs.declared.expr.Expr.TheVariants as tree;
ghost use Rattle.syntax_trees.specs.declared.expr.Operation.TheVariants as operations;
ghost use Rattle.grammar_sql.specs.declared.predicate_part.InValue.TheVariants as in_values;
ghost use Rattle.grammar_sql.specs.Trees as trees;
ghost use Rattle.grammar_sql.specs.Expressions as expressions;

use crate::lists::{if_one, only, with_first};
use grammar_sql::{Function, InValue, PredicatePart};
use sqlite_items::{Boxed, Items};
use std::alloc::{AllocError, Global};
use syntax_trees::{Anchor, ColumnName, DataType, Expr, Ident, Link, Operation, Query, TruthTest};

/// A column's name that stands alone. It reads nothing.
pub fn unqualified(name: Ident) -> ColumnName
    ensures { result ≡ expressions.unqualified name }
{
    ColumnName {
        qualifier: None,
        name,
    }
}

/// A column's name with the name of its FROM item before it. It reads nothing.
pub fn qualified(alloc: Global, qualifier: Ident, name: Ident) -> Result<ColumnName, AllocError>
    ensures { IfOk result (λ c. c ≡ expressions.qualified qualifier name) }
{
    Ok(ColumnName {
        qualifier: Some(Boxed::new(alloc, qualifier)?),
        name,
    })
}

/// A column's name, with the name of its FROM item before it if there are two.
pub fn column_name_of(
    alloc: Global,
    name: Ident,
    more: Option<Ident>,
) -> Result<ColumnName, AllocError>
    ensures { IfOk result (λ c. c ≡ expressions.column_name_of name more) }
{
    match more {
        None => Ok(unqualified(name)),
        Some(column) => qualified(alloc, name, column),
    }
}

/// CAST to a type. It reads nothing.
pub fn cast_to(alloc: Global, data_type: DataType) -> Result<Operation, AllocError>
    ensures { IfOk result (λ o. o ≡ operations.Cast data_type) }
{
    Ok(Operation::Cast(Boxed::new(alloc, data_type)?))
}

/// A chain; one of an operand alone is no chain. It reads nothing.
pub fn chained(alloc: Global, first: Expr, links: Items<Link>) -> Result<Expr, AllocError>
    ensures { IfOk result (λ e. e ≡ expressions.chain first links) }
{
    if links.is_empty() {
        Ok(first)
    } else {
        Ok(Expr::Chain(Boxed::new(alloc, first)?, links))
    }
}

/// An operand under its sign or NOT, if it has one. It reads nothing.
pub fn prefixed(
    alloc: Global,
    prefix: Option<(Operation, Anchor)>,
    operand: Expr,
) -> Result<Expr, AllocError>
    ensures { IfOk result (λ e. e ≡ expressions.prefixed prefix operand) }
{
    match prefix {
        None => Ok(operand),
        Some((operation, anchor)) => {
            Ok(Expr::Operation(anchor, operation, only(alloc, operand)?))
        }
    }
}

fn in_operation(not: bool) -> Operation
    ensures { result ≡ expressions.in_operation not }
{
    if not { Operation::NotIn } else { Operation::In }
}

// IN or NOT IN over a list, with its left side.
fn in_list(
    alloc: Global,
    left: Expr,
    word: (bool, Anchor),
    items: Items<Expr>,
) -> Result<Expr, AllocError>
    ensures { IfOk result (λ e. e ≡ expressions.in_of left word (in_values.List items)) }
{
    let operands = with_first(alloc, left, items)?;
    Ok(Expr::Operation(word.1, in_operation(word.0), operands))
}

// The same over a query.
fn in_query(
    alloc: Global,
    left: Expr,
    word: (bool, Anchor),
    query: Query,
) -> Result<Expr, AllocError>
    ensures { IfOk result (λ e. e ≡ expressions.in_of left word (in_values.Query query)) }
{
    let left = Boxed::new(alloc, left)?;
    let query = Boxed::new(alloc, query)?;
    Ok(Expr::InQuery(word.1, word.0, left, query))
}

// IN or NOT IN with its left side and what it looks in.
fn in_of(
    alloc: Global,
    left: Expr,
    word: (bool, Anchor),
    values: InValue,
) -> Result<Expr, AllocError>
    ensures { IfOk result (λ e. e ≡ expressions.in_of left word values) }
{
    match values {
        InValue::List(items) => in_list(alloc, left, word, items),
        InValue::Query(query) => in_query(alloc, left, word, query),
    }
}

/// A predicate of its left side and what stands after it. It reads nothing.
pub fn predicate_of(alloc: Global, left: Expr, part: PredicatePart) -> Result<Expr, AllocError>
    ensures { IfOk result (λ e. e ≡ expressions.part_of left part) }
{
    match part {
        PredicatePart::Operation(operation, more) => {
            let operands = with_first(alloc, left, more)?;
            Ok(Expr::Operation(operation.1, operation.0, operands))
        }
        PredicatePart::In(word, values) => in_of(alloc, left, word, values),
    }
}

/// A query in brackets, as a value. It reads nothing.
pub fn subquery(alloc: Global, query: Query) -> Result<Expr, AllocError>
    ensures { IfOk result (λ e. e ≡ tree.Subquery query) }
{
    Ok(Expr::Subquery(Boxed::new(alloc, query)?))
}

/// EXISTS with its anchor and its query. It reads nothing.
pub fn exists_of(alloc: Global, anchor: Anchor, query: Query) -> Result<Expr, AllocError>
    ensures { IfOk result (λ e. e ≡ tree.Exists anchor query) }
{
    Ok(Expr::Exists(anchor, Boxed::new(alloc, query)?))
}

/// What a word that stands for an operation comes to, with its operands. It reads nothing.
pub fn calls(operation: Operation, operands: Items<Expr>) -> (Function, Items<Expr>)
    ensures { result ≡ expressions.calls operation operands }
{
    (Function::Operation(operation), operands)
}

/// A word with its operands, by what the word stands for. It reads nothing.
pub fn applied(anchor: Anchor, called: (Function, Items<Expr>)) -> Expr
    ensures { result ≡ expressions.applied anchor called }
{
    let (function, operands) = called;
    match function {
        Function::Operation(operation) => Expr::Operation(anchor, operation, operands),
        Function::Aggregate(kind) => Expr::Aggregate(anchor, kind, operands),
    }
}

/// What IS asks for, or IS NOT. It reads nothing.
pub fn is_or_not(not: Option<(Operation, Anchor)>, test: TruthTest) -> Operation
    ensures { result ≡ expressions.is_or_not not test }
{
    match not {
        None => Operation::Is(test),
        Some(_) => Operation::IsNot(test),
    }
}

/// What SUBSTRING comes to, with its operands: the text, the place, and the length if there is one.
/// It reads nothing.
pub fn substring_of(
    alloc: Global,
    text: Expr,
    places: (Expr, Option<Expr>),
) -> Result<(Function, Items<Expr>), AllocError>
    ensures { IfOk result (λ c. c ≡ expressions.calls operations.Substring
        (text ∷ places.0 ∷ trees.if_one places.1)) }
{
    let more = place_and_length(alloc, places)?;
    let values = with_first(alloc, text, more)?;
    Ok(calls(Operation::Substring, values))
}

// The operands of SUBSTRING after its text.
fn place_and_length(alloc: Global, places: (Expr, Option<Expr>)) -> Result<Items<Expr>, AllocError>
    ensures { IfOk result (λ xs. xs ≡ places.0 ∷ trees.if_one places.1) }
{
    let (place, length) = places;
    let length = if_one(alloc, length)?;
    with_first(alloc, place, length)
}

/// What CAST comes to, with its operand. It reads nothing.
pub fn cast_of(
    alloc: Global,
    value: Expr,
    data_type: DataType,
) -> Result<(Function, Items<Expr>), AllocError>
    ensures { IfOk result (λ c. c ≡ expressions.calls (operations.Cast data_type)
        (trees.only value)) }
{
    let operation = cast_to(alloc, data_type)?;
    Ok(calls(operation, only(alloc, value)?))
}
