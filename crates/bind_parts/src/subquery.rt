//! Subqueries in expressions (ISO/IEC 9075-2, 7.19, 8.4 and 8.10).

ghost use Rattle.std.specs.Prelude.{◌≡◌, IfOk, OnOk};
ghost use Rattle.bind_faults.specs.Faults.{noted};
ghost use Rattle.bind_parts.specs.Subqueries as spec;

use crate::typed::{Typed, TypedQuery, with_kind};
use bind_faults::Fault;
use bind_kinds::{Kind, head_of, like_first, over_in};
use bind_names::note_width;
use bind_sight::Output;
use bind_words::over;
use bound_trees::BoundExpr;
use sql_values::NoMemory;
use sqlite_items::Boxed;
use std::alloc::Global;
use syntax_trees::Anchor;

// The kind of the one column; of another number of columns nothing is known.
fn only(columns: &[Output]) -> Kind
    ensures { result ≡ spec.only columns.now }
{
    match columns {
        [column] => column.kind,
        [] | [_, _, ..] => Kind::Null,
    }
}

/// A scalar subquery, with what is asked of its query.
pub fn single(
    alloc: Global,
    query: TypedQuery,
    least: &mut Option<Fault>,
) -> Result<Typed, NoMemory>
    ensures value { IfOk result (λ t. t ≡ spec.single query) }
    ensures faults { OnOk result (least.new ≡ noted least.old (spec.width_faults query)) }
{
    note_width(query.columns.len(), query.at, least);
    let kind = only(query.columns.as_slice());
    let tree = Boxed::new(alloc, query.tree)?;
    Ok(with_kind(kind, query.at, BoundExpr::Single(tree)))
}

/// EXISTS of a query.
pub fn exists(alloc: Global, at: Anchor, query: TypedQuery) -> Result<Typed, NoMemory>
    ensures { IfOk result (λ t. t ≡ spec.exists at query) }
{
    let tree = Boxed::new(alloc, query.tree)?;
    Ok(with_kind(Kind::Boolean, at, BoundExpr::Exists(tree)))
}

fn if_negated(alloc: Global, negated: bool, test: BoundExpr) -> Result<BoundExpr, NoMemory>
    ensures { IfOk result (λ e. e ≡ spec.if_negated negated test) }
{
    match over_in(negated) {
        Some(word) => over(alloc, word, test),
        None => Ok(test),
    }
}

/// IN of a query, or NOT IN, with what is asked of the query.
pub fn member(
    alloc: Global,
    at: Anchor,
    negated: bool,
    left: Typed,
    query: TypedQuery,
    least: &mut Option<Fault>,
) -> Result<Typed, NoMemory>
    ensures value { IfOk result (λ t. t ≡ spec.member at negated left query) }
    ensures faults { OnOk result (least.new ≡ noted least.old (spec.member_faults left query)) }
{
    note_width(query.columns.len(), query.at, least);
    let column = head_of(only(query.columns.as_slice()), query.at);
    like_first(&[left.head, column], least);
    let left = Boxed::new(alloc, left.tree)?;
    let query = Boxed::new(alloc, query.tree)?;
    let tree = if_negated(alloc, negated, BoundExpr::In(left, query))?;
    Ok(with_kind(Kind::Boolean, at, tree))
}
