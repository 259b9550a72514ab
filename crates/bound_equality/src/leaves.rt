//! Whether what holds no tree is equal: values, words, names and keys, and nodes of these alone.

ghost use Rattle.std.specs.Prelude.{◌≡◌, ◌↔◌, IsTrue};
ghost use Rattle.bound_trees.specs.declared.expr.BoundExpr.TheVariants as expr;
ghost use Rattle.bound_trees.specs.declared.query.BoundSource.TheVariants as source;

use bound_trees::{BoundExpr, BoundOperation, BoundSource};
use row_types::SortKey;
use sql_values::{FoldKind, Name, Operator, Value};

// Two values; NULL is equal to NULL here.
pub(crate) fn same_value(one: &Value, other: &Value) -> bool
    ensures { IsTrue result ↔ (one.now ≡ other.now) }
{
    one == other
}

// Two words.
pub(crate) fn same_word(one: BoundOperation, other: BoundOperation) -> bool
    ensures { IsTrue result ↔ (one ≡ other) }
{
    one == other
}

// Two operators.
pub(crate) fn same_operator(one: Operator, other: Operator) -> bool
    ensures { IsTrue result ↔ (one ≡ other) }
{
    one == other
}

// Two lists of columns by which rows are ordered.
pub(crate) fn same_keys(one: &[SortKey], other: &[SortKey]) -> bool
    ensures { IsTrue result ↔ (one.now ≡ other.now) }
{
    one == other
}

// Two lists of aggregates.
pub(crate) fn same_folds(one: &[FoldKind], other: &[FoldKind]) -> bool
    ensures { IsTrue result ↔ (one.now ≡ other.now) }
{
    one == other
}

// Two names.
pub(crate) fn same_name(one: &Name, other: &Name) -> bool
    ensures { IsTrue result ↔ (one.now ≡ other.now) }
{
    one == other
}

// Whether an expression is this literal.
pub(crate) fn is_literal(value: &Value, other: &BoundExpr) -> bool
    ensures { IsTrue result ↔ (expr.Literal value.now ≡ other.now) }
{
    match other {
        BoundExpr::Literal(another) => same_value(value, another),
        _ => false,
    }
}

// Whether an expression is this column.
pub(crate) fn is_column(level: usize, place: usize, other: &BoundExpr) -> bool
    ensures { IsTrue result ↔ (expr.Column level place ≡ other.now) }
{
    match other {
        BoundExpr::Column(depth, at) => level == *depth && place == *at,
        _ => false,
    }
}

// Whether an expression is this variable.
pub(crate) fn is_variable(place: usize, other: &BoundExpr) -> bool
    ensures { IsTrue result ↔ (expr.Variable place ≡ other.now) }
{
    match other {
        BoundExpr::Variable(at) => place == *at,
        _ => false,
    }
}

// Whether the rows are those of this table.
pub(crate) fn is_table(name: &Name, other: &BoundSource) -> bool
    ensures { IsTrue result ↔ (source.Table name.now ≡ other.now) }
{
    match other {
        BoundSource::Table(another) => same_name(name, another),
        _ => false,
    }
}
