//! Which of two values an aggregate keeps (ISO/IEC 9075-2, 10.9).

ghost use Rattle.std.specs.Prelude.{◌≡◌};
ghost use Rattle.sql_values.specs.Folds.{comes_before as comes_before_by};
ghost use Rattle.sql_values.specs.Folds.{number_in as number_in_by, replaces as replaces_by};

use crate::{FoldKind, Value, cmp};
use std::cmp::Ordering;

/// The number of an INTEGER.
pub(crate) fn number_in(value: &Value) -> i64
    ensures { result ≡ number_in_by value.now }
{
    match value {
        Value::Int(number) => *number,
        _ => 0,
    }
}

// Whether a value stands before another one of its kind.
fn comes_before(a: &Value, b: &Value) -> bool
    ensures { result ≡ comes_before_by a.now b.now }
{
    match cmp(a, b) {
        Some(Ordering::Less) => true,
        _ => false,
    }
}

/// Whether a value takes the place of the best one so far.
pub(crate) fn replaces(kind: FoldKind, best: &Value, value: &Value) -> bool
    ensures { result ≡ replaces_by kind best.now value.now }
{
    match (kind, best) {
        (FoldKind::Min, Value::Null) => true,
        (FoldKind::Max, Value::Null) => true,
        (FoldKind::Min, _) => comes_before(value, best),
        (FoldKind::Max, _) => comes_before(best, value),
        _ => false,
    }
}
