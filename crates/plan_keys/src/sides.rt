//! Comparisons read from the right.

ghost use Rattle.std.specs.Prelude.{◌≡◌};
ghost use Rattle.plan_keys.specs.Terms.{turned as turned_by};

use sql_values::Comparison;

/// The comparison that says the same of the two sides in the other order (ISO/IEC 9075-2, 8.2).
pub fn turned(comparison: Comparison) -> Comparison
    ensures { result ≡ turned_by comparison }
{
    match comparison {
        Comparison::Equals => Comparison::Equals,
        Comparison::NotEquals => Comparison::NotEquals,
        Comparison::LessThan => Comparison::GreaterThan,
        Comparison::LessThanOrEquals => Comparison::GreaterThanOrEquals,
        Comparison::GreaterThan => Comparison::LessThan,
        Comparison::GreaterThanOrEquals => Comparison::LessThanOrEquals,
    }
}
