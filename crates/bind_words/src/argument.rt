//! The arguments of aggregates, as parts of a group (ISO/IEC 9075-2, 10.9).

ghost use Rattle.std.specs.Prelude.{◌≡◌};
ghost use Rattle.bind_kinds.specs.Aggregates as spec;

use bound_trees::BoundExpr;
use sql_values::Value;
use sqlite_items::Items;

/// The argument of an aggregate. COUNT(*), which has none, counts TRUE.
#[tactic(auto, using(bind_kinds::proofs::Laws::argument_of_none, bind_kinds::proofs::Laws::argument_of_some))]
pub fn argument_of(operands: Items<BoundExpr>) -> BoundExpr
    ensures { result ≡ spec.argument_of operands }
{
    let mut operands = operands;
    if operands.len() == 0 {
        BoundExpr::Literal(Value::Bool(true))
    } else {
        operands.remove(0)
    }
}
