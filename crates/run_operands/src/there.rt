//! Literals, columns and variables, where they lie.

ghost use Rattle.std.specs.Prelude.{◌≡◌, IfSome};
ghost use Rattle.rel_algebra.specs.World.{column_of};
ghost use Rattle.run_choices.specs.Sight.{seen};
ghost use Rattle.run_operands.specs.AtOnce.{HasValue};

use bound_trees::BoundExpr;
use run_expressions::{Frame, RowsInSight};
use sql_values::Value;

/// The value of a literal (ISO/IEC 9075-2, 5.3), of a column of a row in sight (6.7) or of a
/// variable (6.4), where it lies; `None` of any other expression, and where nothing lies there.
pub(crate) fn value_there<'a>(
    expr: &'a BoundExpr,
    rows: &RowsInSight<'a>,
    frame: &'a Frame,
) -> Option<&'a Value>
    ensures { IfSome result (λ v. HasValue expr.now (seen rows.now) frame.now v.now) }
{
    match expr {
        BoundExpr::Literal(value) => Some(value),
        BoundExpr::Column(level, place) => column_there(rows, *level, *place),
        BoundExpr::Variable(slot) => frame.variables().get(*slot),
        _ => None,
    }
}

// What a row has at a place, the innermost row at level 0.
fn column_there<'a>(rows: &RowsInSight<'a>, level: usize, place: usize) -> Option<&'a Value>
    ensures { IfSome result (λ v. v.now ≡ column_of level place (seen rows.now)) }
{
    match rows {
        RowsInSight::NoRow => None,
        RowsInSight::Row(row, outer) => {
            if level == 0 {
                row.get(place)
            } else {
                column_there(outer, level - 1, place)
            }
        }
    }
}
