//! What SELECT INTO takes of the rows of its query.

ghost use Rattle.std.specs.Prelude.{map};
ghost use Rattle.rel_algebra.specs.Meaning.{one_row as one_row_by};
ghost use Rattle.routine_views.specs.Views.{target as target_of};
ghost use Rattle.run_expressions.specs.Following.{Follows};

use crate::passing::taken;
use bound_trees::BoundTarget;
use row_types::Row;
use run_expressions::Stop;
use sql_conditions::EngineCondition;
use sqlite_items::Items;
use std::alloc::Global;

/// The values of the one row of SELECT INTO (ISO/IEC 9075-2, 14.7), as their targets take them, and
/// none of no row; several raise 21000.
pub fn one_row(
    alloc: Global,
    targets: &[BoundTarget],
    rows: Result<Items<Row>, Stop>,
) -> Result<Option<Row>, Stop>
    ensures { Follows rows result (λ rs. one_row_by (map target_of targets.now) rs) }
{
    match rows {
        Ok(rows) => match rows.as_slice() {
            [] => Ok(None),
            [row] => match taken(alloc, targets, row.as_slice()) {
                Ok(values) => Ok(Some(values)),
                Err(stop) => Err(stop),
            },
            _ => Err(Stop::of(EngineCondition::SeveralRows)),
        },
        Err(stop) => Err(stop),
    }
}
