//! What is in sight inside aggregates, VALUES and queries (ISO/IEC 9075-2, 7.3, 7.13 and 10.9).

ghost use Rattle.std.specs.Prelude.{◌≡◌, IfOk, map};
ghost use Rattle.bind_sight.specs.Sight as spec;
ghost use Rattle.bind_sight.specs.Sight.{seen_by, level_by};

use bind_sight::{Level, Sight, entered};
use sql_values::NoMemory;
use std::alloc::Global;

/// With these queries around in place of the sight's own; all else stays in sight.
pub fn at_levels<'a>(levels: &'a [Level<'a>], outside: &Sight<'a>) -> Sight<'a>
    ensures { seen_by result ≡ spec.at_levels (map level_by levels.now) (seen_by outside.now) }
{
    Sight {
        levels,
        scopes: outside.scopes,
        catalog: outside.catalog,
        own: outside.own,
        writing: outside.writing,
    }
}

/// Whether an aggregate may stand directly in what the innermost of these queries holds.
pub fn may_stand(levels: &[Level<'_>]) -> bool
    ensures { result ≡ spec.may_stand (map level_by levels.now) }
{
    match levels {
        [level, ..] => level.aggregates,
        [] => false,
    }
}

/// The levels inside an aggregate: each column of its query is in sight there, and no aggregate may
/// stand.
pub fn ungrouped<'a>(alloc: Global, levels: &'a [Level<'a>]) -> Result<Vec<Level<'a>>, NoMemory>
    ensures { IfOk result (λ ls. map level_by ls.items ≡ spec.ungrouped (map level_by levels.now)) }
{
    match levels {
        [level, outside @ ..] => {
            let inner = Level {
                items: level.items,
                base: level.base,
                keys: level.keys,
                grouped: false,
                aggregates: false,
            };
            let found = entered(alloc, inner, outside)?;
            Ok(found)
        }
        [] => Ok(Vec::new(alloc)),
    }
}

/// The levels inside VALUES: the same columns are in sight there, and no aggregate may stand.
pub fn without_aggregates<'a>(
    alloc: Global,
    levels: &'a [Level<'a>],
) -> Result<Vec<Level<'a>>, NoMemory>
    ensures { IfOk result (λ ls. map level_by ls.items ≡ spec.without_aggregates
        (map level_by levels.now)) }
{
    match levels {
        [level, outside @ ..] => {
            let inner = Level {
                items: level.items,
                base: level.base,
                keys: level.keys,
                grouped: level.grouped,
                aggregates: false,
            };
            let found = entered(alloc, inner, outside)?;
            Ok(found)
        }
        [] => Ok(Vec::new(alloc)),
    }
}
