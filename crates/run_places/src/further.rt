//! Places further inside.

ghost use Rattle.std.specs.Prelude.{◌≡◌, ◌++◌, [], IfOk, if◌then◌else◌, map, take};
ghost use Rattle.run_places.specs.Acting.{IsAction, IsWithin};
ghost use Rattle.run_places.specs.Insides.{one_inside};
ghost use Rattle.run_places.specs.Places.{queries_in};
ghost use Rattle.routine_views.specs.Views.{Known, query_in};

use crate::place::Place;
use bound_trees::BoundQuery;
use run_choices::Raise;
use run_outcomes::Scope;
use sql_values::NoMemory;
use std::alloc::Global;

/// The place of the statements of a loop. So many levels as no number counts find no room.
pub fn inside<'a>(place: &Place<'a>) -> Result<Place<'a>, NoMemory>
    ensures { IfOk result (λ p. p ≡ one_inside place.now) }
{
    match place.level.checked_add(1) {
        Some(level) => Ok(Place {
            catalog: place.catalog,
            kept: place.kept,
            own: place.own,
            cursors: place.cursors,
            scopes: place.scopes,
            level,
            stacked: place.stacked,
        }),
        None => Err(NoMemory),
    }
}

/// The place of an action of a handler of a compound statement, by the compound statements outside
/// of that one (ISO/IEC 9075-4, 14.2).
pub fn in_action<'a>(
    place: &Place<'a>,
    outer: &'a [Scope<'a>],
    scope: &Scope<'a>,
    handled: &'a Raise,
) -> Result<Place<'a>, NoMemory>
    ensures { IfOk result (λ p. IsAction place.now outer.now scope.now handled.now p) }
{
    match scope.level.checked_add(1) {
        Some(level) => Ok(Place {
            catalog: place.catalog,
            kept: place.kept,
            own: place.own,
            cursors: scope.queries,
            scopes: outer,
            level,
            stacked: Some(handled),
        }),
        None => Err(NoMemory),
    }
}

/// The place of the statements of a compound statement (14.1), by the cursors and the compound
/// statements that are in sight there.
pub fn within<'a>(
    place: &Place<'a>,
    cursors: &'a [&'a BoundQuery],
    scopes: &'a [Scope<'a>],
) -> Result<Place<'a>, NoMemory>
    ensures { IfOk result (λ p. IsWithin place.now cursors.now scopes.now p) }
{
    match place.level.checked_add(1) {
        Some(level) => Ok(Place {
            catalog: place.catalog,
            kept: place.kept,
            own: place.own,
            cursors,
            scopes,
            level,
            stacked: place.stacked,
        }),
        None => Err(NoMemory),
    }
}

/// The outermost so many compound statements around a statement.
pub fn outermost<'a>(place: &Place<'a>, count: usize) -> &'a [Scope<'a>]
    ensures { result.now ≡ take count place.now.scopes.now }
{
    if count < place.scopes.len() {
        return &place.scopes[..count];
    }
    place.scopes
}

/// Inside an ATOMIC compound statement the handlers outside of it are not seen.
pub fn seen_outside<'a>(place: &Place<'a>, atomic: bool) -> &'a [Scope<'a>]
    ensures { result.now ≡ (if atomic then [] else place.now.scopes.now) }
{
    if atomic {
        return &[];
    }
    place.scopes
}

// The queries of the cursors in sight once more.
fn copied<'a>(alloc: Global, outer: &[&'a BoundQuery]) -> Result<Vec<&'a BoundQuery>, NoMemory>
    ensures { IfOk result (λ v. v.items ≡ outer.now) }
{
    let mut queries = Vec::new(alloc);
    for query in outer {
        queries.push(*query)?;
    }
    Ok(queries)
}

/// The queries of the cursors in sight, and after them those of a compound statement.
pub fn with_cursors<'a>(
    alloc: Global,
    outer: &[&'a BoundQuery],
    own: &'a [BoundQuery],
) -> Result<Vec<&'a BoundQuery>, NoMemory>
    ensures { IfOk result (λ v. (k : Known) → queries_in k v.items
        ≡ queries_in k outer.now ++ map (query_in k) own.now) }
{
    let mut queries = copied(alloc, outer)?;
    for query in own {
        queries.push(query)?;
    }
    Ok(queries)
}
