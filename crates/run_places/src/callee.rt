//! What a call of a name calls.

ghost use Rattle.std.specs.Prelude.{MatchOption};
ghost use Rattle.routine_views.specs.Routines.{routines_of};
ghost use Rattle.run_places.specs.Callees.{GivesNothing, IsCallee, IsProcedure};

use crate::place::Place;
use bound_trees::BoundExpr;
use catalog_store::{FunctionHead, InterpretedFunction, Object, Procedure};
use sql_values::Name;
use viewing_laws::{planned_views, routine_is};

/// What a call of a name calls: a function with a plan, by its head and what it returns; a function
/// without one; or nothing, so that its value is NULL.
#[derive(Clone, Copy)]
pub enum Callee<'a> {
    Planned(&'a FunctionHead, &'a BoundExpr),
    Interpreted(&'a InterpretedFunction),
    Nothing,
}

/// What a call of a name calls (ISO/IEC 9075-2, 10.4).
pub fn named<'a>(place: &Place<'a>, name: &Name) -> Callee<'a>
    ensures { IsCallee place.now.catalog.now name.now result }
{
    routine_is();
    planned_views();
    let _entries = place.catalog.len();
    match place.catalog.get(name) {
        Some(Object::Function(record)) => match record.body.tree() {
            Some(tree) => Callee::Planned(&record.head, tree),
            None => unreachable!(),
        },
        Some(Object::Interpreted(function)) => Callee::Interpreted(function),
        Some(Object::Table(_)) => Callee::Nothing,
        Some(Object::Procedure(_)) => Callee::Nothing,
        None => Callee::Nothing,
    }
}

/// The procedure that a CALL of a name calls (15.1); where the name stands for none, nothing is
/// called.
pub fn procedure_named<'a>(place: &Place<'a>, name: &Name) -> Option<&'a Procedure>
    ensures { MatchOption result
        (GivesNothing (routines_of place.now.catalog.now name.now))
        (λ p. IsProcedure place.now.catalog.now name.now p.now) }
{
    routine_is();
    let _entries = place.catalog.len();
    match place.catalog.get(name) {
        Some(Object::Procedure(procedure)) => Some(procedure),
        Some(Object::Table(_)) => None,
        Some(Object::Function(_)) => None,
        Some(Object::Interpreted(_)) => None,
        None => None,
    }
}
