//! The routine around, as calls in its body ask for it.

ghost use Rattle.std.specs.Prelude.{◌≡◌, ℕ, List, IfSome, MatchOption};
ghost use Rattle.std.specs.List.{list_any};
ghost use Rattle.sql_values.specs.Values.{is_null};
ghost use Rattle.rel_algebra.specs.Calls.{null_or};
ghost use Rattle.rel_algebra.specs.Tree.{Routine};
ghost use Rattle.rel_algebra.specs.World.{no_self};
ghost use Rattle.run_choices.specs.Ending.{TellsAnywhere};
ghost use Rattle.routine_views.specs.Routines.{with_modes};
ghost use Rattle.routine_views.specs.Views.{types_of};
ghost use Rattle.run_places.specs.Places.{parameters_in};
ghost use Rattle.run_places.specs.Calls.{CallsAnother, CallsItself, IsSelfCall};
ghost use Rattle.run_places.specs.Calls.{CostsAsAgain, CostsAsSelf, PerformsItself, PerformsNothing};

use crate::place::{Own, Place, RoutineBody};
use catalog_store::{InterpretedFunction, ParameterMode, Procedure};
use run_expressions::Stop;
use sql_conditions::EngineCondition;
use sql_values::{Name, SqlType, Value};

/// What a self-call calls: the function itself, which calls itself; or nothing, and then it matters
/// whether the routine is NULL on NULL.
#[derive(Clone, Copy)]
pub enum SelfCall<'a> {
    Itself(&'a InterpretedFunction),
    Refused(bool),
}

/// The routine around, where it has this name, so that a call of the name is one of itself.
pub fn own_named<'a>(place: &Place<'a>, name: &Name) -> Option<Own<'a>>
    ensures { MatchOption result (CallsAnother place.now name.now)
        (λ own. CallsItself place.now name.now own) }
{
    match place.own {
        Some(own) => {
            if own.name == name {
                return Some(own);
            }
            None
        }
        None => None,
    }
}

/// The types of the parameters of the routine around.
pub fn own_parameters<'a>(own: &Own<'a>) -> &'a [SqlType]
    ensures { result.now ≡ types_of (parameters_in own.now.routine) }
{
    match own.routine {
        RoutineBody::Function(function) => function.head.parameters.as_slice(),
        RoutineBody::Procedure(procedure) => procedure.head.parameters.as_slice(),
    }
}

/// The modes of the parameters of the routine around; those of a function have none, and are IN.
pub fn own_modes<'a>(own: &Own<'a>) -> &'a [ParameterMode]
    ensures { with_modes result.now (types_of (parameters_in own.now.routine))
        ≡ parameters_in own.now.routine }
{
    match own.routine {
        RoutineBody::Function(_) => &[],
        RoutineBody::Procedure(procedure) => procedure.head.modes.as_slice(),
    }
}

/// What a self-call in an expression of the routine calls.
pub fn self_call<'a>(own: &Own<'a>) -> SelfCall<'a>
    ensures means { (routines : List ℕ → Routine) → IsSelfCall routines own.now result }
    ensures cost { (routines : List ℕ → Routine) → CostsAsSelf routines own.now result }
{
    match own.routine {
        RoutineBody::Function(function) => {
            if function.self_calling {
                return SelfCall::Itself(function);
            }
            SelfCall::Refused(function.null_call)
        }
        RoutineBody::Procedure(_) => SelfCall::Refused(false),
    }
}

/// The procedure that a self-call as a CALL calls, where there is one: the routine itself, if it is a
/// procedure and calls itself.
pub fn own_procedure<'a>(own: &Own<'a>) -> Option<&'a Procedure>
    ensures means { (routines : List ℕ → Routine) → MatchOption result
        (PerformsNothing routines own.now) (λ p. PerformsItself routines own.now p.now) }
    ensures cost { (routines : List ℕ → Routine) → IfSome result
        (λ p. CostsAsAgain routines own.now p.now) }
{
    match own.routine {
        RoutineBody::Procedure(procedure) => {
            if procedure.self_calling {
                return Some(procedure);
            }
            None
        }
        RoutineBody::Function(_) => None,
    }
}

/// A self-call where nothing calls itself (ISO/IEC 9075-2, 10.4): it raises, but for NULL among the
/// arguments of a function that is NULL on NULL.
pub fn refused(null_call: bool, values: &[Value]) -> Result<Value, Stop>
    ensures { TellsAnywhere result (null_or null_call no_self values.now) }
{
    if null_call && any_null(values) {
        return Ok(Value::Null);
    }
    Err(Stop::of(EngineCondition::RecursionTooDeep))
}

/// Whether a value is NULL.
pub fn any_null(values: &[Value]) -> bool
    ensures { result ≡ list_any is_null values.now }
{
    for value in values {
        if value.is_null() {
            return true;
        }
    }
    false
}
