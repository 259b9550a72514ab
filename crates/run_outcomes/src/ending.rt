//! What the end of a routine's body gives.

ghost use Rattle.std.specs.Prelude.{◌≡◌, [], ◌∷◌, ◌++◌, IfOk, OnOk, if◌then◌else◌};
ghost use Rattle.rel_algebra.specs.Calls.{returned_or, given_or, outs_of};
ghost use Rattle.routine_views.specs.Routines.{with_modes};
ghost use Rattle.run_choices.specs.Ending.{TellsAnywhere};
ghost use Rattle.run_outcomes.specs.Outcomes.{outcome_of, goes_back_at};

use crate::Outcome;
use catalog_store::ParameterMode;
use run_choices::Stop;
use run_frames::Frame;
use sql_conditions::EngineCondition;
use sql_values::{NoMemory, SqlType, Value, assign};
use sqlite_items::{Items, at};
use std::alloc::Global;

// Whether the parameter at a place gives its value back; one without a mode is IN.
fn goes_back(modes: &[ParameterMode], place: usize) -> bool
    ensures { result ≡ goes_back_at modes.now place }
{
    match modes.get(place) {
        Some(ParameterMode::Out | ParameterMode::Inout) => true,
        _ => false,
    }
}

// Gives back the value of the parameter at a place, where its mode says so.
fn give_back(
    given: &mut Items<Value>,
    modes: &[ParameterMode],
    place: usize,
    value: &Value,
) -> Result<(), NoMemory>
    ensures { OnOk result (given.new
        ≡ (if goes_back_at modes.now place then given.old ++ value.now ∷ [] else given.old)) }
{
    if goes_back(modes, place) {
        given.push(value.copied()?)?;
    }
    Ok(())
}

// The values of the OUT and INOUT parameters among the first slots.
fn outs_among(
    alloc: Global,
    modes: &[ParameterMode],
    types: &[SqlType],
    values: &[Value],
) -> Result<Items<Value>, NoMemory>
    ensures { IfOk result (λ vs. vs ≡ outs_of (with_modes modes.now types.now) values.now) }
{
    let mut given = Items::new(alloc);
    for (place, _type) in types.iter().enumerate() {
        match at(values, place) {
            Some(value) => give_back(&mut given, modes, place, value)?,
            None => return Ok(given),
        }
    }
    Ok(given)
}

/// What a function gives whose body ends so (ISO/IEC 9075-2, 15.2): the value of RETURN, assigned
/// to its type, or what is raised. A body that ends otherwise raises 2F005.
pub fn returned(alloc: Global, data_type: SqlType, outcome: Outcome) -> Result<Value, Stop>
    ensures { TellsAnywhere result (returned_or data_type (outcome_of outcome)) }
{
    match outcome {
        Outcome::Returning(value) => Ok(assign(alloc, value, data_type)?),
        Outcome::Raising(raise) => Err(Stop::Raised(raise)),
        Outcome::Spent => Err(Stop::Spent),
        _ => Err(Stop::of(EngineCondition::EndedWithoutReturn)),
    }
}

/// The values of the OUT and INOUT parameters of a procedure whose body ends so, with this frame
/// (ISO/IEC 9075-2, 15.1), or what is raised. A parameter without a mode is IN.
pub fn outs(
    alloc: Global,
    modes: &[ParameterMode],
    types: &[SqlType],
    outcome: Outcome,
    frame: &Frame,
) -> Result<Items<Value>, Stop>
    ensures { TellsAnywhere result
        (given_or (with_modes modes.now types.now) (outcome_of outcome) frame.now) }
{
    match outcome {
        Outcome::Raising(raise) => Err(Stop::Raised(raise)),
        Outcome::Spent => Err(Stop::Spent),
        _ => Ok(outs_among(alloc, modes, types, frame.variables())?),
    }
}
