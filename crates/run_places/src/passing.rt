//! What CALL passes, and what it takes back.

ghost use Rattle.std.specs.Prelude.{◌≡◌, [], ◌∷◌, ◌++◌, IfOk, OnOk, drop, map};
ghost use Rattle.sql_values.specs.Casts.{assigned};
ghost use Rattle.sql_values.specs.Values.{UnlessNoMemory};
ghost use Rattle.std.specs.Option.{option_copied};
ghost use Rattle.rel_algebra.specs.Calls.{passed, passed_by as spec_passed_by, targets_of};
ghost use Rattle.rel_algebra.specs.Doing.{put_in, take_values, with_diagnostics};
ghost use Rattle.rel_algebra.specs.States.{success};
ghost use Rattle.rel_algebra.specs.World.{after, give, outcome};
ghost use Rattle.routine_views.specs.Routines.{with_modes};
ghost use Rattle.routine_views.specs.Views.{Known, arguments as arguments_in, target as target_of};
ghost use Rattle.run_choices.specs.Ending.{TellsAnywhere};
ghost use Rattle.run_expressions.specs.Following.{Follows};
ghost use Rattle.run_places.specs.Passing.{mode_in};

use bound_trees::{BoundArgument, BoundTarget};
use catalog_store::ParameterMode;
use run_expressions::{Arguments, Frame, Stop};
use sql_values::{NoMemory, SqlType, Value, ValueFault, assign};
use sqlite_items::{Items, at as item_at};
use std::alloc::Global;

// The value that a parameter of a mode takes (ISO/IEC 9075-2, 10.4); one without a mode is IN.
fn passed_by(
    alloc: Global,
    mode: Option<&ParameterMode>,
    value: Value,
    to: SqlType,
) -> Result<Value, ValueFault>
    ensures { UnlessNoMemory result
        (result ≡ spec_passed_by (mode_in (option_copied mode.entry)) to value) }
{
    match mode {
        Some(ParameterMode::Out) => Ok(Value::Null),
        _ => assign(alloc, value, to),
    }
}

// The value that the parameter at a place takes; without a parameter there the value itself.
fn passed_at(
    alloc: Global,
    value: Value,
    modes: &[ParameterMode],
    types: &[SqlType],
    place: usize,
) -> Result<Value, ValueFault>
    ensures { UnlessNoMemory result
        (result ≡ passed (drop place (with_modes modes.now types.now)) value) }
{
    match item_at(types, place) {
        Some(to) => passed_by(alloc, item_at(modes, place), value, *to),
        None => Ok(value),
    }
}

/// A value more, as the parameter at its place takes it.
pub fn with_passed(
    alloc: Global,
    values: Arguments,
    value: Result<Value, Stop>,
    modes: &[ParameterMode],
    types: &[SqlType],
    place: usize,
) -> Result<Arguments, Stop>
    ensures { Follows value result (λ v u. after
        (outcome (passed (drop place (with_modes modes.now types.now)) v) u)
        (λ x. give (values ++ x ∷ []))) }
{
    match value {
        Ok(value) => {
            let mut values = values;
            values.push(passed_at(alloc, value, modes, types, place)?)?;
            Ok(values)
        }
        Err(stop) => Err(stop),
    }
}

/// The variables into which CALL stores what comes back, in the order of its arguments.
pub fn variables_of(
    alloc: Global,
    arguments: &[BoundArgument],
) -> Result<Vec<BoundTarget>, NoMemory>
    ensures { (known : Known) → IfOk result
        (λ ts. map target_of ts.items ≡ targets_of (arguments_in known arguments.now)) }
{
    let mut targets = Vec::new(alloc);
    for argument in arguments {
        if let BoundArgument::Variable(target) = argument {
            targets.push(*target)?;
        }
    }
    Ok(targets)
}

// A value more, as its target takes it.
fn with_taken(
    alloc: Global,
    taken: Items<Value>,
    value: &Value,
    target: &BoundTarget,
) -> Result<Items<Value>, Stop>
    ensures { TellsAnywhere result (λ u. after (outcome (assigned target.now.data_type value.now) u)
        (λ x. give (taken ++ x ∷ []))) }
{
    let value = assign(alloc, value.copied()?, target.data_type)?;
    let mut taken = taken;
    taken.push(value)?;
    Ok(taken)
}

/// Values as their targets take them: the first that is refused ends it (ISO/IEC 9075-2, 9.2).
pub fn taken(alloc: Global, targets: &[BoundTarget], values: &[Value]) -> Result<Items<Value>, Stop>
    ensures { TellsAnywhere result (take_values (map target_of targets.now) values.now) }
{
    let mut taken = Items::new(alloc);
    for place in 0..targets.len() {
        match item_at(targets, place) {
            Some(target) => match item_at(values, place) {
                Some(value) => taken = with_taken(alloc, taken, value, target)?,
                None => return Ok(taken),
            },
            None => return Ok(taken),
        }
    }
    Ok(taken)
}

// The same values in a vector.
pub(crate) fn values_vec(alloc: Global, values: Items<Value>) -> Result<Vec<Value>, NoMemory>
    ensures { IfOk result (λ all. all.items ≡ values) }
{
    let mut left = values;
    let mut all = Vec::with_capacity(alloc, left.len())?;
    while let Some(value) = left.pop() {
        all.push(value)?;
    }
    all.reverse();
    Ok(all)
}

/// Each value is stored in its target, and the statement is at its end (ISO/IEC 9075-2, 4.33).
pub fn store(
    alloc: Global,
    values: Items<Value>,
    targets: &[BoundTarget],
    frame: &mut Frame,
) -> Result<(), NoMemory>
    ensures { OnOk result (frame.new
        ≡ with_diagnostics success 0 (put_in (map target_of targets.now) values frame.old)) }
{
    let values = values_vec(alloc, values)?;
    frame.put(targets, values);
    frame.complete(0);
    Ok(())
}
