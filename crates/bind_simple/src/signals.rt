//! SIGNAL and RESIGNAL (ISO/IEC 9075-4, 17.2 and 17.3).

ghost use Rattle.std.specs.Prelude.{◌≡◌, IfOk, OnOk};
ghost use Rattle.bind_faults.specs.Faults.{noted, taken};
ghost use Rattle.bind_simple.specs.Places.{place_by};
ghost use Rattle.bind_simple.specs.States as spec;

use crate::place::Surroundings;
use crate::state::{note_condition, note_state, state_named, state_of};
use crate::target::bind_of_kind;
use bind_faults::{Fault, Notes};
use bind_kinds::Kind;
use bound_trees::{BoundExpr, BoundResignal, BoundSignal};
use sql_conditions::SqlState;
use sql_values::NoMemory;
use statement_trees::{Resignal, Signal, SignalValue};
use std::alloc::Global;
use syntax_trees::Expr;

fn note_raised(value: &SignalValue, place: &Surroundings<'_>, least: &mut Option<Fault>)
    ensures { least.new ≡ noted least.old (spec.raised_faults value.now (place_by place.now)) }
{
    match value {
        SignalValue::Sqlstate(state) => note_state(state, least),
        SignalValue::Condition(ident) => note_condition(ident, place, least),
    }
}

fn state_raised(value: &SignalValue, place: &Surroundings<'_>) -> SqlState
    ensures { result ≡ spec.state_raised value.now (place_by place.now) }
{
    match value {
        SignalValue::Sqlstate(state) => state_of(state),
        SignalValue::Condition(ident) => state_named(ident, place),
    }
}

// The text of MESSAGE_TEXT.
fn bind_message(
    alloc: Global,
    message: &Option<Expr>,
    place: &Surroundings<'_>,
    notes: &mut Notes,
) -> Result<Option<BoundExpr>, NoMemory>
    ensures value { IfOk result (λ m. m ≡ (spec.judged_message message.now (place_by place.now)).value) }
    ensures notes { OnOk result (notes.new ≡ taken notes.old
        (spec.judged_message message.now (place_by place.now))) }
{
    match message {
        Some(expr) => {
            let text = bind_of_kind(alloc, Kind::Text, expr, place, notes)?;
            Ok(Some(text))
        }
        None => Ok(None),
    }
}

/// A SIGNAL with its names resolved.
pub fn bind_signal(
    alloc: Global,
    signal: &Signal,
    place: &Surroundings<'_>,
    notes: &mut Notes,
) -> Result<BoundSignal, NoMemory>
    ensures value { IfOk result (λ b. b ≡ (spec.judged_signal signal.now (place_by place.now)).value) }
    ensures notes { OnOk result (notes.new ≡ taken notes.old
        (spec.judged_signal signal.now (place_by place.now))) }
{
    note_raised(&signal.value, place, &mut notes.least);
    let state = state_raised(&signal.value, place);
    let message = bind_message(alloc, &signal.message, place, notes)?;
    Ok(BoundSignal { state, message })
}

fn note_again(value: &Option<SignalValue>, place: &Surroundings<'_>, least: &mut Option<Fault>)
    ensures { least.new ≡ noted least.old (spec.again_faults value.now (place_by place.now)) }
{
    if let Some(value) = value {
        note_raised(value, place, least);
    }
}

fn state_again(value: &Option<SignalValue>, place: &Surroundings<'_>) -> Option<SqlState>
    ensures { result ≡ spec.state_again value.now (place_by place.now) }
{
    match value {
        Some(value) => Some(state_raised(value, place)),
        None => None,
    }
}

/// A RESIGNAL with its names resolved.
pub fn bind_resignal(
    alloc: Global,
    resignal: &Resignal,
    place: &Surroundings<'_>,
    notes: &mut Notes,
) -> Result<BoundResignal, NoMemory>
    ensures value { IfOk result (λ b. b ≡ (spec.judged_resignal resignal.now (place_by place.now)).value) }
    ensures notes { OnOk result (notes.new ≡ taken notes.old
        (spec.judged_resignal resignal.now (place_by place.now))) }
{
    note_again(&resignal.value, place, &mut notes.least);
    let state = state_again(&resignal.value, place);
    let message = bind_message(alloc, &resignal.message, place, notes)?;
    Ok(BoundResignal { state, message })
}
