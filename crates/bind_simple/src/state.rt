//! SQLSTATE values and conditions.

ghost use Rattle.std.specs.Prelude.{◌≡◌};
ghost use Rattle.bind_faults.specs.Faults.{noted};
ghost use Rattle.bind_simple.specs.Places.{place_by};
ghost use Rattle.bind_simple.specs.States as spec;

use crate::place::Surroundings;
use bind_faults::{Fault, FaultKind, note_if};
use bind_names::condition_named;
use sql_conditions::{Class, SqlState};
use sql_values::Text;
use statement_trees::SqlstateValue;
use syntax_trees::Ident;

fn state_spelled(text: &Text) -> Option<SqlState>
    ensures { result ≡ spec.state_spelled text.now }
{
    SqlState::parse(text.as_str())
}

// Each class but 00.
fn may_be_raised(class: Class) -> bool
    ensures { result ≡ spec.may_be_raised class }
{
    match class {
        Class::Success => false,
        Class::Warning | Class::NoData | Class::Exception => true,
    }
}

fn is_raisable(state: Option<SqlState>) -> bool
    ensures { result ≡ spec.is_raisable state }
{
    match state {
        Some(state) => may_be_raised(state.class()),
        None => false,
    }
}

/// A text that is no SQLSTATE, or one of class 00.
pub fn note_state(state: &SqlstateValue, least: &mut Option<Fault>)
    ensures { least.new ≡ noted least.old (spec.state_faults state.now) }
{
    let wrong = !is_raisable(state_spelled(&state.text));
    note_if(wrong, FaultKind::NotPermitted, state.anchor, least);
}

/// A condition that is not in sight.
pub fn note_condition(ident: &Ident, place: &Surroundings<'_>, least: &mut Option<Fault>)
    ensures { least.new ≡ noted least.old (spec.faults_of_condition ident.now (place_by place.now)) }
{
    let unknown = condition_named(&ident.name, place.scopes).is_none();
    note_if(unknown, FaultKind::UnknownName, ident.anchor, least);
}

fn or_success(state: Option<SqlState>) -> SqlState
    ensures { result ≡ spec.or_success state }
{
    match state {
        Some(state) => state,
        None => SqlState::known(*b"00000"),
    }
}

/// The state of a text; of one that spells none, 00000.
pub fn state_of(state: &SqlstateValue) -> SqlState
    ensures { result ≡ spec.state_of state.now }
{
    or_success(state_spelled(&state.text))
}

/// The state of a condition; of one that is not in sight, 00000.
pub fn state_named(ident: &Ident, place: &Surroundings<'_>) -> SqlState
    ensures { result ≡ spec.state_named ident.now (place_by place.now) }
{
    or_success(condition_named(&ident.name, place.scopes))
}
