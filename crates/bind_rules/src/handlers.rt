//! What is asked of handlers: where UNDO stands, and that none waits for what another does (ISO/IEC
//! 9075-4, 14.2).

ghost use Rattle.std.specs.Prelude.{◌≡◌};
ghost use Rattle.std.specs.List.{list_any};
ghost use Rattle.bind_faults.specs.Faults.{noted};
ghost use Rattle.bind_rules.specs.Handlers as spec;

use bind_faults::{Fault, FaultKind, note_if};
use bound_trees::{BoundConditionValue, BoundHandler};
use sql_conditions::SqlState;
use statement_trees::HandlerType;
use syntax_trees::Anchor;

fn is_undo(handler: HandlerType) -> bool
    ensures { result ≡ spec.is_undo handler }
{
    match handler {
        HandlerType::Undo => true,
        HandlerType::Continue | HandlerType::Exit => false,
    }
}

/// UNDO in a compound statement that is not ATOMIC.
pub fn note_undo(at: Anchor, handler: HandlerType, atomic: bool, least: &mut Option<Fault>)
    ensures { least.new ≡ noted least.old (spec.undo_faults at handler atomic) }
{
    let barred = is_undo(handler) && !atomic;
    note_if(barred, FaultKind::NotPermitted, at, least);
}

fn is_state(state: &SqlState, value: &BoundConditionValue) -> bool
    ensures { result ≡ spec.is_state state.now value.now }
{
    match value {
        BoundConditionValue::State(other) => state.is(other),
        BoundConditionValue::SqlException => false,
        BoundConditionValue::SqlWarning => false,
        BoundConditionValue::NotFound => false,
    }
}

// Whether two values are one.
fn same_value(one: &BoundConditionValue, other: &BoundConditionValue) -> bool
    ensures { result ≡ spec.same_value one.now other.now }
{
    match one {
        BoundConditionValue::State(state) => is_state(state, other),
        BoundConditionValue::SqlException => match other {
            BoundConditionValue::SqlException => true,
            _ => false,
        },
        BoundConditionValue::SqlWarning => match other {
            BoundConditionValue::SqlWarning => true,
            _ => false,
        },
        BoundConditionValue::NotFound => match other {
            BoundConditionValue::NotFound => true,
            _ => false,
        },
    }
}

fn is_among(value: &BoundConditionValue, values: &[BoundConditionValue]) -> bool
    ensures { result ≡ list_any (spec.same_value value.now) values.now }
{
    values.iter().any(|other| same_value(value, other))
}

// Whether a handler waits for a value already.
fn any_waits(value: &BoundConditionValue, handlers: &[BoundHandler]) -> bool
    ensures { result ≡ spec.any_waits value.now handlers.now }
{
    handlers
        .iter()
        .any(|handler| is_among(value, handler.values.as_slice()))
}

/// A value for which a handler of the compound statement waits already, or this one does.
pub fn note_twice(
    value: &BoundConditionValue,
    at: Anchor,
    handlers: &[BoundHandler],
    before: &[BoundConditionValue],
    least: &mut Option<Fault>,
)
    ensures { least.new ≡ noted least.old (spec.twice_faults value.now at handlers.now before.now) }
{
    let twice = any_waits(value, handlers) || is_among(value, before);
    note_if(twice, FaultKind::DuplicateName, at, least);
}
