//! Handlers, but for their actions (ISO/IEC 9075-4, 14.2).

ghost use Rattle.std.specs.Prelude.{◌≡◌, map, IfOk, OnOk};
ghost use Rattle.bind_faults.specs.Faults.{noted};
ghost use Rattle.bind_simple.specs.Places.{place_by};
ghost use Rattle.bind_declarations.specs.Declarations as spec;

use bind_faults::Fault;
use bind_rules::note_twice;
use bind_simple::{Surroundings, note_condition, note_state, state_named, state_of};
use bound_trees::{BoundConditionValue, BoundHandler, BoundHandlerType, BoundStmt};
use sql_values::NoMemory;
use sqlite_items::{Boxed, Items};
use statement_trees::{ConditionValue, HandlerType};
use std::alloc::Global;
use syntax_trees::Anchor;

fn type_of_handler(handler: HandlerType) -> BoundHandlerType
    ensures { result ≡ spec.type_of_handler handler }
{
    match handler {
        HandlerType::Continue => BoundHandlerType::Continue,
        HandlerType::Exit => BoundHandlerType::Exit,
        HandlerType::Undo => BoundHandlerType::Undo,
    }
}

fn value_of(value: &ConditionValue, place: &Surroundings<'_>) -> BoundConditionValue
    ensures { result ≡ spec.value_of (place_by place.now) value.now }
{
    match value {
        ConditionValue::Sqlstate(_, state) => BoundConditionValue::State(state_of(state)),
        ConditionValue::Condition(ident) => BoundConditionValue::State(state_named(ident, place)),
        ConditionValue::SqlException(_) => BoundConditionValue::SqlException,
        ConditionValue::SqlWarning(_) => BoundConditionValue::SqlWarning,
        ConditionValue::NotFound(_) => BoundConditionValue::NotFound,
    }
}

fn anchor_of_value(value: &ConditionValue) -> Anchor
    ensures { result ≡ spec.anchor_of_value value.now }
{
    match value {
        ConditionValue::Sqlstate(at, _) => *at,
        ConditionValue::Condition(ident) => ident.anchor,
        ConditionValue::SqlException(at) => *at,
        ConditionValue::SqlWarning(at) => *at,
        ConditionValue::NotFound(at) => *at,
    }
}

fn note_own(value: &ConditionValue, place: &Surroundings<'_>, least: &mut Option<Fault>)
    ensures { least.new ≡ noted least.old (spec.own_faults (place_by place.now) value.now) }
{
    match value {
        ConditionValue::Sqlstate(_, state) => note_state(state, least),
        ConditionValue::Condition(ident) => note_condition(ident, place, least),
        ConditionValue::SqlException(_) => {}
        ConditionValue::SqlWarning(_) => {}
        ConditionValue::NotFound(_) => {}
    }
}

/// What a handler waits for. Each is a state or a condition in sight, and none stands twice in the
/// handlers of a compound statement.
pub fn bind_values(
    alloc: Global,
    values: &[ConditionValue],
    handlers: &[BoundHandler],
    place: &Surroundings<'_>,
    least: &mut Option<Fault>,
) -> Result<Items<BoundConditionValue>, NoMemory>
    ensures value { IfOk result (λ vs. vs ≡ map (spec.value_of (place_by place.now)) values.now) }
    ensures faults { OnOk result (least.new ≡ noted least.old
        (spec.values_faults (place_by place.now) handlers.now values.now)) }
{
    let mut bound = Items::new(alloc);
    for value in values {
        note_own(value, place, least);
        let one = value_of(value, place);
        note_twice(
            &one,
            anchor_of_value(value),
            handlers,
            bound.as_slice(),
            least,
        );
        bound.push(one)?;
    }
    Ok(bound)
}

/// A handler of what it waits for and its action.
pub fn handler_of(
    alloc: Global,
    handler: HandlerType,
    values: Items<BoundConditionValue>,
    action: BoundStmt,
) -> Result<BoundHandler, NoMemory>
    ensures { IfOk result (λ h. h ≡ spec.handler_of handler values action) }
{
    let action = Boxed::new(alloc, action)?;
    Ok(BoundHandler {
        handler_type: type_of_handler(handler),
        values,
        action,
    })
}
