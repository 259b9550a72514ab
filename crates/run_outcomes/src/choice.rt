//! Which handler takes a condition.

ghost use Rattle.std.specs.Prelude.{◌≡◌, [], ◌∷◌, ◌++◌, IfOk, IfSome, map};
ghost use Rattle.std.specs.List.{list_any};
ghost use Rattle.std.specs.Option.{option_copied};
ghost use Rattle.sql_conditions.specs.Conditions.{Area};
ghost use Rattle.bound_trees.specs.declared.statement.BoundHandler.{BoundHandler as Handler};
ghost use Rattle.rel_algebra.specs.Doing.{Doing};
ghost use Rattle.rel_algebra.specs.Handlers.{best, best_here, first_with};
ghost use Rattle.rel_algebra.specs.States as spec;
ghost use Rattle.routine_views.specs.Views.{condition_value};
ghost use Rattle.run_outcomes.specs.Scopes.{Acts, handling_by, mapped, scopes_by, chosen_by};
ghost use Rattle.run_outcomes.specs.Scopes.{StandsIn, AmongThem, met_by, taking};

use bound_trees::{BoundConditionValue, BoundHandler, BoundQuery};
use smallvec::SmallVec;
use sql_conditions::{Class, SqlState};
use sql_values::NoMemory;
use std::alloc::Global;

/// The handlers of a compound statement around a statement, the queries of the cursors that its
/// actions see, how many compound statements and loops are around it, and how many variables and
/// cursors its actions see.
#[derive(Clone, Copy, Default)]
pub struct Scope<'a> {
    pub handlers: &'a [BoundHandler],
    pub queries: &'a [&'a BoundQuery],
    pub level: usize,
    pub variables: usize,
    pub cursors: usize,
}

/// A handler with its compound statement, and how many are outside of that one.
#[derive(Clone, Copy)]
pub struct Chosen<'a> {
    pub handler: &'a BoundHandler,
    pub scope: Scope<'a>,
    pub outer: usize,
}

/// Compound statements, and inside them one more. Up to eight take no memory.
pub fn with_scope<'a>(
    alloc: Global,
    outer: &[Scope<'a>],
    own: Scope<'a>,
) -> Result<SmallVec<Scope<'a>, 8>, NoMemory>
    ensures { IfOk result (λ v. v.items ≡ outer.now ++ own.entry ∷ []) }
{
    let mut scopes = SmallVec::new(alloc);
    for scope in outer {
        scopes.push(*scope)?;
    }
    scopes.push(own)?;
    Ok(scopes)
}

// How a handler takes a state: by its name, or by its class.
#[derive(Clone, Copy)]
enum Manner {
    ByName,
    ByClass,
}

// Whether what a handler waits for is the class of a state.
fn covers(state: &SqlState, value: &BoundConditionValue) -> bool
    ensures { result ≡ spec.covers (condition_value value.now) state.now }
{
    match (value, state.class()) {
        (BoundConditionValue::SqlException, Class::Exception) => true,
        (BoundConditionValue::SqlWarning, Class::Warning) => true,
        (BoundConditionValue::NotFound, Class::NoData) => true,
        _ => false,
    }
}

// Whether what a handler waits for is a state, in this manner.
fn is_met(manner: Manner, state: &SqlState, value: &BoundConditionValue) -> bool
    ensures { result ≡ met_by manner (condition_value value.now) state.now }
{
    match (manner, value) {
        (Manner::ByName, BoundConditionValue::State(named)) => named.is(state),
        (Manner::ByName, _) => false,
        (Manner::ByClass, value) => covers(state, value),
    }
}

// Whether anything that a handler waits for is a state, in this manner.
fn any_met(manner: Manner, state: &SqlState, values: &[BoundConditionValue]) -> bool
    ensures { result ≡ list_any (λ v. met_by manner v state.now) (map condition_value values.now) }
{
    for value in values {
        if is_met(manner, state, value) {
            return true;
        }
    }
    false
}

// Whether a handler takes a state in this manner.
fn takes(manner: Manner, state: &SqlState, handler: &BoundHandler) -> bool
    ensures { result ≡ taking manner state.now handler.now }
{
    any_met(manner, state, handler.values.as_slice())
}

// The first handler that takes a state in this manner.
fn first<'a>(
    manner: Manner,
    state: &SqlState,
    handlers: &'a [BoundHandler],
) -> Option<&'a BoundHandler>
    ensures { option_copied result ≡ first_with (taking manner state.now) handlers.now }
{
    for handler in handlers {
        if takes(manner, state, handler) {
            return Some(handler);
        }
    }
    None
}

/// The handler of one compound statement that takes a state (ISO/IEC 9075-4, 14.2): one that names
/// it goes before a general one. The clause speaks of each way to give the handlers their actions.
pub fn choose_here<'a>(state: &SqlState, handlers: &'a [BoundHandler]) -> Option<&'a BoundHandler>
    ensures best { (action : Handler → Area → Doing) →
        best_here state.now (map (handling_by action) handlers.now)
        ≡ mapped (handling_by action) (option_copied result) }
    ensures stands { IfSome result (λ h. AmongThem handlers.now h.now) }
{
    match first(Manner::ByName, state, handlers) {
        Some(handler) => Some(handler),
        None => first(Manner::ByClass, state, handlers),
    }
}

/// The handler that takes a state among those of the compound statements around a statement, of
/// which the innermost stands last: the innermost compound statement with a matching one is taken.
/// The clause speaks of each way to give the handlers their actions.
pub fn choose<'a>(state: &SqlState, scopes: &[Scope<'a>]) -> Option<Chosen<'a>>
    ensures best { (acts : Acts) → best state.now (scopes_by acts scopes.now)
        ≡ chosen_by acts scopes.now result }
    ensures stands { IfSome result (λ c. StandsIn scopes.now c) }
{
    let mut outer = scopes.len();
    while 0 < outer {
        outer -= 1;
        let scope = scopes[outer];
        if let Some(handler) = choose_here(state, scope.handlers) {
            return Some(Chosen {
                handler,
                scope,
                outer,
            });
        }
    }
    None
}
