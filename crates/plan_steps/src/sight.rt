//! The handlers in sight of a statement.

ghost use Rattle.std.specs.Prelude.{◌≡◌, ◌||◌, if◌then◌else◌, IfOk};
ghost use Rattle.block_plans.specs.Callees.{Callees};
ghost use Rattle.rel_algebra.specs.BodyDispatch.{count, has_continue as has_by, is_continue};
ghost use Rattle.routine_views.specs.Views.{handler_type as type_of};
ghost use Rattle.plan_steps.specs.Places.{any_continues, codes_in};

use bound_trees::{BoundHandler, BoundHandlerType};
use sql_values::NoMemory;

/// The handlers of a compound statement, how many compound statements are around it, and how many
/// variables its actions see.
#[derive(Clone, Copy)]
pub struct Scope<'a> {
    pub handlers: &'a [BoundHandler],
    pub level: usize,
    pub variables: usize,
}

/// The compound statements whose handlers are in sight, the innermost first.
#[derive(Drop)]
pub enum Sight<'a> {
    /// None.
    Nothing,
    /// One, and those around it.
    Scope(Scope<'a>, &'a Sight<'a>),
}

/// How many handlers are in sight.
pub fn handler_count(sight: &Sight) -> Result<usize, NoMemory>
    ensures { IfOk result (λ n. (known : Callees) → n ≡ count (codes_in known sight.now)) }
{
    match sight {
        Sight::Nothing => Ok(0),
        Sight::Scope(scope, outer) => {
            let others = handler_count(outer)?;
            match scope.handlers.len().checked_add(others) {
                Some(number) => Ok(number),
                None => Err(NoMemory),
            }
        }
    }
}

/// Whether a handler goes on where the condition was raised.
pub fn goes_on(handler_type: BoundHandlerType) -> bool
    ensures { result ≡ is_continue (type_of handler_type) }
{
    match handler_type {
        BoundHandlerType::Continue => true,
        BoundHandlerType::Exit => false,
        BoundHandlerType::Undo => false,
    }
}

/// Whether the action of a handler is put: of any, or where it goes on.
pub fn acts(all: bool, handler_type: BoundHandlerType) -> bool
    ensures { result ≡ (all || is_continue (type_of handler_type)) }
{
    all || goes_on(handler_type)
}

// Whether one of these does.
fn any_goes_on(handlers: &[BoundHandler]) -> bool
    ensures { result ≡ any_continues handlers.now }
{
    for handler in handlers {
        if goes_on(handler.handler_type) {
            return true;
        }
    }
    false
}

/// Whether one in sight does.
pub fn has_continue(sight: &Sight) -> bool
    ensures { (known : Callees) → result ≡ has_by (codes_in known sight.now) }
{
    match sight {
        Sight::Nothing => false,
        Sight::Scope(scope, outer) => any_goes_on(scope.handlers) || has_continue(outer),
    }
}

/// Inside an ATOMIC compound statement the handlers outside of it are not seen, but nothing.
pub fn seen_outside<'a>(atomic: bool, sight: &'a Sight<'a>, nothing: &'a Sight<'a>) -> &'a Sight<'a>
    ensures { result.now ≡ (if atomic then nothing.now else sight.now) }
{
    if atomic { nothing } else { sight }
}
