//! RETURNS NULL ON NULL INPUT as a CASE over the parameters (ISO/IEC 9075-2, 6.12 and 10.4): a
//! function whose body is one RETURN has so a body that says by itself when it is NULL.
#![tactic(auto)]

ghost use Rattle.null_guards.specs.Examples.{NullCalls};
ghost use Rattle.null_guards.specs.Laws.{GuardsArePlanned, GuardsAreSeen, GuardsUseNothing};
ghost use Rattle.null_guards.specs.Laws.{GuardsKeepKinds, NullCallsMean};

mod guard;

pub use guard::guarded;

/// A function of one RETURN that returns NULL on NULL input is the one of the CASE, which is called
/// on NULL too.
pub fn null_calls_mean()
    ensures { NullCallsMean }
{}

/// The bound CASE stands for the plain one.
pub fn guards_are_seen()
    ensures { GuardsAreSeen }
{}

/// The CASE has a plan where the expression in it has one.
pub fn guards_are_planned()
    ensures { GuardsArePlanned }
{}

/// The CASE uses what the expression in it uses.
pub fn guards_use_nothing()
    ensures { GuardsUseNothing }
{}

/// The CASE is of the kind of the expression in it, wherever the parameters have slots.
pub fn guards_keep_kinds()
    ensures { GuardsKeepKinds }
{}

/// NULL in either of two arguments gives NULL, and the body is not evaluated.
pub fn null_calls()
    ensures { NullCalls }
{}
