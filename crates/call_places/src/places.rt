//! The places that are found, and which of them a call adds to.

ghost use Rattle.std.specs.Prelude.{◌≡◌};
ghost use Rattle.call_places.specs.Found.{one_more as one_more_of, with_call as with_call_of};

use block_plans::Functions;
use planned_queries::callee_planned;
use sql_values::Name;

/// In how many places of its text a query calls what has a plan, and what has none. Each number
/// stands still at 2^64 - 1.
#[derive(Clone, Copy, Debug, PartialEq, Eq)]
pub struct CallPlaces {
    pub inlined: u64,
    pub interpreted: u64,
}

// One more, where it is one.
fn one_more(is_one: bool, count: u64) -> u64
    ensures { result ≡ one_more_of is_one count }
{
    if is_one {
        count.saturating_add(1)
    } else {
        count
    }
}

/// The places with a call of a name with so many arguments.
pub(crate) fn with_call(
    found: CallPlaces,
    functions: &Functions,
    name: &Name,
    arguments: usize,
) -> CallPlaces
    ensures { result ≡ with_call_of functions.now found name.now arguments }
{
    let planned = callee_planned(name, arguments, functions);
    CallPlaces {
        inlined: one_more(planned, found.inlined),
        interpreted: one_more(!planned, found.interpreted),
    }
}
