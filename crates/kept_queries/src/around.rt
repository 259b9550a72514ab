//! What stands around queries whose plans are kept.

ghost use Rattle.kept_queries.specs.Apart.{AreApart, apart-prop};

use block_plans::Functions;
use sql_values::Name;

/// What stands around queries whose plans are kept: what their calls run, and the routine in whose
/// body they are, if they are in one, by its name. No call runs that routine.
#[derive(Clone, Copy)]
pub struct Around<'a> {
    pub functions: &'a Functions<'a>,
    pub own: Option<&'a Name>,
    ghost apart: { AreApart functions.now own } by { apart-prop functions.now own },
}
