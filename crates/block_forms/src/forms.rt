//! Whether a function whose body is a block may have a plan.

ghost use Rattle.std.specs.Prelude.{◌≡◌};
ghost use Rattle.catalog_store.specs.Entries.{interpreted_of};
ghost use Rattle.block_forms.specs.Forms as spec;

use crate::filled::filled;
use block_plans::Functions;
use catalog_store::InterpretedFunction;
use region_trees::in_form;

/// Whether a plan may stand in the place of a function's body: whether it doesn't call itself
/// (ISO/IEC 9075-2, 11.60), and its body is in form, not too heavy, and has as many columns as
/// targets in each SELECT INTO. Takes no memory.
pub fn may_be_planned(function: &InterpretedFunction, functions: &Functions) -> bool
    ensures { result ≡ spec.may_be_planned functions.now (interpreted_of function.now) }
{
    !function.self_calling
        && in_form(&function.body, functions)
        && filled(&function.body, functions)
}
