//! The plan of a block.

ghost use Rattle.std.specs.Prelude.{◌≡◌, Some, IfOk, IfSome, is_some};
ghost use Rattle.catalog_store.specs.Entries.{interpreted_of};
ghost use Rattle.viewing_laws.specs.Standing.{CallsStandBefore};
ghost use Rattle.block_plans.specs.Blocks.{IsBlock};
ghost use Rattle.block_places.specs.Seen.{IsApart};
ghost use Rattle.block_forms.specs.Forms.{may_be_planned as may_by};
ghost use Rattle.called_blocks.specs.Planned.{IsFunction};

use block_forms::{forms_are_planned, may_be_planned};
use block_plans::Functions;
use catalog_store::{FunctionPlan, InterpretedFunction};
use plan_bodies::plan_block;
use sql_values::{Name, NoMemory};
use std::alloc::Global;
use viewing_laws::routine_is;

/// The plan of a block that no call runs yet, where it may have one: that of its body, whose calls
/// run what has plans here (ISO/IEC 9075-2, 10.4). It can fail for want of memory alone.
pub(crate) fn block_plan(
    alloc: Global,
    name: &Name,
    function: &InterpretedFunction,
    functions: &Functions,
) -> Result<Option<FunctionPlan>, NoMemory>
    requires apart { IsApart functions.now name.now }
    requires calls { CallsStandBefore functions.now.known }
    requires function { IsFunction functions.now.known name.now function.now }
    ensures may { IfOk result (λ made. is_some made ≡
        may_by functions.now (interpreted_of function.now)) }
    ensures block { IfOk result (λ made. IfSome made (λ plan. IsBlock functions.now.known name.now
        (record { parameters = function.now.head.parameters; plan = Some plan }))) }
{
    routine_is();
    forms_are_planned();
    let _entries = functions.catalog().len();
    if !may_be_planned(function, functions) {
        return Ok(None);
    }
    let parameters = function.head.parameters.as_slice();
    let returns = function.head.returns;
    let null_call = function.null_call;
    let body = &function.body;
    let plan = plan_block(alloc, parameters, returns, null_call, body, functions)?;
    Ok(Some(plan))
}
