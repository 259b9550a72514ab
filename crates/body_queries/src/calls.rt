//! The plans of calls of functions, by the functions' own plans.

ghost use Rattle.std.specs.Prelude.{◌≡◌};
ghost use Rattle.body_queries.specs.Bodies.{HasOwnPlan, IsReturning};

use call_plans::call_plan;
use catalog_store::{Catalog, FunctionPlan, RoutineRecord};
use kept_queries::KeptPlans;
use plan_queries::plan_function;
use sql_values::{Name, NoMemory};
use std::alloc::Global;
use viewing_laws::routine_is;

/// The plan of the calls of a function more, which takes so many parameters, by its own plan.
pub(crate) fn add_call(
    alloc: Global,
    name: &Name,
    parameters: usize,
    plan: FunctionPlan,
    kept: &mut KeptPlans,
) -> Result<(), NoMemory>
    requires { HasOwnPlan kept.old name.now parameters plan }
    ensures { kept.new ≡ kept.old }
{
    let call = call_plan(alloc, plan, parameters)?;
    let name = name.copied()?;
    kept.add_call(name, call)
}

/// That of a function that only returns an expression.
pub(crate) fn keep_function_call(
    alloc: Global,
    name: &Name,
    function: &RoutineRecord,
    catalog: &Catalog,
    kept: &mut KeptPlans,
) -> Result<(), NoMemory>
    requires catalog { kept.old ≡ catalog.now }
    requires function { IsReturning catalog.now name.now function.now }
    ensures { kept.new ≡ kept.old }
{
    routine_is();
    let _entries = catalog.len();
    let parameters = function.head.parameters.len();
    match function.body.tree() {
        Some(returned) => {
            let returns = function.head.returns;
            let plan = plan_function(alloc, returned, parameters, returns, catalog)?;
            add_call(alloc, name, parameters, plan, kept)
        }
        None => Ok(()),
    }
}
