//! The plans of blocks, and the queries in the bodies of routines whose bodies are statements.

ghost use Rattle.std.specs.Prelude.{◌≡◌, Some, IfOk, IfSome};
ghost use Rattle.block_places.specs.Seen.{IsApart};
ghost use Rattle.block_plans.specs.Blocks.{IsBlock};
ghost use Rattle.kept_queries.specs.Keeping.{ArePlans};
ghost use Rattle.viewing_laws.specs.Standing.{CallsStandBefore};
ghost use Rattle.body_queries.specs.Bodies.{IsFunction, IsProcedure};

use crate::bodies::keep_body;
use crate::calls::add_call;
use block_forms::{forms_are_planned, may_be_planned};
use block_plans::{BlockPlans, Functions};
use bound_trees::BoundStmt;
use catalog_store::{Catalog, FunctionPlan, InterpretedFunction, Procedure};
use kept_queries::{Around, KeptPlans, KeptQuery};
use plan_bodies::plan_block;
use sql_values::{Name, NoMemory};
use sqlite_items::Items;
use std::alloc::Global;
use viewing_laws::routine_is;

/// The plan of a function whose body is a block, and that of its calls, where it may have one and
/// has none yet, so that queries that call it have plans. Its body may call blocks that have plans.
pub(crate) fn keep_block(
    alloc: Global,
    name: &Name,
    function: &InterpretedFunction,
    catalog: &Catalog,
    kept: &mut KeptPlans,
) -> Result<(), NoMemory>
    requires catalog { kept.old ≡ catalog.now }
    requires calls { CallsStandBefore catalog.now }
    requires function { IsFunction catalog.now name.now function.now }
    ensures { kept.new ≡ kept.old }
{
    keep_block_call(alloc, name, function, catalog, kept)?;
    keep_block_plan(alloc, name, function, catalog, kept)
}

// The plan of its calls.
fn keep_block_call(
    alloc: Global,
    name: &Name,
    function: &InterpretedFunction,
    catalog: &Catalog,
    kept: &mut KeptPlans,
) -> Result<(), NoMemory>
    requires catalog { kept.old ≡ catalog.now }
    requires calls { CallsStandBefore catalog.now }
    requires function { IsFunction catalog.now name.now function.now }
    ensures { kept.new ≡ kept.old }
{
    match block_plan(alloc, name, function, catalog, kept.blocks())? {
        Some(plan) => add_call(alloc, name, function.head.parameters.len(), plan, kept),
        None => Ok(()),
    }
}

// Its own plan.
fn keep_block_plan(
    alloc: Global,
    name: &Name,
    function: &InterpretedFunction,
    catalog: &Catalog,
    kept: &mut KeptPlans,
) -> Result<(), NoMemory>
    requires catalog { kept.old ≡ catalog.now }
    requires calls { CallsStandBefore catalog.now }
    requires function { IsFunction catalog.now name.now function.now }
    ensures { kept.new ≡ kept.old }
{
    match block_plan(alloc, name, function, catalog, kept.blocks())? {
        Some(plan) => add_block(alloc, name, function, plan, kept),
        None => Ok(()),
    }
}

// A block more.
fn add_block(
    alloc: Global,
    name: &Name,
    function: &InterpretedFunction,
    plan: FunctionPlan,
    kept: &mut KeptPlans,
) -> Result<(), NoMemory>
    requires { IsBlock kept.old name.now
        (record { parameters = function.now.head.parameters; plan = Some plan }) }
    ensures { kept.new ≡ kept.old }
{
    let types = Items::from_slice(alloc, function.head.parameters.as_slice())?;
    let name = name.copied()?;
    kept.add_block(name, types, plan)
}

// The plan of a block that has none yet, where it may have one.
fn block_plan(
    alloc: Global,
    name: &Name,
    function: &InterpretedFunction,
    catalog: &Catalog,
    blocks: &BlockPlans,
) -> Result<Option<FunctionPlan>, NoMemory>
    requires blocks { blocks.now.known ≡ catalog.now }
    requires calls { CallsStandBefore catalog.now }
    requires function { IsFunction catalog.now name.now function.now }
    ensures { IfOk result (λ made. IfSome made (λ plan. IsBlock catalog.now name.now
        (record { parameters = function.now.head.parameters; plan = Some plan }))) }
{
    routine_is();
    let _entries = catalog.len();
    match blocks.get(name, function.head.parameters.len()) {
        Some(_) => Ok(None),
        None => {
            let functions = Functions::with_blocks(catalog, blocks);
            apart_plan(alloc, name, function, &functions)
        }
    }
}

// The plan of a block that no call runs, where it may have one.
fn apart_plan(
    alloc: Global,
    name: &Name,
    function: &InterpretedFunction,
    functions: &Functions,
) -> Result<Option<FunctionPlan>, NoMemory>
    requires apart { IsApart functions.now name.now }
    requires calls { CallsStandBefore functions.now.known }
    requires function { IsFunction functions.now.known name.now function.now }
    ensures { IfOk result (λ made. IfSome made (λ plan. IsBlock functions.now.known name.now
        (record { parameters = function.now.head.parameters; plan = Some plan }))) }
{
    routine_is();
    forms_are_planned();
    let _entries = functions.catalog().len();
    if !may_be_planned(function, functions) {
        return Ok(None);
    }
    let parameters = function.head.parameters.as_slice();
    let plan = plan_block(
        alloc,
        parameters,
        function.head.returns,
        function.null_call,
        &function.body,
        functions,
    )?;
    Ok(Some(plan))
}

// The queries in the body of a routine that no call of a query runs.
fn keep_apart(
    alloc: Global,
    name: &Name,
    body: &BoundStmt,
    parameters: usize,
    functions: &Functions,
) -> Result<Items<KeptQuery>, NoMemory>
    requires { IsApart functions.now name.now }
    ensures { IfOk result (λ kept. ArePlans functions.now.known (Some name.now) kept) }
{
    let around = Around {
        functions,
        own: Some(name),
    };
    keep_body(alloc, body, parameters, &around)
}

/// Those in the body of a function. In that of a block with a plan each call runs what has one in
/// the catalog.
pub(crate) fn in_function(
    alloc: Global,
    name: &Name,
    function: &InterpretedFunction,
    catalog: &Catalog,
    blocks: &BlockPlans,
) -> Result<Items<KeptQuery>, NoMemory>
    requires blocks { blocks.now.known ≡ catalog.now }
    requires calls { CallsStandBefore catalog.now }
    requires function { IsFunction catalog.now name.now function.now }
    ensures { IfOk result (λ kept. ArePlans catalog.now (Some name.now) kept) }
{
    routine_is();
    let _entries = catalog.len();
    let parameters = function.head.parameters.len();
    match blocks.get(name, parameters) {
        Some(_) => {
            let functions = Functions::of(catalog);
            keep_apart(alloc, name, &function.body, parameters, &functions)
        }
        None => {
            let functions = Functions::with_blocks(catalog, blocks);
            keep_apart(alloc, name, &function.body, parameters, &functions)
        }
    }
}

/// Those in the body of a procedure, which no query calls.
pub(crate) fn in_procedure(
    alloc: Global,
    name: &Name,
    procedure: &Procedure,
    catalog: &Catalog,
    blocks: &BlockPlans,
) -> Result<Items<KeptQuery>, NoMemory>
    requires blocks { blocks.now.known ≡ catalog.now }
    requires calls { CallsStandBefore catalog.now }
    requires procedure { IsProcedure catalog.now name.now procedure.now }
    ensures { IfOk result (λ kept. ArePlans catalog.now (Some name.now) kept) }
{
    routine_is();
    let _entries = catalog.len();
    let functions = Functions::with_blocks(catalog, blocks);
    let parameters = procedure.head.parameters.len();
    keep_apart(alloc, name, &procedure.body, parameters, &functions)
}
