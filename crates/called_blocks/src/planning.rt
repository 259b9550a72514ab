//! The plans of the blocks among some names, each by those before it.

ghost use Rattle.std.specs.Prelude.{◌≡◌, Some, IfOk, IfSome, OnOk, is_some, if◌then◌else◌};
ghost use Rattle.viewing_laws.specs.Standing.{CallsStandBefore};
ghost use Rattle.block_plans.specs.Blocks.{IsBlock, with_name};
ghost use Rattle.called_names.specs.Called.{held};
ghost use Rattle.called_blocks.specs.Planned.{IsFunction, all_planned, planned_among, planning};
ghost use Rattle.called_blocks.specs.Planned.{with_block};

use crate::making::block_plan;
use block_plans::{BlockPlans, Functions};
use bound_trees::BoundQuery;
use called_names::reached;
use catalog_store::{Catalog, FunctionPlan, InterpretedFunction, Object};
use sql_values::{Name, NoMemory};
use sqlite_items::Items;
use std::alloc::Global;
use viewing_laws::routine_is;

// The plan of a block that has none yet, where it may have one.
fn missing_plan(
    alloc: Global,
    name: &Name,
    function: &InterpretedFunction,
    catalog: &Catalog,
    blocks: &BlockPlans,
) -> Result<Option<FunctionPlan>, NoMemory>
    requires blocks { blocks.now.known ≡ catalog.now }
    requires calls { CallsStandBefore catalog.now }
    requires function { IsFunction catalog.now name.now function.now }
    ensures more { IfOk result (λ made. with_block catalog.now name.now blocks.now.blocks ≡
        (if is_some made then with_name name.now blocks.now.blocks else blocks.now.blocks)) }
    ensures block { IfOk result (λ made. IfSome made (λ plan. IsBlock blocks.now.known name.now
        (record { parameters = function.now.head.parameters; plan = Some plan }))) }
{
    routine_is();
    let _entries = catalog.len();
    match blocks.get(name, function.head.parameters.len()) {
        Some(_) => Ok(None),
        None => {
            let functions = Functions::with_blocks(catalog, blocks);
            block_plan(alloc, name, function, &functions)
        }
    }
}

// A block more.
fn add_block(
    alloc: Global,
    name: &Name,
    function: &InterpretedFunction,
    plan: FunctionPlan,
    blocks: &mut BlockPlans,
) -> Result<(), NoMemory>
    requires block { IsBlock blocks.old.known name.now
        (record { parameters = function.now.head.parameters; plan = Some plan }) }
    ensures known { blocks.new.known ≡ blocks.old.known }
    ensures more { OnOk result (blocks.new.blocks ≡ with_name name.now blocks.old.blocks) }
{
    let types = Items::from_slice(alloc, function.head.parameters.as_slice())?;
    blocks.add(name.copied()?, types, plan)
}

// The plan of a block, where it has none yet and may have one.
fn plan_function(
    alloc: Global,
    name: &Name,
    function: &InterpretedFunction,
    catalog: &Catalog,
    blocks: &mut BlockPlans,
) -> Result<(), NoMemory>
    requires blocks { blocks.old.known ≡ catalog.now }
    requires calls { CallsStandBefore catalog.now }
    requires function { IsFunction catalog.now name.now function.now }
    ensures known { blocks.new.known ≡ blocks.old.known }
    ensures more { OnOk result (blocks.new.blocks ≡
        with_block catalog.now name.now blocks.old.blocks) }
{
    match missing_plan(alloc, name, function, catalog, &*blocks)? {
        Some(plan) => add_block(alloc, name, function, plan, blocks),
        None => Ok(()),
    }
}

// The same of what a name stands for.
fn plan_named(
    alloc: Global,
    name: &Name,
    catalog: &Catalog,
    blocks: &mut BlockPlans,
) -> Result<(), NoMemory>
    requires blocks { blocks.old.known ≡ catalog.now }
    requires calls { CallsStandBefore catalog.now }
    ensures known { blocks.new.known ≡ blocks.old.known }
    ensures more { OnOk result (blocks.new.blocks ≡
        with_block catalog.now name.now blocks.old.blocks) }
{
    match catalog.get(name) {
        Some(Object::Interpreted(function)) => {
            plan_function(alloc, name, function, catalog, blocks)
        }
        Some(Object::Function(_)) => Ok(()),
        Some(Object::Procedure(_)) => Ok(()),
        Some(Object::Table(_)) => Ok(()),
        None => Ok(()),
    }
}

// The plans of the blocks among these names that may have one, each by those before it.
fn plan_names(alloc: Global, names: &[&Name], catalog: &Catalog) -> Result<BlockPlans, NoMemory>
    requires { CallsStandBefore catalog.now }
    ensures { IfOk result (λ blocks. blocks ≡
        planning catalog.now (planned_among catalog.now (held names.now))) }
{
    let mut blocks = BlockPlans::new(alloc, catalog);
    for name in names {
        plan_named(alloc, *name, catalog, &mut blocks)?;
    }
    Ok(blocks)
}

/// The plans of the blocks that a query calls, directly or in the bodies of others: of each that may
/// have one, where its own calls run what has plans (ISO/IEC 9075-2, 10.4). It can fail for want of
/// memory alone.
pub fn query_blocks(
    alloc: Global,
    query: &BoundQuery,
    catalog: &Catalog,
) -> Result<BlockPlans, NoMemory>
    requires { CallsStandBefore catalog.now }
    ensures { IfOk result (λ blocks. blocks ≡ all_planned catalog.now query.now) }
{
    let names = reached(alloc, query, catalog)?;
    plan_names(alloc, names.as_slice(), catalog)
}
