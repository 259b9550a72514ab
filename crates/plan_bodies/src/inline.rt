//! A function whose body is in form as a plan of one row: the chain of its body's steps.

ghost use Rattle.std.specs.Prelude.{◌≡◌, ◌+◌, [], ◌∷◌, IfOk, OnOk};
ghost use Rattle.block_plans.specs.Callees.{width_in};
ghost use Rattle.plan_expressions.specs.Drafts.{drafted};
ghost use Rattle.plan_expressions.specs.Emission.{put};
ghost use Rattle.plan_steps.specs.Places.{function_in, stmt_in};
ghost use Rattle.plan_steps.specs.Steps.{Puts};
ghost use Rattle.rel_algebra.specs.BodyChain as chain;
ghost use Rattle.rel_algebra.specs.BodySteps as steps;
ghost use Rattle.rel_algebra.specs.Emissions.{assigning};
ghost use Rattle.rel_algebra.specs.Plan.{Scalars, extend, keep, more, none, unit_row};
ghost use Rattle.rel_algebra.specs.PlanView.{scalar_of, scalars_of, tree_of};

use crate::emit::emit_stmt;
use block_plans::Functions;
use bound_trees::BoundStmt;
use plan_expressions::{Draft, assigned, one, two};
use plan_statements::{null_of, pushing};
use plan_steps::{At, Marks, Place, Sight, area_in, code_is, columns_from, nodes_over, sum, tag};
use rel_algebra::{ListWord, Plan, Scalar};
use sql_conditions::EngineCondition;
use sql_values::{NoMemory, SqlType, Value};
use sqlite_items::Items;
use std::alloc::Global;

/// The plan of a function of these parameters, which are its arguments, and this body: its one row
/// has the one cell that the function returns, the value or the area that a call raises (ISO/IEC
/// 9075-2, 10.4). It can fail for want of memory alone.
pub fn inline_body(
    alloc: Global,
    parameters: &[SqlType],
    returns: SqlType,
    body: &BoundStmt,
    functions: &Functions,
) -> Result<Plan, NoMemory>
    ensures { IfOk result (λ p. tree_of p ≡ chain.inline
        (function_in functions.now parameters.now returns body.now) (width_in functions.now)) }
{
    let cells = arguments(alloc, parameters.len())?;
    chain_over(alloc, cells, parameters, returns, body, functions)
}

/// The same, where these scalars read the parameters, each of them once.
pub fn chain_over(
    alloc: Global,
    cells: Items<Scalar>,
    parameters: &[SqlType],
    returns: SqlType,
    body: &BoundStmt,
    functions: &Functions,
) -> Result<Plan, NoMemory>
    ensures { IfOk result (λ p. tree_of p ≡ chain.inline_with
        (function_in functions.now parameters.now returns body.now) (width_in functions.now)
        (scalars_of cells)) }
{
    let count = parameters.len();
    let mut draft = first_row(alloc, returns, cells)?;
    put_body(body, count, functions, &mut draft)?;
    put_last(returns, count, &mut draft)?;
    Ok(draft.into_plan())
}

// So many arguments, from the first on.
fn arguments(alloc: Global, count: usize) -> Result<Items<Scalar>, NoMemory>
    ensures { IfOk result (λ ss. scalars_of ss ≡ chain.arguments 0 count) }
{
    let mut cells = Items::new(alloc);
    for place in 0..count {
        cells.push(Scalar::Argument(place))?;
    }
    Ok(cells)
}

// ---- the first row

// The registers before the parameters: the code, what is returned, and the area in flight.
fn registers(alloc: Global, returns: SqlType) -> Result<Items<Scalar>, NoMemory>
    ensures { IfOk result (λ ss. (rest : Scalars) → put ss rest ≡ chain.first_cells returns rest) }
{
    let mut cells = two(alloc, tag(3)?, null_of(alloc, returns)?)?;
    cells.push(Scalar::Constant(Value::Bool(false)))?;
    Ok(cells)
}

// The registers, and these cells after them.
fn first_cells(
    alloc: Global,
    returns: SqlType,
    cells: Items<Scalar>,
) -> Result<Items<Scalar>, NoMemory>
    ensures { IfOk result (λ ss. scalars_of ss ≡ chain.first_cells returns (scalars_of cells)) }
{
    let mut first = registers(alloc, returns)?;
    first.append(cells)?;
    Ok(first)
}

// One row of the registers and of these cells.
fn first_row(alloc: Global, returns: SqlType, cells: Items<Scalar>) -> Result<Draft, NoMemory>
    ensures { IfOk result (λ d. (drafted d).tree ≡ extend (chain.first_cells returns
        (scalars_of cells)) unit_row) }
{
    let first = first_cells(alloc, returns, cells)?;
    let mut draft = nodes_over(alloc, 0);
    draft.extend(first)?;
    Ok(draft)
}

// ---- the steps

// The steps of a body over a row of so many parameters.
fn put_body(
    body: &BoundStmt,
    count: usize,
    functions: &Functions,
    draft: &mut Draft,
) -> Result<(), NoMemory>
    ensures { OnOk result (Puts draft.old draft.new (chain.emit (stmt_in functions.now body.now)
        (width_in functions.now) [] (chain.top count) 3 4 (3 + count))) }
{
    let wide = sum(3, count)?;
    let columns = columns_from(draft.allocator(), 3, count)?;
    let (sight, none) = (Sight::Nothing, Marks::Nothing);
    let place = Place {
        functions,
        sight: &sight,
        columns: columns.as_slice(),
        labels: &none,
        exits: &none,
        out: 1,
        stacked: None,
        level: 0,
    };
    let at = At {
        here: 3,
        next: 4,
        columns: wide,
    };
    emit_stmt(body, at, &place, draft)
}

// ---- the last cell

// What was returned as its type takes it, where the row is at code 0.
fn returned(alloc: Global, returns: SqlType) -> Result<Items<Scalar>, NoMemory>
    ensures { IfOk result (λ ss. (rest : Scalars) → put ss rest ≡ more (steps.code_is 0)
        (more (assigning returns (steps.col 1)) rest)) }
{
    let value = assigned(alloc, returns, Scalar::Column(0, 1))?;
    two(alloc, code_is(alloc, 0)?, value)
}

// The area in flight, which is no value.
fn raised_area(alloc: Global) -> Result<Scalar, NoMemory>
    ensures { IfOk result (λ s. scalar_of s ≡ chain.raised_area) }
{
    let area = area_in(alloc, 2)?;
    let arms = two(alloc, area, Scalar::Constant(Value::Null))?;
    Ok(Scalar::Listed(ListWord::Case, arms))
}

// After other arms: the area in flight, where the row is at code 1, and else that there was no
// RETURN.
fn put_raised(alloc: Global, arms: &mut Items<Scalar>) -> Result<(), NoMemory>
    ensures { OnOk result (put arms.new none ≡ put arms.old (more (steps.code_is 1)
        (more chain.raised_area (steps.only chain.without_return_cell)))) }
{
    arms.push(code_is(alloc, 1)?)?;
    arms.push(raised_area(alloc)?)?;
    arms.push(pushing(alloc, EngineCondition::EndedWithoutReturn)?)?;
    Ok(())
}

// What the function returns: the value as its type takes it, the area, or that there was no RETURN.
fn last_cell(alloc: Global, returns: SqlType) -> Result<Scalar, NoMemory>
    ensures { IfOk result (λ s. scalar_of s ≡ chain.last_cell returns) }
{
    let mut arms = returned(alloc, returns)?;
    put_raised(alloc, &mut arms)?;
    Ok(Scalar::Listed(ListWord::Case, arms))
}

// After the steps over a row of so many parameters: what the function returns, alone.
fn put_last(returns: SqlType, count: usize, draft: &mut Draft) -> Result<(), NoMemory>
    ensures { OnOk result ((drafted draft.new).tree ≡ keep ((3 + count) ∷ []) (extend
        (steps.only (chain.last_cell returns)) (drafted draft.old).tree)) }
{
    let alloc = draft.allocator();
    let wide = sum(3, count)?;
    draft.extend(one(alloc, last_cell(alloc, returns)?)?)?;
    draft.keep(columns_from(alloc, wide, 1)?)
}
