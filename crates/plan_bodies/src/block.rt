//! The plan of a block: of a function by itself whose body is a statement.

ghost use Rattle.std.specs.Prelude.{◌≡◌, false, [], ◌∷◌, length, IfOk};
ghost use Rattle.block_plans.specs.Callees.{width_in};
ghost use Rattle.block_plans.specs.View.{expr_seen};
ghost use Rattle.catalog_store.specs.Kept.{IsPlan};
ghost use Rattle.plan_steps.specs.Places.{function_in};
ghost use Rattle.region_trees.specs.Regions.{region_seen};
ghost use Rattle.regions.specs.TreeBodies.{stmt_of};
ghost use Rattle.rel_algebra.specs.BodyChain as chain;
ghost use Rattle.rel_algebra.specs.Emissions.{asked_where};
ghost use Rattle.rel_algebra.specs.Emit.{assigning_in, emit, emit_body, top};
ghost use Rattle.rel_algebra.specs.Plan.{argument, column, single};
ghost use Rattle.rel_algebra.specs.PlanView.{scalar_of, scalars_of, tree_of};
ghost use Rattle.rel_algebra.specs.Tree.{Function};

use crate::inline::chain_over;
use crate::known::all_known;
use block_plans::Functions;
use bound_trees::{BoundExpr, BoundStmt};
use catalog_store::FunctionPlan;
use plan_expressions::{NameSources, assigned, two};
use plan_queries::emit_expr;
use plan_statements::null_of;
use plan_steps::nodes_over;
use rel_algebra::{ApplyKind, ListWord, Plan, Scalar};
use sql_values::{NoMemory, SqlType, Value};
use sqlite_items::Items;
use std::alloc::Global;

/// The plan of a function by itself, whose body is this statement (ISO/IEC 9075-2, 10.4): its
/// parameters are the arguments. Of a RETURN alone it is that of its expression; of any other
/// statement its nodes are one Apply of the chain of the statement's steps. Where the function
/// returns NULL on NULL input, they are such an Apply whatever the statement, which is asked where
/// no argument is NULL. Such plans are kept beside a catalog, and merged where the function is
/// called. It can fail for want of memory alone.
pub fn plan_block(
    alloc: Global,
    parameters: &[SqlType],
    returns: SqlType,
    null_call: bool,
    body: &BoundStmt,
    functions: &Functions,
) -> Result<FunctionPlan, NoMemory>
    ensures { IfOk result (λ p. IsPlan p (emit_body (Function false parameters.now returns
        null_call (stmt_of (region_seen functions.now body.now))) (width_in functions.now)
        (top (length parameters.now)) 0)) }
{
    if null_call {
        plan_known(alloc, parameters, returns, body, functions)
    } else {
        plan_called(alloc, parameters, returns, body, functions)
    }
}

// The same of a function that is called on NULL too.
fn plan_called(
    alloc: Global,
    parameters: &[SqlType],
    returns: SqlType,
    body: &BoundStmt,
    functions: &Functions,
) -> Result<FunctionPlan, NoMemory>
    ensures { IfOk result (λ p. IsPlan p (emit_body (Function false parameters.now returns false
        (stmt_of (region_seen functions.now body.now))) (width_in functions.now)
        (top (length parameters.now)) 0)) }
{
    match body {
        BoundStmt::Return(value) => {
            plan_returned(alloc, value, parameters.len(), returns, functions)
        }
        _ => plan_chain(alloc, parameters, returns, body, functions),
    }
}

// What a function returns, as its type takes it, whose parameters, so many, are the arguments.
fn plan_returned(
    alloc: Global,
    returned: &BoundExpr,
    parameters: usize,
    returns: SqlType,
    functions: &Functions,
) -> Result<FunctionPlan, NoMemory>
    ensures { IfOk result (λ p. IsPlan p (assigning_in (returns ∷ []) (emit
        (expr_seen functions.now returned.now) (width_in functions.now) (top parameters) 0))) }
{
    let mut draft = nodes_over(alloc, 0);
    let scope = NameSources::top(alloc, parameters);
    let value = emit_expr(returned, &scope, &mut draft, functions)?;
    let scalar = assigned(alloc, returns, value)?;
    let nodes = draft.into_nodes();
    Ok(FunctionPlan { nodes, scalar })
}

// An Apply of the chain of the body's steps, where no argument is NULL.
fn plan_known(
    alloc: Global,
    parameters: &[SqlType],
    returns: SqlType,
    body: &BoundStmt,
    functions: &Functions,
) -> Result<FunctionPlan, NoMemory>
    ensures { IfOk result (λ p. IsPlan p (chain.known_body
        (function_in functions.now parameters.now returns body.now) (width_in functions.now)
        (top (length parameters.now)) 0)) }
{
    let when = all_known(alloc, parameters)?;
    let inner = typed_chain(alloc, parameters, returns, body, functions)?;
    plan_asked(alloc, when, inner)
}

// An Apply of the chain of the body's steps.
fn plan_chain(
    alloc: Global,
    parameters: &[SqlType],
    returns: SqlType,
    body: &BoundStmt,
    functions: &Functions,
) -> Result<FunctionPlan, NoMemory>
    ensures { IfOk result (λ p. IsPlan p (chain.called_body
        (function_in functions.now parameters.now returns body.now) (width_in functions.now)
        (top (length parameters.now)) 0)) }
{
    let inner = typed_chain(alloc, parameters, returns, body, functions)?;
    plan_asked(alloc, Scalar::Constant(Value::Bool(true)), inner)
}

// The one cell of a plan, which is asked where this scalar is TRUE, over one row without cells.
fn plan_asked(alloc: Global, when: Scalar, inner: Plan) -> Result<FunctionPlan, NoMemory>
    ensures { IfOk result (λ p. IsPlan p (asked_where (scalar_of when) single (tree_of inner) 0)) }
{
    let mut draft = nodes_over(alloc, 0);
    draft.apply(when, ApplyKind::Single, inner)?;
    let nodes = draft.into_nodes();
    Ok(FunctionPlan {
        nodes,
        scalar: first_column(),
    })
}

// The first column of a row.
fn first_column() -> Scalar
    ensures { scalar_of result ≡ column 0 0 }
{
    Scalar::Column(0, 0)
}

// The chain of the body's steps, which reads each argument as one of its parameter's type.
fn typed_chain(
    alloc: Global,
    parameters: &[SqlType],
    returns: SqlType,
    body: &BoundStmt,
    functions: &Functions,
) -> Result<Plan, NoMemory>
    ensures { IfOk result (λ p. tree_of p ≡ chain.inline_with
        (function_in functions.now parameters.now returns body.now) (width_in functions.now)
        (chain.read_outward (top (length parameters.now)) 0 parameters.now)) }
{
    let cells = typed_arguments(alloc, parameters)?;
    chain_over(alloc, cells, parameters, returns, body, functions)
}

// The arguments for parameters of these types, each as one of its type.
fn typed_arguments(alloc: Global, parameters: &[SqlType]) -> Result<Items<Scalar>, NoMemory>
    ensures { IfOk result (λ ss. scalars_of ss ≡ chain.read_outward
        (top (length parameters.now)) 0 parameters.now) }
{
    let mut cells = Items::new(alloc);
    for (place, data_type) in parameters.iter().enumerate() {
        cells.push(typed_argument(alloc, place, *data_type)?)?;
    }
    Ok(cells)
}

// An argument, as one of a type where it is NULL.
fn typed_argument(alloc: Global, place: usize, data_type: SqlType) -> Result<Scalar, NoMemory>
    ensures { IfOk result (λ s. scalar_of s ≡ chain.of_type data_type (argument place)) }
{
    let null = null_of(alloc, data_type)?;
    let values = two(alloc, Scalar::Argument(place), null)?;
    Ok(Scalar::Listed(ListWord::Coalesce, values))
}
