//! The emission of expressions: nodes over a plan in the making, and a scalar over these.

ghost use Rattle.std.specs.Prelude.{◌≡◌, ◌≤◌, ◌+◌, true, map, length, IfOk};
ghost use Rattle.bound_trees.specs.Operands.{takes};
ghost use Rattle.rel_algebra.specs.Tree.{Call, Chain, In, parameters_of};
ghost use Rattle.rel_algebra.specs.Plan.{Scalar as PlainScalar};
ghost use Rattle.rel_algebra.specs.Emit.{plain, emit, emit_links as links_by, emit_all, emit_args};
ghost use Rattle.rel_algebra.specs.Emit.{emit_body as body_by, passed, word_on};
ghost use Rattle.rel_algebra.specs.PlanView.{scalar_of, scalars_of, link_of};
ghost use Rattle.rel_algebra.specs.PlanView.{chained as chained_by};
ghost use Rattle.catalog_store.specs.Catalog.{routine_named};
ghost use Rattle.catalog_store.specs.View.{case_of, operated};
ghost use Rattle.block_plans.specs.Callees.{callee, width_in, without_blocks};
ghost use Rattle.block_plans.specs.View.{expr_seen, exprs_seen, links_seen, query_seen};
ghost use Rattle.plan_expressions.specs.Drafts.{drafted};
ghost use Rattle.plan_expressions.specs.Emission.{Emits, EmitsAll};
ghost use Rattle.plan_expressions.specs.Scopes.{env_of};
ghost use Rattle.plan_expressions.specs.Words.{word_of};

use crate::asking::emit_asked;
use block_plans::Functions;
use bound_trees::{BoundExpr, BoundLink, BoundOperation, BoundQuery};
use catalog_store::Catalog;
use plan_drafts::{
    case_over, chained, column_read, guarded_call, literal, parameter_read, parameter_types,
    put_column,
};
use plan_expressions::{Asked, Draft, NameSources, assigned, assigned_at, merge_kept, word_over};
use rel_algebra::{Scalar, ScalarLink};
use sql_values::{Name, NoMemory, SqlType, Value};
use sqlite_items::Items;

/// Emits an expression (ISO/IEC 9075-2, 6.25).
#[cycle(query)]
pub fn emit_expr(
    expr: &BoundExpr,
    scope: &NameSources,
    draft: &mut Draft,
    functions: &Functions,
) -> Result<Scalar, NoMemory>
    ensures { IfOk result (λ s. Emits draft.old draft.new (scalar_of s)
        (emit (expr_seen functions.now expr.now) (width_in functions.now) (env_of scope.now)
        (drafted draft.old).width)) }
{
    match expr {
        BoundExpr::Literal(value) => literal(value),
        BoundExpr::Column(level, place) => column_read(scope, *level, *place),
        BoundExpr::Variable(place) => parameter_read(scope, *place),
        BoundExpr::Operation(operation, operands) => {
            emit_operation(*operation, operands.as_slice(), scope, draft, functions)
        }
        BoundExpr::Chain(first, links) => {
            emit_chain(first.get(), links.as_slice(), scope, draft, functions)
        }
        BoundExpr::Call(name, arguments) => {
            emit_call(name, arguments.as_slice(), scope, draft, functions)
        }
        BoundExpr::Single(query) => {
            emit_asked(Asked::Single, query.get(), scope, draft, functions)
        }
        BoundExpr::Exists(query) => {
            emit_asked(Asked::Exists, query.get(), scope, draft, functions)
        }
        BoundExpr::In(left, query) => emit_in(left.get(), query.get(), scope, draft, functions),
    }
}

// Emits a word; over another number of operands than it takes it is NULL.
#[cycle(query)]
fn emit_operation(
    operation: BoundOperation,
    operands: &[BoundExpr],
    scope: &NameSources,
    draft: &mut Draft,
    functions: &Functions,
) -> Result<Scalar, NoMemory>
    ensures { IfOk result (λ s. Emits draft.old draft.new (scalar_of s)
        (emit (operated operation (map (expr_seen functions.now) operands.now))
        (width_in functions.now) (env_of scope.now) (drafted draft.old).width)) }
{
    if !operation.takes(operands.len()) {
        return Ok(Scalar::Constant(Value::Null));
    }
    match operation {
        BoundOperation::CaseOf => emit_case_of(operands, scope, draft, functions),
        _ => emit_words(operation, operands, scope, draft, functions),
    }
}

// Emits a word over as many operands as it takes, which are read in turn.
#[cycle(query)]
fn emit_words(
    operation: BoundOperation,
    operands: &[BoundExpr],
    scope: &NameSources,
    draft: &mut Draft,
    functions: &Functions,
) -> Result<Scalar, NoMemory>
    requires { takes operation (length operands.now) ≡ true }
    ensures { IfOk result (λ s. Emits draft.old draft.new (scalar_of s)
        (word_on (word_of operation) (emit_all (exprs_seen functions.now operands.now)
        (width_in functions.now) (env_of scope.now) (drafted draft.old).width))) }
{
    let scalars = emit_list(operands, scope, draft, functions)?;
    word_over(draft.allocator(), operation, scalars)
}

// Emits CASE with an operand: the operand becomes a column, and the tests are compared with it.
#[cycle(query)]
fn emit_case_of(
    operands: &[BoundExpr],
    scope: &NameSources,
    draft: &mut Draft,
    functions: &Functions,
) -> Result<Scalar, NoMemory>
    requires { 3 ≤ length operands.now }
    ensures { IfOk result (λ s. Emits draft.old draft.new (scalar_of s)
        (emit (case_of (map (expr_seen functions.now) operands.now)) (width_in functions.now)
        (env_of scope.now) (drafted draft.old).width)) }
{
    let operand = emit_expr(&operands[0], scope, draft, functions)?;
    let column = put_column(operand, draft)?;
    let scalars = emit_list(&operands[1..], scope, draft, functions)?;
    case_over(draft.allocator(), column, scalars)
}

// Emits a chain.
#[cycle(query)]
fn emit_chain(
    first: &BoundExpr,
    links: &[BoundLink],
    scope: &NameSources,
    draft: &mut Draft,
    functions: &Functions,
) -> Result<Scalar, NoMemory>
    ensures { IfOk result (λ s. Emits draft.old draft.new (scalar_of s)
        (emit (Chain (expr_seen functions.now first.now) (links_seen functions.now links.now))
        (width_in functions.now) (env_of scope.now) (drafted draft.old).width)) }
{
    let scalar = emit_expr(first, scope, draft, functions)?;
    let chain = emit_links(links, scope, draft, functions)?;
    chained(draft.allocator(), scalar, chain)
}

// Emits what stands right in a chain, whatever the scalar of what stands left.
#[cycle(query)]
fn emit_links(
    links: &[BoundLink],
    scope: &NameSources,
    draft: &mut Draft,
    functions: &Functions,
) -> Result<Items<ScalarLink>, NoMemory>
    ensures { IfOk result (λ ls. (p : PlainScalar) → Emits draft.old draft.new
        (chained_by p (map link_of ls)) (links_by (links_seen functions.now links.now) (plain p)
        (width_in functions.now) (env_of scope.now) (drafted draft.old).width)) }
{
    let mut chain = Items::from_vec(Vec::with_capacity(draft.allocator(), links.len())?);
    for link in links {
        let operand = emit_expr(&link.operand, scope, draft, functions)?;
        chain.push(ScalarLink {
            operator: link.operator,
            operand,
        })?;
    }
    Ok(chain)
}

// Emits IN with a query: the value that is sought first.
#[cycle(query)]
fn emit_in(
    left: &BoundExpr,
    query: &BoundQuery,
    scope: &NameSources,
    draft: &mut Draft,
    functions: &Functions,
) -> Result<Scalar, NoMemory>
    ensures { IfOk result (λ s. Emits draft.old draft.new (scalar_of s)
        (emit (In (expr_seen functions.now left.now) (query_seen functions.now query.now))
        (width_in functions.now) (env_of scope.now) (drafted draft.old).width)) }
{
    let sought = emit_expr(left, scope, draft, functions)?;
    emit_asked(Asked::Member(sought), query, scope, draft, functions)
}

/// Emits several expressions, from left to right.
#[cycle(query)]
pub fn emit_list(
    exprs: &[BoundExpr],
    scope: &NameSources,
    draft: &mut Draft,
    functions: &Functions,
) -> Result<Items<Scalar>, NoMemory>
    ensures { IfOk result (λ ss. EmitsAll draft.old draft.new (scalars_of ss)
        (emit_all (exprs_seen functions.now exprs.now) (width_in functions.now) (env_of scope.now)
        (drafted draft.old).width)) }
{
    let mut scalars = Items::from_vec(Vec::with_capacity(draft.allocator(), exprs.len())?);
    for expr in exprs {
        let scalar = emit_expr(expr, scope, draft, functions)?;
        scalars.push(scalar)?;
    }
    Ok(scalars)
}

// Emits a call: the arguments, assigned to the types of the parameters, become columns, and the
// body of what it runs stands over these.
#[cycle(query)]
fn emit_call(
    name: &Name,
    arguments: &[BoundExpr],
    scope: &NameSources,
    draft: &mut Draft,
    functions: &Functions,
) -> Result<Scalar, NoMemory>
    ensures { IfOk result (λ s. Emits draft.old draft.new (scalar_of s)
        (emit (Call name.now (callee functions.now name.now (length arguments.now))
        (exprs_seen functions.now arguments.now)) (width_in functions.now) (env_of scope.now)
        (drafted draft.old).width)) }
{
    let types = parameters(name, arguments.len(), functions);
    let scalars = emit_arguments(arguments, types, scope, draft, functions)?;
    let first = draft.columns();
    let count = scalars.len();
    draft.extend(scalars)?;
    let body = emit_body(name, first, count, draft, functions)?;
    guarded_call(draft.allocator(), arguments, types, first, body)
}

// Emits arguments, from left to right, each assigned to the type of its parameter.
#[cycle(query)]
fn emit_arguments(
    arguments: &[BoundExpr],
    types: &[SqlType],
    scope: &NameSources,
    draft: &mut Draft,
    functions: &Functions,
) -> Result<Items<Scalar>, NoMemory>
    ensures { IfOk result (λ ss. EmitsAll draft.old draft.new (scalars_of ss)
        (emit_args (exprs_seen functions.now arguments.now) types.now (width_in functions.now)
        (env_of scope.now) (drafted draft.old).width)) }
{
    let mut scalars = Items::from_vec(Vec::with_capacity(draft.allocator(), arguments.len())?);
    for (place, argument) in arguments.iter().enumerate() {
        let scalar = emit_expr(argument, scope, draft, functions)?;
        scalars.push(assigned_at(draft.allocator(), types, place, scalar)?)?;
    }
    Ok(scalars)
}

// The types of the parameters of what a call of a name with so many arguments runs.
fn parameters<'a>(name: &Name, count: usize, functions: &Functions<'a>) -> &'a [SqlType]
    ensures { result.now ≡ parameters_of (callee functions.now name.now count) }
{
    match functions.block(name, count) {
        Some(block) => block.parameters.as_slice(),
        None => parameter_types(name, functions.catalog()),
    }
}

// The body of what a call of a name runs, whose arguments stand in so many columns from `first` on:
// the plan of a block is merged.
#[cycle(query)]
fn emit_body(
    name: &Name,
    first: usize,
    count: usize,
    draft: &mut Draft,
    functions: &Functions,
) -> Result<Scalar, NoMemory>
    requires { (drafted draft.old).width ≡ first + count }
    ensures { IfOk result (λ s. Emits draft.old draft.new (scalar_of s)
        (body_by (callee functions.now name.now count) (width_in functions.now)
        (passed first count) (drafted draft.old).width)) }
{
    match functions.block(name, count) {
        Some(block) => merge_kept(&block.plan, first, draft),
        None => emit_returned(name, first, count, draft, functions.catalog()),
    }
}

// The same of a function of the catalog: its plan is merged where the call has as many arguments as
// the function has parameters, and else its body is emitted. Where the catalog has no function the
// body is NULL.
#[cycle(query)]
fn emit_returned(
    name: &Name,
    first: usize,
    count: usize,
    draft: &mut Draft,
    catalog: &Catalog,
) -> Result<Scalar, NoMemory>
    requires { (drafted draft.old).width ≡ first + count }
    ensures { IfOk result (λ s. Emits draft.old draft.new (scalar_of s)
        (body_by (routine_named name.now catalog.now) (width_in (without_blocks catalog.now))
        (passed first count) (drafted draft.old).width)) }
{
    let Some(routine) = catalog.routine(name) else {
        return Ok(Scalar::Constant(Value::Null));
    };
    if routine.head.parameters.len() == count {
        return merge_kept(&routine.plan, first, draft);
    }
    let scope = NameSources::passed(draft.allocator(), first, count);
    let value = match routine.body.tree() {
        Some(tree) => emit_expr(tree, &scope, draft, &Functions::of(catalog))?,
        None => unreachable!(),
    };
    assigned(draft.allocator(), routine.head.returns, value)
}
