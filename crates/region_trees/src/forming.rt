//! Whether a body is in form.

ghost use Rattle.std.specs.Prelude.{◌≡◌, map};
ghost use Rattle.bound_trees.specs.declared.statement.BoundBlock.{out-BoundBlock};
ghost use Rattle.region_trees.specs.Form as spec;

use block_plans::Functions;
use bound_trees::{
    BoundArea, BoundBlock, BoundBranch, BoundDiagnostics, BoundExpr, BoundHandler,
    BoundInformation, BoundQuery, BoundStmt, BoundTarget, BoundVariables,
};
use planned_queries::{is_planned, is_planned_expr};
use routine_form::{HEAVIEST, weight};

// Whether an expression has a plan, where it isn't left out.
fn planned_if_there(expr: &Option<BoundExpr>, functions: &Functions) -> bool
    ensures { result ≡ spec.planned_if_there functions.now expr.now }
{
    match expr {
        Some(expr) => is_planned_expr(expr, functions),
        None => true,
    }
}

fn defaults_planned(variables: &[BoundVariables], functions: &Functions) -> bool
    ensures { result ≡ spec.defaults_planned functions.now variables.now }
{
    for declared in variables {
        if !planned_if_there(&declared.default, functions) {
            return false;
        }
    }
    true
}

fn information_planned(information: &BoundInformation, functions: &Functions) -> bool
    ensures { result ≡ spec.information_planned functions.now information.now }
{
    match information {
        BoundInformation::Statement(_) => true,
        BoundInformation::Condition(number, _) => is_planned_expr(number, functions),
    }
}

// GET DIAGNOSTICS of the stacked area.
fn get_formed(get: &BoundDiagnostics, functions: &Functions) -> bool
    ensures { result ≡ spec.get_formed functions.now get.now }
{
    match get.area {
        BoundArea::Current => false,
        BoundArea::Stacked => information_planned(&get.information, functions),
    }
}

// A SELECT INTO that stores a value at least.
fn into_formed(query: &BoundQuery, targets: &[BoundTarget], functions: &Functions) -> bool
    ensures { result ≡ spec.into_formed functions.now query.now targets.now }
{
    targets.len() != 0 && is_planned(query, functions)
}

// The variables of a compound statement that declares no cursor.
fn declares_formed(block: &BoundBlock, functions: &Functions) -> bool
    ensures { result ≡ spec.declares_formed functions.now (out-BoundBlock block.now).variables
        (out-BoundBlock block.now).cursors }
{
    block.cursors.len() == 0 && defaults_planned(block.variables.as_slice(), functions)
}

#[cycle(form)]
fn formed(stmt: &BoundStmt, functions: &Functions) -> bool
    ensures { result ≡ spec.formed functions.now stmt.now }
{
    match stmt {
        BoundStmt::Block(block) => block_formed(block, functions),
        BoundStmt::If(branches, otherwise) => {
            branches_formed(branches.as_slice(), functions)
                && all_formed(otherwise.as_slice(), functions)
        }
        BoundStmt::Case(operand, branches, otherwise) => {
            planned_if_there(operand, functions)
                && branches_formed(branches.as_slice(), functions)
                && all_formed(otherwise.as_slice(), functions)
        }
        BoundStmt::Set(_, value) => is_planned_expr(value, functions),
        BoundStmt::SelectInto(query, targets) => into_formed(query, targets.as_slice(), functions),
        BoundStmt::Signal(signal) => planned_if_there(&signal.message, functions),
        BoundStmt::Resignal(signal) => planned_if_there(&signal.message, functions),
        BoundStmt::GetDiagnostics(get) => get_formed(get, functions),
        BoundStmt::Leave(_) => true,
        BoundStmt::Return(value) => is_planned_expr(value, functions),
        _ => false,
    }
}

#[cycle(form)]
fn all_formed(stmts: &[BoundStmt], functions: &Functions) -> bool
    ensures { result ≡ spec.all (map (spec.formed functions.now) stmts.now) }
{
    for stmt in stmts {
        if !formed(stmt, functions) {
            return false;
        }
    }
    true
}

#[cycle(form)]
fn branches_formed(branches: &[BoundBranch], functions: &Functions) -> bool
    ensures { result ≡ spec.all (map (spec.formed_branch functions.now) branches.now) }
{
    for branch in branches {
        if !(is_planned_expr(&branch.test, functions)
            && all_formed(branch.body.as_slice(), functions))
        {
            return false;
        }
    }
    true
}

#[cycle(form)]
fn actions_formed(handlers: &[BoundHandler], functions: &Functions) -> bool
    ensures { result ≡ spec.all (map (spec.formed_handler functions.now) handlers.now) }
{
    for handler in handlers {
        if !formed(handler.action.get(), functions) {
            return false;
        }
    }
    true
}

// A compound statement without cursors.
#[cycle(form)]
fn block_formed(block: &BoundBlock, functions: &Functions) -> bool
    ensures { result ≡ spec.formed_block functions.now block.now }
{
    declares_formed(block, functions)
        && actions_formed(block.handlers.as_slice(), functions)
        && all_formed(block.statements.as_slice(), functions)
}

/// Whether a body is in form, so that a plan may stand in its place: whether it has no other
/// statements than plans take (ISO/IEC 9075-4, 14 and 17; ISO/IEC 9075-2, 14.7, 15.2 and 23.1), what
/// each call in its expressions and queries runs has a plan, and it is not too heavy. A call of what
/// isn't in the catalog, as of the function that is being made, has no plan. Takes no memory.
pub fn in_form(body: &BoundStmt, functions: &Functions) -> bool
    ensures { result ≡ spec.in_form functions.now body.now }
{
    formed(body, functions) && weight(body, functions.catalog()) < HEAVIEST
}
