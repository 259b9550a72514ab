//! The weight of a body.

ghost use Rattle.std.specs.Prelude.{◌≡◌, map};
ghost use Rattle.bound_trees.specs.declared.statement.BoundBlock.{out-BoundBlock};
ghost use Rattle.bound_trees.specs.declared.statement.BoundStmt.TheVariants.{Return};
ghost use Rattle.routine_form.specs.Weight as spec;

use crate::calls::{calls_if_there, calls_in, calls_in_query};
use crate::sum::{HEAVIEST, add};
use bound_trees::{
    BoundBlock, BoundBranch, BoundExpr, BoundHandler, BoundInformation, BoundStmt, BoundVariables,
};
use catalog_store::Catalog;

// A statement itself: one, what it calls, and what the handlers in sight do.
fn itself(calls: u32, handlers: u32) -> u32
    ensures { result ≡ spec.itself calls handlers }
{
    add(1, add(calls, handlers))
}

fn declarations(variables: &[BoundVariables], handlers: u32, catalog: &Catalog) -> u32
    ensures { result ≡ spec.declarations catalog.now handlers variables.now }
{
    let mut weight = 0;
    for declared in variables {
        let calls = calls_if_there(&declared.default, catalog);
        weight = add(weight, itself(calls, handlers));
    }
    weight
}

fn information_calls(information: &BoundInformation, catalog: &Catalog) -> u32
    ensures { result ≡ spec.information_calls catalog.now information.now }
{
    match information {
        BoundInformation::Statement(_) => 0,
        BoundInformation::Condition(number, _) => calls_in(number, catalog),
    }
}

fn tests_weight(branches: &[BoundBranch], catalog: &Catalog) -> u32
    ensures { result ≡ spec.tests (map (spec.weight_of_branch catalog.now) branches.now) }
{
    let mut calls = 0;
    for branch in branches {
        calls = add(calls, calls_in(&branch.test, catalog));
    }
    calls
}

// A statement in sight of handlers whose actions weigh so much together.
#[cycle(weigh)]
fn weight_under(stmt: &BoundStmt, handlers: u32, catalog: &Catalog) -> u32
    ensures { result ≡ spec.weight_under catalog.now stmt.now handlers }
{
    match stmt {
        BoundStmt::Block(block) => block_weight(block, handlers, catalog),
        BoundStmt::If(branches, otherwise) => {
            let tests = tests_weight(branches.as_slice(), catalog);
            let bodies = bodies_weight(branches.as_slice(), handlers, catalog);
            let others = all_weight(otherwise.as_slice(), handlers, catalog);
            add(itself(add(0, tests), handlers), add(bodies, others))
        }
        BoundStmt::Case(operand, branches, otherwise) => {
            let calls = calls_if_there(operand, catalog);
            let tests = tests_weight(branches.as_slice(), catalog);
            let bodies = bodies_weight(branches.as_slice(), handlers, catalog);
            let others = all_weight(otherwise.as_slice(), handlers, catalog);
            add(itself(add(calls, tests), handlers), add(bodies, others))
        }
        BoundStmt::Set(_, value) => itself(calls_in(value, catalog), handlers),
        BoundStmt::SelectInto(query, _) => itself(calls_in_query(query, catalog), handlers),
        BoundStmt::Signal(signal) => itself(calls_if_there(&signal.message, catalog), handlers),
        BoundStmt::Resignal(signal) => itself(calls_if_there(&signal.message, catalog), handlers),
        BoundStmt::GetDiagnostics(get) => {
            itself(information_calls(&get.information, catalog), handlers)
        }
        BoundStmt::Leave(_) => itself(0, handlers),
        BoundStmt::Return(value) => itself(calls_in(value, catalog), handlers),
        _ => HEAVIEST,
    }
}

#[cycle(weigh)]
fn all_weight(stmts: &[BoundStmt], handlers: u32, catalog: &Catalog) -> u32
    ensures { result ≡ spec.all (map (spec.weight_under catalog.now) stmts.now) handlers }
{
    let mut weight = 0;
    for stmt in stmts {
        weight = add(weight, weight_under(stmt, handlers, catalog));
    }
    weight
}

#[cycle(weigh)]
fn bodies_weight(branches: &[BoundBranch], handlers: u32, catalog: &Catalog) -> u32
    ensures { result ≡ spec.bodies (map (spec.weight_of_branch catalog.now) branches.now) handlers }
{
    let mut weight = 0;
    for branch in branches {
        let body = all_weight(branch.body.as_slice(), handlers, catalog);
        weight = add(weight, body);
    }
    weight
}

#[cycle(weigh)]
fn actions_weight(actions: &[BoundHandler], outer: u32, catalog: &Catalog) -> u32
    ensures { result ≡ spec.all (map (spec.weight_of_handler catalog.now) actions.now) outer }
{
    let mut weight = 0;
    for handler in actions {
        weight = add(weight, weight_under(handler.action.get(), outer, catalog));
    }
    weight
}

// What stands in a compound statement, in sight of handlers outside it.
#[cycle(weigh)]
fn inside(block: &BoundBlock, outer: u32, catalog: &Catalog) -> u32
    ensures { result ≡ spec.inside catalog.now (out-BoundBlock block.now).variables
        (map (spec.weight_of_handler catalog.now) (out-BoundBlock block.now).handlers)
        (map (spec.weight_under catalog.now) (out-BoundBlock block.now).statements) outer }
{
    let declared = declarations(block.variables.as_slice(), outer, catalog);
    let actions = actions_weight(block.handlers.as_slice(), outer, catalog);
    let statements = all_weight(block.statements.as_slice(), add(actions, outer), catalog);
    add(declared, statements)
}

#[cycle(weigh)]
fn block_weight(block: &BoundBlock, handlers: u32, catalog: &Catalog) -> u32
    ensures { result ≡ spec.weight_of_block catalog.now block.now handlers }
{
    if block.atomic {
        add(handlers, inside(block, 0, catalog))
    } else {
        inside(block, handlers, catalog)
    }
}

/// How heavy a body is: how many statements a plan in its place would hold, where each statement
/// brings what the functions weigh that it calls, and once more what each handler in sight does
/// (ISO/IEC 9075-4, 14.1 and 14.2). Counting stops at `HEAVIEST`, which also is what a call of the
/// routine itself weighs, and a statement that no plan takes: a loop, CALL, one that writes or that
/// moves a cursor. Takes no memory.
pub fn weight(body: &BoundStmt, catalog: &Catalog) -> u32
    ensures { result ≡ spec.weight catalog.now body.now }
{
    weight_under(body, 0, catalog)
}

/// The weight of RETURN with an expression. Takes no memory.
pub fn weight_of_return(value: &BoundExpr, catalog: &Catalog) -> u32
    ensures { result ≡ spec.weight catalog.now (Return value.now) }
{
    itself(calls_in(value, catalog), 0)
}
