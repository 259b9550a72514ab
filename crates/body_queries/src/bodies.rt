//! The queries of statements (ISO/IEC 9075-2, 14 and 23.1; ISO/IEC 9075-4, 14 and 17), by the
//! variables and cursors that are in sight there. The query of a cursor counts where the cursor is
//! opened.

ghost use Rattle.std.specs.Prelude.{IfOk, OnOk};
ghost use Rattle.kept_queries.specs.Keeping.{AreKept};

use crate::outermost::{keep_in_expr, keep_outermost};
use bound_trees::{
    BoundArgument, BoundBlock, BoundBranch, BoundExpr, BoundHandler, BoundInformation, BoundQuery,
    BoundStmt, BoundVariables,
};
use kept_queries::{Around, KeptQuery};
use plan_drafts::columns_of;
use sql_values::NoMemory;
use sqlite_items::Items;
use std::alloc::Global;

/// The plans of the outermost queries of a body that have one, each over as many arguments as
/// variables are in sight where it is evaluated; at the start there are so many; and of the queries
/// in one that has none, under its rows. What is missed is only slower.
pub fn keep_body(
    alloc: Global,
    body: &BoundStmt,
    variables: usize,
    around: &Around,
) -> Result<Items<KeptQuery>, NoMemory>
    ensures { IfOk result (λ kept. AreKept around.now kept) }
{
    let mut kept = Items::new(alloc);
    keep_in_stmt(alloc, body, variables, &[], around, &mut kept)?;
    Ok(kept)
}

// Those of an expression that may be left out.
fn keep_perhaps(
    alloc: Global,
    expr: Option<&BoundExpr>,
    variables: usize,
    around: &Around,
    kept: &mut Items<KeptQuery>,
) -> Result<(), NoMemory>
    requires { AreKept around.now kept.old }
    ensures { OnOk result (AreKept around.now kept.new) }
{
    match expr {
        Some(expr) => keep_in_expr(alloc, expr, variables, around, kept),
        None => Ok(()),
    }
}

// Those of the arguments of CALL.
fn keep_in_arguments(
    alloc: Global,
    arguments: &[BoundArgument],
    variables: usize,
    around: &Around,
    kept: &mut Items<KeptQuery>,
) -> Result<(), NoMemory>
    requires { AreKept around.now kept.old }
    ensures { OnOk result (AreKept around.now kept.new) }
{
    for argument in arguments {
        keep_in_argument(alloc, argument, variables, around, kept)?;
    }
    Ok(())
}

// Those of an argument of CALL.
fn keep_in_argument(
    alloc: Global,
    argument: &BoundArgument,
    variables: usize,
    around: &Around,
    kept: &mut Items<KeptQuery>,
) -> Result<(), NoMemory>
    requires { AreKept around.now kept.old }
    ensures { OnOk result (AreKept around.now kept.new) }
{
    match argument {
        BoundArgument::Value(expr) => keep_in_expr(alloc, expr, variables, around, kept),
        BoundArgument::Variable(_) => Ok(()),
        BoundArgument::Given => Ok(()),
    }
}

// That of the number of a condition.
fn keep_in_information(
    alloc: Global,
    information: &BoundInformation,
    variables: usize,
    around: &Around,
    kept: &mut Items<KeptQuery>,
) -> Result<(), NoMemory>
    requires { AreKept around.now kept.old }
    ensures { OnOk result (AreKept around.now kept.new) }
{
    match information {
        BoundInformation::Statement(_) => Ok(()),
        BoundInformation::Condition(number, _) => {
            keep_in_expr(alloc, number, variables, around, kept)
        }
    }
}

// That of the cursor of a slot.
fn keep_of_cursor(
    alloc: Global,
    slot: usize,
    variables: usize,
    cursors: &[&BoundQuery],
    around: &Around,
    kept: &mut Items<KeptQuery>,
) -> Result<(), NoMemory>
    requires { AreKept around.now kept.old }
    ensures { OnOk result (AreKept around.now kept.new) }
{
    match cursors.get(slot) {
        Some(query) => keep_outermost(alloc, *query, variables, around, kept),
        None => Ok(()),
    }
}

// Those of the defaults of declarations, each of which sees the variables before it; and how many
// variables are in sight after all of them.
fn keep_in_defaults(
    alloc: Global,
    declared: &[BoundVariables],
    variables: usize,
    around: &Around,
    kept: &mut Items<KeptQuery>,
) -> Result<usize, NoMemory>
    requires { AreKept around.now kept.old }
    ensures { OnOk result (AreKept around.now kept.new) }
{
    let mut in_sight = variables;
    for group in declared {
        keep_perhaps(alloc, group.default.as_ref(), in_sight, around, kept)?;
        in_sight = in_sight.saturating_add(group.count);
    }
    Ok(in_sight)
}

// The queries of the cursors in sight once more.
fn copied<'a>(alloc: Global, outer: &[&'a BoundQuery]) -> Result<Vec<&'a BoundQuery>, NoMemory> {
    let mut cursors = Vec::new(alloc);
    for query in outer {
        cursors.push(*query)?;
    }
    Ok(cursors)
}

// The queries of the cursors in sight, and after them those of a compound statement.
fn with_cursors<'a>(
    alloc: Global,
    outer: &[&'a BoundQuery],
    own: &'a [BoundQuery],
) -> Result<Vec<&'a BoundQuery>, NoMemory> {
    let mut cursors = copied(alloc, outer)?;
    for query in own {
        cursors.push(query)?;
    }
    Ok(cursors)
}

// Those of a statement that holds no other.
fn keep_in_simple(
    alloc: Global,
    stmt: &BoundStmt,
    variables: usize,
    cursors: &[&BoundQuery],
    around: &Around,
    kept: &mut Items<KeptQuery>,
) -> Result<(), NoMemory>
    requires { AreKept around.now kept.old }
    ensures { OnOk result (AreKept around.now kept.new) }
{
    match stmt {
        BoundStmt::Insert(insert, _) => {
            keep_outermost(alloc, &insert.source, variables, around, kept)
        }
        BoundStmt::Update(update) => keep_outermost(alloc, &update.rows, variables, around, kept),
        BoundStmt::Delete(delete) => keep_outermost(alloc, &delete.rows, variables, around, kept),
        BoundStmt::Call(call) => {
            keep_in_arguments(alloc, call.arguments.as_slice(), variables, around, kept)
        }
        BoundStmt::Set(_, expr) => keep_in_expr(alloc, expr, variables, around, kept),
        BoundStmt::SelectInto(query, _) => keep_outermost(alloc, query, variables, around, kept),
        BoundStmt::Open(slot) => { keep_of_cursor(alloc, *slot, variables, cursors, around, kept) }
        BoundStmt::Signal(signal) => {
            keep_perhaps(alloc, signal.message.as_ref(), variables, around, kept)
        }
        BoundStmt::Resignal(signal) => {
            keep_perhaps(alloc, signal.message.as_ref(), variables, around, kept)
        }
        BoundStmt::GetDiagnostics(get) => {
            keep_in_information(alloc, &get.information, variables, around, kept)
        }
        BoundStmt::Return(expr) => keep_in_expr(alloc, expr, variables, around, kept),
        _ => Ok(()),
    }
}

// Those of a statement, where so many variables and these cursors are in sight. The statements of
// FOR see its columns too.
#[cycle(bodies)]
fn keep_in_stmt<'a>(
    alloc: Global,
    stmt: &'a BoundStmt,
    variables: usize,
    cursors: &[&'a BoundQuery],
    around: &Around,
    kept: &mut Items<KeptQuery>,
) -> Result<(), NoMemory>
    requires { AreKept around.now kept.old }
    ensures { OnOk result (AreKept around.now kept.new) }
{
    match stmt {
        BoundStmt::Block(block) => keep_in_block(alloc, block, variables, cursors, around, kept),
        BoundStmt::If(branches, otherwise) => {
            let (branches, otherwise) = (branches.as_slice(), otherwise.as_slice());
            keep_in_branches(alloc, branches, variables, cursors, around, kept)?;
            keep_in_stmts(alloc, otherwise, variables, cursors, around, kept)
        }
        BoundStmt::Case(operand, branches, otherwise) => {
            let (branches, otherwise) = (branches.as_slice(), otherwise.as_slice());
            keep_perhaps(alloc, operand.as_ref(), variables, around, kept)?;
            keep_in_branches(alloc, branches, variables, cursors, around, kept)?;
            keep_in_stmts(alloc, otherwise, variables, cursors, around, kept)
        }
        BoundStmt::Loop(body) => {
            keep_in_stmts(alloc, body.as_slice(), variables, cursors, around, kept)
        }
        BoundStmt::While(test, body) => {
            keep_in_expr(alloc, test, variables, around, kept)?;
            keep_in_stmts(alloc, body.as_slice(), variables, cursors, around, kept)
        }
        BoundStmt::Repeat(body, test) => {
            keep_in_expr(alloc, test, variables, around, kept)?;
            keep_in_stmts(alloc, body.as_slice(), variables, cursors, around, kept)
        }
        BoundStmt::For(query, _, body) => {
            keep_outermost(alloc, query, variables, around, kept)?;
            let inside = variables.saturating_add(columns_of(query));
            keep_in_stmts(alloc, body.as_slice(), inside, cursors, around, kept)
        }
        _ => keep_in_simple(alloc, stmt, variables, cursors, around, kept),
    }
}

// Those of several statements.
#[cycle(bodies)]
fn keep_in_stmts<'a>(
    alloc: Global,
    stmts: &'a [BoundStmt],
    variables: usize,
    cursors: &[&'a BoundQuery],
    around: &Around,
    kept: &mut Items<KeptQuery>,
) -> Result<(), NoMemory>
    requires { AreKept around.now kept.old }
    ensures { OnOk result (AreKept around.now kept.new) }
{
    for stmt in stmts {
        keep_in_stmt(alloc, stmt, variables, cursors, around, kept)?;
    }
    Ok(())
}

// Those of branches.
#[cycle(bodies)]
fn keep_in_branches<'a>(
    alloc: Global,
    branches: &'a [BoundBranch],
    variables: usize,
    cursors: &[&'a BoundQuery],
    around: &Around,
    kept: &mut Items<KeptQuery>,
) -> Result<(), NoMemory>
    requires { AreKept around.now kept.old }
    ensures { OnOk result (AreKept around.now kept.new) }
{
    for branch in branches {
        keep_in_branch(alloc, branch, variables, cursors, around, kept)?;
    }
    Ok(())
}

// Those of a test and of the statements that it chooses.
#[cycle(bodies)]
fn keep_in_branch<'a>(
    alloc: Global,
    branch: &'a BoundBranch,
    variables: usize,
    cursors: &[&'a BoundQuery],
    around: &Around,
    kept: &mut Items<KeptQuery>,
) -> Result<(), NoMemory>
    requires { AreKept around.now kept.old }
    ensures { OnOk result (AreKept around.now kept.new) }
{
    keep_in_expr(alloc, &branch.test, variables, around, kept)?;
    keep_in_stmts(
        alloc,
        branch.body.as_slice(),
        variables,
        cursors,
        around,
        kept,
    )
}

// Those of a compound statement (14.1).
#[cycle(bodies)]
fn keep_in_block<'a>(
    alloc: Global,
    block: &'a BoundBlock,
    variables: usize,
    outer: &[&'a BoundQuery],
    around: &Around,
    kept: &mut Items<KeptQuery>,
) -> Result<(), NoMemory>
    requires { AreKept around.now kept.old }
    ensures { OnOk result (AreKept around.now kept.new) }
{
    let inside = keep_in_defaults(alloc, block.variables.as_slice(), variables, around, kept)?;
    let own = block.cursors.as_slice();
    if own.is_empty() {
        return keep_declared(alloc, block, inside, outer, around, kept);
    }
    match with_cursors(alloc, outer, own) {
        Ok(cursors) => keep_declared(alloc, block, inside, cursors.as_slice(), around, kept),
        Err(NoMemory) => Err(NoMemory),
    }
}

// Those of the statements and handlers of a compound statement, which see what it declares.
#[cycle(bodies)]
fn keep_declared<'a>(
    alloc: Global,
    block: &'a BoundBlock,
    variables: usize,
    cursors: &[&'a BoundQuery],
    around: &Around,
    kept: &mut Items<KeptQuery>,
) -> Result<(), NoMemory>
    requires { AreKept around.now kept.old }
    ensures { OnOk result (AreKept around.now kept.new) }
{
    keep_in_stmts(
        alloc,
        block.statements.as_slice(),
        variables,
        cursors,
        around,
        kept,
    )?;
    keep_in_handlers(
        alloc,
        block.handlers.as_slice(),
        variables,
        cursors,
        around,
        kept,
    )
}

// Those of the actions of handlers (14.2). While one runs, what is declared further inside of its
// compound statement is set aside.
#[cycle(bodies)]
fn keep_in_handlers<'a>(
    alloc: Global,
    handlers: &'a [BoundHandler],
    variables: usize,
    cursors: &[&'a BoundQuery],
    around: &Around,
    kept: &mut Items<KeptQuery>,
) -> Result<(), NoMemory>
    requires { AreKept around.now kept.old }
    ensures { OnOk result (AreKept around.now kept.new) }
{
    for handler in handlers {
        keep_in_stmt(
            alloc,
            handler.action.get(),
            variables,
            cursors,
            around,
            kept,
        )?;
    }
    Ok(())
}
