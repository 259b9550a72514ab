//! The names of the routines that statements call.

use crate::expression_calls::{note_expr, note_query};
use bound_trees::{
    BoundArgument, BoundBlock, BoundBranch, BoundCall, BoundExpr, BoundHandler, BoundInformation,
    BoundQuery, BoundStmt, BoundVariables,
};
use sql_values::{Name, NoMemory};

// Those of an expression that may be left out, after others.
fn note_perhaps<'a>(
    expr: Option<&'a BoundExpr>,
    names: &mut Vec<&'a Name>,
) -> Result<(), NoMemory> {
    match expr {
        Some(expr) => note_expr(expr, names),
        None => Ok(()),
    }
}

// Those of a CALL.
fn note_call<'a>(call: &'a BoundCall, names: &mut Vec<&'a Name>) -> Result<(), NoMemory> {
    names.push(&call.procedure)?;
    for argument in call.arguments.as_slice() {
        match argument {
            BoundArgument::Value(expr) => note_expr(expr, names)?,
            BoundArgument::Variable(_) => {}
            BoundArgument::Given => {}
        }
    }
    Ok(())
}

// Those of the number of a condition.
fn note_information<'a>(
    information: &'a BoundInformation,
    names: &mut Vec<&'a Name>,
) -> Result<(), NoMemory> {
    match information {
        BoundInformation::Statement(_) => Ok(()),
        BoundInformation::Condition(number, _) => note_expr(number, names),
    }
}

// Those of the defaults of declarations.
fn note_defaults<'a>(
    declared: &'a [BoundVariables],
    names: &mut Vec<&'a Name>,
) -> Result<(), NoMemory> {
    for group in declared {
        note_perhaps(group.default.as_ref(), names)?;
    }
    Ok(())
}

// Those of the queries of cursors.
fn note_cursors<'a>(cursors: &'a [BoundQuery], names: &mut Vec<&'a Name>) -> Result<(), NoMemory> {
    for query in cursors {
        note_query(query, names)?;
    }
    Ok(())
}

// Those of a statement that holds no other.
fn note_simple<'a>(stmt: &'a BoundStmt, names: &mut Vec<&'a Name>) -> Result<(), NoMemory> {
    match stmt {
        BoundStmt::Insert(insert, _) => note_query(&insert.source, names),
        BoundStmt::Update(update) => note_query(&update.rows, names),
        BoundStmt::Delete(delete) => note_query(&delete.rows, names),
        BoundStmt::Call(call) => note_call(call, names),
        BoundStmt::Set(_, expr) => note_expr(expr, names),
        BoundStmt::SelectInto(query, _) => note_query(query, names),
        BoundStmt::Signal(signal) => note_perhaps(signal.message.as_ref(), names),
        BoundStmt::Resignal(signal) => note_perhaps(signal.message.as_ref(), names),
        BoundStmt::GetDiagnostics(get) => note_information(&get.information, names),
        BoundStmt::Return(expr) => note_expr(expr, names),
        _ => Ok(()),
    }
}

/// Those of a statement, after others.
#[cycle(statement_calls)]
pub(crate) fn note_stmt<'a>(
    stmt: &'a BoundStmt,
    names: &mut Vec<&'a Name>,
) -> Result<(), NoMemory> {
    match stmt {
        BoundStmt::Block(block) => note_block(block, names),
        BoundStmt::If(branches, otherwise) => {
            note_branches(branches.as_slice(), names)?;
            note_stmts(otherwise.as_slice(), names)
        }
        BoundStmt::Case(operand, branches, otherwise) => {
            note_perhaps(operand.as_ref(), names)?;
            note_branches(branches.as_slice(), names)?;
            note_stmts(otherwise.as_slice(), names)
        }
        BoundStmt::Loop(body) => note_stmts(body.as_slice(), names),
        BoundStmt::While(test, body) => {
            note_expr(test, names)?;
            note_stmts(body.as_slice(), names)
        }
        BoundStmt::Repeat(body, test) => {
            note_expr(test, names)?;
            note_stmts(body.as_slice(), names)
        }
        BoundStmt::For(query, _, body) => {
            note_query(query, names)?;
            note_stmts(body.as_slice(), names)
        }
        _ => note_simple(stmt, names),
    }
}

// Those of several statements.
#[cycle(statement_calls)]
fn note_stmts<'a>(stmts: &'a [BoundStmt], names: &mut Vec<&'a Name>) -> Result<(), NoMemory> {
    for stmt in stmts {
        note_stmt(stmt, names)?;
    }
    Ok(())
}

// Those of tests and of the statements that they choose.
#[cycle(statement_calls)]
fn note_branches<'a>(
    branches: &'a [BoundBranch],
    names: &mut Vec<&'a Name>,
) -> Result<(), NoMemory> {
    for branch in branches {
        note_expr(&branch.test, names)?;
        note_stmts(branch.body.as_slice(), names)?;
    }
    Ok(())
}

// Those of a compound statement.
#[cycle(statement_calls)]
fn note_block<'a>(block: &'a BoundBlock, names: &mut Vec<&'a Name>) -> Result<(), NoMemory> {
    note_defaults(block.variables.as_slice(), names)?;
    note_cursors(block.cursors.as_slice(), names)?;
    note_handlers(block.handlers.as_slice(), names)?;
    note_stmts(block.statements.as_slice(), names)
}

// Those of the actions of handlers.
#[cycle(statement_calls)]
fn note_handlers<'a>(
    handlers: &'a [BoundHandler],
    names: &mut Vec<&'a Name>,
) -> Result<(), NoMemory> {
    for handler in handlers {
        note_stmt(handler.action.get(), names)?;
    }
    Ok(())
}
