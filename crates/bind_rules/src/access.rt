//! Whether a bound statement writes tables.

ghost use Rattle.std.specs.Prelude.{◌≡◌, map};
ghost use Rattle.bind_rules.specs.Access as spec;

use bound_trees::{BoundBlock, BoundBranch, BoundHandler, BoundStmt};

/// Whether an INSERT, UPDATE or DELETE stands in a statement, in its handlers too.
#[cycle(writes)]
pub fn writes(stmt: &BoundStmt) -> bool
    ensures { result ≡ spec.writes stmt.now }
{
    match stmt {
        BoundStmt::Insert(_, _) => true,
        BoundStmt::Update(_) => true,
        BoundStmt::Delete(_) => true,
        BoundStmt::Block(block) => writes_in_block(block),
        BoundStmt::If(branches, otherwise) => {
            any_branch(branches.as_slice()) || any_writes(otherwise.as_slice())
        }
        BoundStmt::Case(_, branches, otherwise) => {
            any_branch(branches.as_slice()) || any_writes(otherwise.as_slice())
        }
        BoundStmt::Loop(body) => any_writes(body.as_slice()),
        BoundStmt::While(_, body) => any_writes(body.as_slice()),
        BoundStmt::Repeat(body, _) => any_writes(body.as_slice()),
        BoundStmt::For(_, _, body) => any_writes(body.as_slice()),
        _ => false,
    }
}

#[cycle(writes)]
fn any_writes(stmts: &[BoundStmt]) -> bool
    ensures { result ≡ spec.any (map spec.writes stmts.now) }
{
    for stmt in stmts {
        if writes(stmt) {
            return true;
        }
    }
    false
}

#[cycle(writes)]
fn any_branch(branches: &[BoundBranch]) -> bool
    ensures { result ≡ spec.any (map spec.writes_in_branch branches.now) }
{
    for branch in branches {
        if any_writes(branch.body.as_slice()) {
            return true;
        }
    }
    false
}

#[cycle(writes)]
fn any_action(handlers: &[BoundHandler]) -> bool
    ensures { result ≡ spec.any (map spec.writes_in_handler handlers.now) }
{
    for handler in handlers {
        if writes(handler.action.get()) {
            return true;
        }
    }
    false
}

#[cycle(writes)]
fn writes_in_block(block: &BoundBlock) -> bool
    ensures { result ≡ spec.writes_in_block block.now }
{
    any_action(block.handlers.as_slice()) || any_writes(block.statements.as_slice())
}
