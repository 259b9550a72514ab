//! Whether each SELECT INTO of a body has as many columns as targets (ISO/IEC 9075-2, 14.7).

ghost use Rattle.std.specs.Prelude.{◌≡◌, map};
ghost use Rattle.region_trees.specs.Form.{all};
ghost use Rattle.block_forms.specs.Filled as spec;

use block_plans::Functions;
use bound_trees::{BoundBlock, BoundBranch, BoundHandler, BoundQuery, BoundStmt, BoundTarget};
use plan_drafts::columns_of;

// Whether a query has as many columns as there are targets.
fn fills(query: &BoundQuery, targets: &[BoundTarget], functions: &Functions) -> bool
    ensures { result ≡ spec.fills functions.now query.now targets.now }
{
    let _functions = functions;
    columns_of(query) == targets.len()
}

/// Whether each SELECT INTO in a statement has as many columns as targets.
#[cycle(filled)]
pub(crate) fn filled(stmt: &BoundStmt, functions: &Functions) -> bool
    ensures { result ≡ spec.filled functions.now stmt.now }
{
    match stmt {
        BoundStmt::Block(block) => block_filled(block, functions),
        BoundStmt::If(branches, otherwise) => {
            branches_filled(branches.as_slice(), functions)
                && all_filled(otherwise.as_slice(), functions)
        }
        BoundStmt::Case(_, branches, otherwise) => {
            branches_filled(branches.as_slice(), functions)
                && all_filled(otherwise.as_slice(), functions)
        }
        BoundStmt::SelectInto(query, targets) => fills(query, targets.as_slice(), functions),
        _ => true,
    }
}

#[cycle(filled)]
fn all_filled(stmts: &[BoundStmt], functions: &Functions) -> bool
    ensures { result ≡ all (map (spec.filled functions.now) stmts.now) }
{
    for stmt in stmts {
        if !filled(stmt, functions) {
            return false;
        }
    }
    true
}

#[cycle(filled)]
fn branches_filled(branches: &[BoundBranch], functions: &Functions) -> bool
    ensures { result ≡ all (map (spec.filled_branch functions.now) branches.now) }
{
    for branch in branches {
        if !all_filled(branch.body.as_slice(), functions) {
            return false;
        }
    }
    true
}

#[cycle(filled)]
fn actions_filled(handlers: &[BoundHandler], functions: &Functions) -> bool
    ensures { result ≡ all (map (spec.filled_handler functions.now) handlers.now) }
{
    for handler in handlers {
        if !filled(handler.action.get(), functions) {
            return false;
        }
    }
    true
}

#[cycle(filled)]
fn block_filled(block: &BoundBlock, functions: &Functions) -> bool
    ensures { result ≡ spec.filled_block functions.now block.now }
{
    actions_filled(block.handlers.as_slice(), functions)
        && all_filled(block.statements.as_slice(), functions)
}
