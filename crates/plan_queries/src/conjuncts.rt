//! The conjuncts of WHERE, ON and HAVING: a Filter each.

ghost use Rattle.std.specs.Prelude.{◌≡◌, ℕ, List, OnOk};
ghost use Rattle.rel_algebra.specs.Emit.{Emitted, Waiting as Waits, none_waits, emit, emit_tests};
ghost use Rattle.rel_algebra.specs.Emit.{filters, filters_width, key_of as key_by, test_step};
ghost use Rattle.block_plans.specs.View.{exprs_seen, expr_seen};
ghost use Rattle.block_plans.specs.Callees.{width_in};
ghost use Rattle.plan_expressions.specs.Drafts.{drafted};
ghost use Rattle.plan_expressions.specs.Scopes.{env_of};
ghost use Rattle.plan_drafts.specs.Conjuncts.{waiting_of};

use crate::emit::emit_expr;
use block_plans::Functions;
use bound_trees::BoundExpr;
use plan_drafts::{Waiting, key_of};
use plan_expressions::{Draft, NameSources};
use sql_values::NoMemory;

/// Puts a Filter over a plan for each conjunct (ISO/IEC 9075-2, 7.12 and 7.14), after the nodes
/// that it needs. Those that compare a column with a name from outside wait for the next one that
/// does not, those with parameters before those with columns.
#[cycle(query)]
pub fn filter_by(
    conjuncts: &[BoundExpr],
    scope: &NameSources,
    draft: &mut Draft,
    functions: &Functions,
) -> Result<(), NoMemory>
    ensures tree { OnOk result ((drafted draft.new).tree ≡ filters
        (emit_tests (exprs_seen functions.now conjuncts.now) (width_in functions.now)
        (env_of scope.now) none_waits (drafted draft.old).width) (drafted draft.old).tree) }
    ensures width { OnOk result ((drafted draft.new).width ≡ filters_width
        (emit_tests (exprs_seen functions.now conjuncts.now) (width_in functions.now)
        (env_of scope.now) none_waits (drafted draft.old).width) (drafted draft.old).width) }
{
    let mut waiting = Waiting::none(draft.allocator());
    for conjunct in conjuncts {
        filter_one(conjunct, scope, &mut waiting, draft, functions)?;
    }
    waiting.filter(draft)
}

// Lets a conjunct wait, or puts its Filter over a plan after those of the ones that wait.
#[cycle(query)]
fn filter_one(
    conjunct: &BoundExpr,
    scope: &NameSources,
    waiting: &mut Waiting,
    draft: &mut Draft,
    functions: &Functions,
) -> Result<(), NoMemory>
    ensures tree { OnOk result ((rest : Waits → ℕ → List Emitted) →
        filters (rest (waiting_of waiting.new) (drafted draft.new).width) (drafted draft.new).tree
        ≡ filters (test_step (key_by (expr_seen functions.now conjunct.now) (env_of scope.now))
        (emit (expr_seen functions.now conjunct.now) (width_in functions.now) (env_of scope.now)
        (drafted draft.old).width) rest (waiting_of waiting.old) (drafted draft.old).width)
        (drafted draft.old).tree) }
    ensures width { OnOk result ((rest : Waits → ℕ → List Emitted) →
        filters_width (rest (waiting_of waiting.new) (drafted draft.new).width)
        (drafted draft.new).width
        ≡ filters_width
        (test_step (key_by (expr_seen functions.now conjunct.now) (env_of scope.now))
        (emit (expr_seen functions.now conjunct.now) (width_in functions.now) (env_of scope.now)
        (drafted draft.old).width) rest (waiting_of waiting.old) (drafted draft.old).width)
        (drafted draft.old).width) }
{
    match key_of(conjunct, scope)? {
        Some(key) => waiting.add(key, draft),
        None => {
            waiting.flush(draft)?;
            let test = emit_expr(conjunct, scope, draft, functions)?;
            draft.filter(test)
        }
    }
}
