//! The plan that is kept for a function, merged into a call.

ghost use Rattle.std.specs.Prelude.{◌≡◌, List, [], ◌∷◌, IsSome, IfOk, OnOk};
ghost use Rattle.rel_algebra.specs.declared.plan.Node.{Node as NodeCode};
ghost use Rattle.rel_algebra.specs.Emit.{Emitted};
ghost use Rattle.rel_algebra.specs.Merged.{moved};
ghost use Rattle.rel_algebra.specs.PlanView.{scalar_of};
ghost use Rattle.catalog_store.specs.Kept.{run_of, IsPlan, HasPlan};
ghost use Rattle.plan_expressions.specs.Drafts.{drafted};
ghost use Rattle.plan_expressions.specs.Emission.{Emits};
ghost use Rattle.plan_expressions.specs.Merging.{HasRun, move_of, with_run};

use crate::draft::Draft;
use crate::moved::{Shift, moved_kind, moved_list, moved_scalar};
use crate::moved_plans::moved_plan;
use catalog_store::FunctionPlan;
use rel_algebra::{Node, Scalar};
use sql_values::NoMemory;

/// The body of a function where it is called, by the plan that is kept for it. The columns of the
/// plan in the making hold the arguments from `first` on.
pub fn merge_kept(
    plan: &Option<FunctionPlan>,
    first: usize,
    draft: &mut Draft,
) -> Result<Scalar, NoMemory>
    requires { HasRun plan.now }
    ensures { IfOk result (λ s. (e : Emitted) → HasPlan plan.now e →
        Emits draft.old draft.new (scalar_of s)
        (moved (record { by = (drafted draft.old).width; from = first }) 0 e)) }
{
    match plan {
        Some(plan) => merge(plan, first, draft),
        None => unreachable!(),
    }
}

// Puts the nodes of a function's plan over a plan in the making, and gives the function's value
// over these.
fn merge(plan: &FunctionPlan, first: usize, draft: &mut Draft) -> Result<Scalar, NoMemory>
    requires { IsSome (run_of plan.now.nodes) }
    ensures { IfOk result (λ s. (e : Emitted) → IsPlan plan.now e →
        Emits draft.old draft.new (scalar_of s)
        (moved (record { by = (drafted draft.old).width; from = first }) 0 e)) }
{
    let shift = Shift {
        by: draft.columns(),
        from: first,
    };
    for node in plan.nodes.as_slice() {
        merge_node(node, shift, draft)?;
    }
    Ok(moved_scalar(draft.allocator(), shift, 0, &plan.scalar)?)
}

// Puts a node that adds columns over a plan in the making, moved.
fn merge_node(node: &Node, shift: Shift, draft: &mut Draft) -> Result<(), NoMemory>
    requires { IsSome (run_of (node.now ∷ [])) }
    ensures { OnOk result ((others : List NodeCode) →
        with_run (move_of shift) (run_of others) (drafted draft.new) ≡ with_run (move_of shift)
        (run_of (node.now ∷ others)) (drafted draft.old)) }
{
    let alloc = draft.allocator();
    match node {
        Node::Extend(scalars) => {
            let scalars = moved_list(alloc, shift, 0, scalars.as_slice())?;
            Ok(draft.extend(scalars)?)
        }
        Node::Apply(when, kind, inner) => {
            let when = moved_scalar(alloc, shift, 0, when)?;
            let kind = moved_kind(alloc, shift, 0, kind)?;
            let inner = moved_plan(alloc, shift, 0, inner.get())?;
            Ok(draft.apply(when, kind, inner)?)
        }
        _ => unreachable!(),
    }
}
