//! How many Apply nodes a plan has.

ghost use Rattle.std.specs.Prelude.{◌≡◌, ◌+◌};
ghost use Rattle.rel_algebra.specs.Applies.{applies, applies_in, counted};
ghost use Rattle.rel_algebra.specs.Plan.{unit_row};
ghost use Rattle.rel_algebra.specs.PlanView.{run_of, tree_of, with_node};

use crate::plan::{Node, Plan};

/// The number of Apply nodes of a plan, inner plans included. It stands still at 2^64 - 1.
pub fn apply_count(plan: &Plan) -> u64
    ensures { result ≡ counted (applies (tree_of plan.now)) }
{
    counted_in_plan(plan, 0)
}

// The Apply nodes of a plan beside those that were found before.
#[cycle(counting)]
fn counted_in_plan(plan: &Plan, found: u64) -> u64
    ensures { result ≡ counted (found + applies (tree_of plan.now)) }
{
    let mut total = found;
    for node in plan.nodes.as_slice() {
        total = counted_at(node, total);
    }
    total
}

// Those of a node and of the plans in it.
#[cycle(counting)]
fn counted_at(node: &Node, found: u64) -> u64
    ensures { result ≡ counted (found + applies (with_node node.now unit_row)) }
{
    match node {
        Node::Apply(_, _, inner) => counted_in_plan(inner.get(), found.saturating_add(1)),
        Node::Cross(right) => counted_in_plan(right.get(), found),
        Node::LeftOuter(nodes, _, _, right) => {
            let inside = counted_in_run(nodes.as_slice(), found);
            counted_in_plan(right.get(), inside)
        }
        _ => found,
    }
}

// Those of nodes that are run on pairs, of which only an Extend and an Apply do anything.
#[cycle(counting)]
fn counted_in_run(nodes: &[Node], found: u64) -> u64
    ensures { result ≡ counted (found + applies_in (run_of nodes.now)) }
{
    let mut total = found;
    for node in nodes {
        total = match node {
            Node::Apply(_, _, inner) => counted_in_plan(inner.get(), total.saturating_add(1)),
            _ => total,
        };
    }
    total
}
