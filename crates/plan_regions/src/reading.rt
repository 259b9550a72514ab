//! Which plans make one row of one row.

ghost use Rattle.std.specs.Prelude.{◌≡◌, ◌∷◌, [], true, List, IfOk, IfSome};
ghost use Rattle.std.specs.List.{All, list_all};
ghost use Rattle.sql_values.specs.declared.value.Value.{Value as PlainValue};
ghost use Rattle.row_types.specs.declared.cell.Cell.{Cell as PlainCell};
ghost use Rattle.row_types.specs.Cells.{Whole};
ghost use Rattle.rel_algebra.specs.Plain.{Inputs};
ghost use Rattle.rel_algebra.specs.Plan.{den};
ghost use Rattle.rel_algebra.specs.PlanView.{tree_of};
ghost use Rattle.region_steps.specs.Chains.{chain_cells, is_of_chain};
ghost use Rattle.plan_regions.specs.Regions.{IsRegionOf, IsSound, steps_cells};

use crate::region::{Region, Step};
use crate::widths::{ends_in_one, step_len, width_after};
use region_steps::idle_of;
use rel_algebra::{Leaf, Node, Plan};
use sql_values::NoMemory;
use std::alloc::Global;

/// The steps of a plan, where it makes one row of one cell of the row without cells, by nodes that
/// add cells and nodes that keep some. `None` says nothing of the plan. It fails only for want of
/// memory.
pub fn region_of<'a>(alloc: Global, plan: &'a Plan) -> Result<Option<Region<'a>>, NoMemory>
    ensures { IfOk result (λ found. IfSome found (λ region.
        IsRegionOf region.steps.items (tree_of plan.now))) }
{
    let nodes = plan.nodes.as_slice();
    if !is_chain(plan) || !ends_in_one(nodes) {
        return Ok(None);
    }
    let steps = steps_of(alloc, nodes)?;
    Ok(Some(Region { steps }))
}

// Whether a plan is a chain over the row without cells.
fn is_chain(plan: &Plan) -> bool
    ensures { result ≡ true → (w : Inputs) (outer : List (List PlainCell)) →
        den (tree_of plan.now) w outer
        ≡ Whole (chain_cells plan.now.nodes [] outer w.args) ∷ [] }
{
    match plan.leaf {
        Leaf::Unit => all_of_chain(plan.nodes.as_slice()),
        _ => false,
    }
}

// Whether nodes all make one row of one row.
fn all_of_chain(nodes: &[Node]) -> bool
    ensures { result ≡ list_all is_of_chain nodes.now }
{
    for node in nodes {
        match node {
            Node::Extend(_) => {}
            Node::Keep(_) => {}
            _ => return false,
        }
    }
    true
}

// Nodes as steps, each with the rows on which it is idle.
fn steps_of<'a>(alloc: Global, nodes: &'a [Node]) -> Result<Vec<Step<'a>>, NoMemory>
    ensures sound { IfOk result (λ steps. All IsSound steps.items) }
    ensures cells { IfOk result (λ steps. (row : List PlainCell) (outer : List (List PlainCell))
        (args : List PlainValue) →
        steps_cells steps.items row outer args ≡ chain_cells nodes.now row outer args) }
{
    let mut steps = Vec::new(alloc);
    let mut left = nodes;
    let mut width = 0;
    while left.len() > 0 {
        let (first, rest) = left.split_at(step_len(left));
        let idle = idle_of(first, width);
        steps.push(Step { nodes: first, idle })?;
        width = width_after(first, width);
        left = rest;
    }
    Ok(steps)
}
