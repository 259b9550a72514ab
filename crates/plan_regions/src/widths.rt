//! How many cells a row has after nodes.

ghost use Rattle.std.specs.Prelude.{◌≡◌, ◌-◌, ◌<◌, ◌≤◌, true, List, Some, IfSome};
ghost use Rattle.std.specs.Prelude.{length, slice_get};
ghost use Rattle.sql_values.specs.declared.value.Value.{Value as PlainValue};
ghost use Rattle.row_types.specs.declared.cell.Cell.{Cell as PlainCell};
ghost use Rattle.rel_algebra.specs.declared.plan.Node.TheVariants.{Keep};
ghost use Rattle.region_steps.specs.Chains.{chain_cells};
ghost use Rattle.plan_regions.specs.Regions.{kept_width};

use rel_algebra::{ColumnPlaces, KeptPlaces, Node};

/// How many nodes make the first step: those up to the first that keeps cells, or all.
pub(crate) fn step_len(nodes: &[Node]) -> usize
    requires { 0 < length nodes.now }
    ensures some { 0 < result }
    ensures within { result ≤ length nodes.now }
{
    let mut count = 0;
    for node in nodes {
        count += 1;
        if let Node::Keep(_) = node {
            return count;
        }
    }
    count
}

/// How many cells the last node that keeps some keeps; where none does, so many.
pub(crate) fn width_after(nodes: &[Node], width: usize) -> usize
    ensures { result ≡ kept_width nodes.now width }
{
    let mut wide = width;
    for node in nodes {
        if let Node::Keep(places) = node {
            wide = kept_count(places);
        }
    }
    wide
}

// How many cells are kept.
fn kept_count(places: &ColumnPlaces) -> usize
    ensures { result ≡ length places.now }
{
    match places.as_kept() {
        KeptPlaces::Listed(list) => list.len(),
        KeptPlaces::Front(count) => count,
    }
}

/// Whether the last node keeps one cell.
pub(crate) fn ends_in_one(nodes: &[Node]) -> bool
    ensures { result ≡ true → (row : List PlainCell) (outer : List (List PlainCell))
        (args : List PlainValue) → length (chain_cells nodes.now row outer args) ≡ 1 }
{
    match last_places(nodes) {
        Some(places) => kept_count(places) == 1,
        None => false,
    }
}

// What the last node keeps, where it keeps cells.
fn last_places(nodes: &[Node]) -> Option<&ColumnPlaces>
    ensures { IfSome result (λ places. slice_get nodes.now (length nodes.now - 1) ≡
        Some (Keep places.now)) }
{
    match nodes.last()? {
        Node::Keep(places) => Some(places),
        _ => None,
    }
}
