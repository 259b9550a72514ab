//! The plans inside a function's plan, copied to where it is merged into a call: the columns of the
//! function's own row, which is a row outside them, stand further after, and its arguments are read
//! in that row. `depth` says which of the rows outside a plan it is, from 0 for the innermost.

ghost use Rattle.std.specs.Prelude.{◌≡◌, IfOk};
ghost use Rattle.rel_algebra.specs.Merged.{moved_tree, moved_lists};
ghost use Rattle.rel_algebra.specs.PlanView.{leaf_of, lists_of, tree_of};
ghost use Rattle.plan_expressions.specs.Merging.{move_of, IsMoved, AreMoved};

use crate::moved::{Shift, moved_kind, moved_list, moved_scalar};
use rel_algebra::{Leaf, Node, Plan, ScalarRow};
use sql_values::NoMemory;
use sqlite_items::{Boxed, Items};
use std::alloc::Global;

/// A plan, moved.
#[cycle(moved_plans)]
pub fn moved_plan(alloc: Global, shift: Shift, depth: usize, plan: &Plan) -> Result<Plan, NoMemory>
    ensures { IfOk result (λ p. tree_of p ≡ moved_tree (move_of shift) depth (tree_of plan.now)) }
{
    let nodes = moved_nodes(alloc, shift, depth, plan.nodes.as_slice())?;
    let leaf = moved_leaf(alloc, shift, depth, &plan.leaf)?;
    Ok(Plan { leaf, nodes })
}

// Nodes, moved.
#[cycle(moved_plans)]
fn moved_nodes(
    alloc: Global,
    shift: Shift,
    depth: usize,
    nodes: &[Node],
) -> Result<Items<Node>, NoMemory>
    ensures { IfOk result (λ ns. AreMoved (move_of shift) depth nodes.now ns) }
{
    let mut moved = Items::from_vec(Vec::with_capacity(alloc, nodes.len())?);
    for node in nodes {
        let copy = moved_node(alloc, shift, depth, node)?;
        moved.push(copy)?;
    }
    Ok(moved)
}

// A node, moved.
#[cycle(moved_plans)]
fn moved_node(alloc: Global, shift: Shift, depth: usize, node: &Node) -> Result<Node, NoMemory>
    ensures { IfOk result (λ n. IsMoved (move_of shift) depth node.now n) }
{
    let Some(row) = depth.checked_add(1) else {
        return Err(NoMemory);
    };
    match node {
        Node::Extend(scalars) => {
            let scalars = moved_list(alloc, shift, row, scalars.as_slice())?;
            Ok(Node::Extend(scalars))
        }
        Node::Apply(when, kind, inner) => {
            let inner = Boxed::new(alloc, moved_plan(alloc, shift, row, inner.get())?)?;
            let when = moved_scalar(alloc, shift, row, when)?;
            let kind = moved_kind(alloc, shift, row, kind)?;
            Ok(Node::Apply(when, kind, inner))
        }
        Node::Filter(test) => {
            let test = moved_scalar(alloc, shift, row, test)?;
            Ok(Node::Filter(test))
        }
        Node::Keep(places) => Ok(Node::Keep(places.copied(alloc)?)),
        Node::Cross(right) => {
            let right = Boxed::new(alloc, moved_plan(alloc, shift, depth, right.get())?)?;
            Ok(Node::Cross(right))
        }
        Node::LeftOuter(nodes, test, nulls, right) => {
            let nodes = moved_nodes(alloc, shift, depth, nodes.as_slice())?;
            let right = Boxed::new(alloc, moved_plan(alloc, shift, depth, right.get())?)?;
            let test = moved_scalar(alloc, shift, row, test)?;
            Ok(Node::LeftOuter(nodes, test, *nulls, right))
        }
        Node::Settle => Ok(Node::Settle),
        Node::Group(places, columns) => {
            let places = Items::from_slice(alloc, places.as_slice())?;
            let columns = Items::from_slice(alloc, columns.as_slice())?;
            Ok(Node::Group(places, columns))
        }
        Node::Sort(keys) => Ok(Node::Sort(Items::from_slice(alloc, keys.as_slice())?)),
    }
}

// Where the rows of a plan come from, moved.
fn moved_leaf(alloc: Global, shift: Shift, depth: usize, leaf: &Leaf) -> Result<Leaf, NoMemory>
    ensures { IfOk result (λ l. leaf_of l ≡ moved_tree (move_of shift) depth (leaf_of leaf.now)) }
{
    match leaf {
        Leaf::Unit => Ok(Leaf::Unit),
        Leaf::Scan(name, columns) => Ok(Leaf::Scan(name.copied()?, *columns)),
        Leaf::Values(rows) => {
            let Some(row) = depth.checked_add(1) else {
                return Err(NoMemory);
            };
            Ok(Leaf::Values(moved_rows(alloc, shift, row, rows.as_slice())?))
        }
    }
}

// The lists of Values, moved.
fn moved_rows(
    alloc: Global,
    shift: Shift,
    row: usize,
    rows: &[ScalarRow],
) -> Result<Items<ScalarRow>, NoMemory>
    ensures { IfOk result (λ rs. lists_of rs ≡ moved_lists (move_of shift) row (lists_of rows.now)) }
{
    let mut moved = Items::from_vec(Vec::with_capacity(alloc, rows.len())?);
    for list in rows {
        let scalars = moved_list(alloc, shift, row, list.scalars.as_slice())?;
        moved.push(ScalarRow { scalars })?;
    }
    Ok(moved)
}
