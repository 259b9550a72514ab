//! The lines of a plan. The nodes of a plan are a list, so their lines are written from the top
//! down, then the leaf's, and then, on the way back up, those of the plans that they run or join.

ghost use Rattle.std.specs.Prelude.{◌≡◌, [], ◌+◌, ◌-◌, ◌++◌, length, not, ◌||◌, IfOk, OnOk};
ghost use Rattle.rel_algebra.specs.Plan.{no_node, unit_row};
ghost use Rattle.rel_algebra.specs.PlanText.{indented};
ghost use Rattle.rel_algebra.specs.PlanView.{leaf_of, node_of, run_of, tree_of, with_node};
ghost use Rattle.plan_text.specs.PlanLines.{node_text, nothing, plan_lines, plan_text, run_lines};
ghost use Rattle.plan_text.specs.Parts.{all_parts, further, has_node, heads, line, parts_of};
ghost use Rattle.plan_text.specs.Parts.{tails};

use crate::nodes::{put_leaf, put_node};
use rel_algebra::{Leaf, Node, Plan};
use reply_text::put;
use sql_values::NoMemory;

/// Writes the text of a plan: a line for each node, two spaces further in than the one above it.
pub fn put_plan(text: &mut Vec<u8>, plan: &Plan) -> Result<(), NoMemory>
    ensures { OnOk result (text.new.items ≡ text.old.items ++ plan_text (tree_of plan.now)) }
{
    put_lines(plan, 0, text)
}

// Writes the lines of a plan, of which the first stands so many steps in.
#[cycle(lines)]
fn put_lines(plan: &Plan, depth: usize, text: &mut Vec<u8>) -> Result<(), NoMemory>
    ensures { OnOk result (text.new.items ≡ text.old.items ++ plan_lines (tree_of plan.now) depth) }
{
    let nodes = plan.nodes.as_slice();
    let inside = put_heads(nodes, false, depth, text)?;
    put_leaf_line(&plan.leaf, inside, text)?;
    put_tails(nodes, false, inside, text)
}

// Writes the lines of a run of nodes.
#[cycle(lines)]
fn put_run(nodes: &[Node], depth: usize, text: &mut Vec<u8>) -> Result<(), NoMemory>
    ensures { OnOk result (text.new.items ≡ text.old.items ++ run_lines (run_of nodes.now) nothing
        depth) }
{
    let inside = put_heads(nodes, true, depth, text)?;
    put_tails(nodes, true, inside, text)
}

// Writes the lines of the plans that nodes run or join, those of the first node so many steps in.
#[cycle(lines)]
fn put_tails(nodes: &[Node], in_run: bool, depth: usize, text: &mut Vec<u8>) -> Result<(), NoMemory>
    ensures { OnOk result (text.new.items ≡ text.old.items ++ tails (all_parts in_run nodes.now)
        depth) }
{
    let mut inside = depth;
    for node in nodes {
        let above = put_tail(node, in_run, inside, text)?;
        inside = above;
    }
    Ok(())
}

// The same of a node; and how many steps in those of the node above it stand.
#[cycle(lines)]
fn put_tail(node: &Node, in_run: bool, depth: usize, text: &mut Vec<u8>) -> Result<usize, NoMemory>
    ensures text { OnOk result (text.new.items ≡ text.old.items ++ tails
        (parts_of in_run node.now) depth) }
    ensures depth { IfOk result (λ n. n ≡ depth - length (parts_of in_run node.now)) }
{
    if !has_line(node, in_run) {
        return Ok(depth);
    }
    put_further(node, depth, text)?;
    Ok(one_out(depth))
}

// The same of a node that has a line.
#[cycle(lines)]
fn put_further(node: &Node, depth: usize, text: &mut Vec<u8>) -> Result<(), NoMemory>
    ensures { OnOk result (text.new.items ≡ text.old.items ++ further (with_node node.now unit_row)
        depth) }
{
    match node {
        Node::Apply(_, _, inner) => put_lines(inner.get(), depth, text),
        Node::Cross(right) => put_lines(right.get(), depth, text),
        Node::LeftOuter(nodes, _, _, right) => {
            put_lines(right.get(), depth, text)?;
            put_run(nodes.as_slice(), depth, text)
        }
        _ => Ok(()),
    }
}

// Whether a node does anything in a run.
fn acts_in_run(node: &Node) -> bool
    ensures { result ≡ has_node ((node_of node.now).below no_node) }
{
    match node {
        Node::Extend(_) => true,
        Node::Apply(_, _, _) => true,
        _ => false,
    }
}

// Whether a node of a plan, or of a run, has a line.
fn has_line(node: &Node, in_run: bool) -> bool
    ensures { result ≡ (not in_run || has_node ((node_of node.now).below no_node)) }
{
    if in_run { acts_in_run(node) } else { true }
}

// A step further in.
fn one_in(depth: usize) -> Result<usize, NoMemory>
    ensures { IfOk result (λ n. n ≡ depth + 1) }
{
    match depth.checked_add(1) {
        Some(inside) => Ok(inside),
        None => Err(NoMemory),
    }
}

// A step back out.
fn one_out(depth: usize) -> usize
    ensures { result ≡ depth - 1 }
{
    depth.saturating_sub(1)
}

// Writes the lines of nodes, the last of them first; and how many steps in the line below them
// stands.
fn put_heads(
    nodes: &[Node],
    in_run: bool,
    depth: usize,
    text: &mut Vec<u8>,
) -> Result<usize, NoMemory>
    ensures text { OnOk result (text.new.items ≡ text.old.items ++ heads
        (all_parts in_run nodes.now) depth) }
    ensures depth { IfOk result (λ n. n ≡ depth + length (all_parts in_run nodes.now)) }
{
    let mut inside = depth;
    let mut left = nodes.len();
    while left > 0 {
        left -= 1;
        let lower = put_head(&nodes[left], in_run, inside, text)?;
        inside = lower;
    }
    Ok(inside)
}

// The same of a node.
fn put_head(node: &Node, in_run: bool, depth: usize, text: &mut Vec<u8>) -> Result<usize, NoMemory>
    ensures text { OnOk result (text.new.items ≡ text.old.items ++ heads
        (parts_of in_run node.now) depth) }
    ensures depth { IfOk result (λ n. n ≡ depth + length (parts_of in_run node.now)) }
{
    if !has_line(node, in_run) {
        return Ok(depth);
    }
    let inside = one_in(depth)?;
    put_line(node, depth, text)?;
    Ok(inside)
}

// Writes the line of a node.
fn put_line(node: &Node, depth: usize, text: &mut Vec<u8>) -> Result<(), NoMemory>
    ensures { OnOk result (text.new.items ≡ text.old.items ++ line
        (node_text (with_node node.now unit_row)) depth) }
{
    put_margin(text, depth)?;
    put_node(text, node)?;
    put(text, b"\n")
}

// Writes the line of a leaf.
fn put_leaf_line(leaf: &Leaf, depth: usize, text: &mut Vec<u8>) -> Result<(), NoMemory>
    ensures { OnOk result (text.new.items ≡ text.old.items ++ line (node_text (leaf_of leaf.now))
        depth) }
{
    put_margin(text, depth)?;
    put_leaf(text, leaf)?;
    put(text, b"\n")
}

// Writes two spaces for each step in.
fn put_margin(text: &mut Vec<u8>, depth: usize) -> Result<(), NoMemory>
    ensures { OnOk result (text.new.items ≡ text.old.items ++ indented depth []) }
{
    for _ in 0..depth {
        put(text, b"  ")?;
    }
    Ok(())
}
