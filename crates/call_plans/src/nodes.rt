//! The nodes of a function's plan over one row without cells, and its value as the only column.

ghost use Rattle.std.specs.Prelude.{◌≡◌, IfOk};
ghost use Rattle.rel_algebra.specs.Emit.{Emitted, listed, singly, width};
ghost use Rattle.rel_algebra.specs.Plan.{kind_width, no_node, unit_row};
ghost use Rattle.rel_algebra.specs.PlanView.{kind_of, node_of, run_of, tree_of, with_nodes};
ghost use Rattle.catalog_store.specs.Kept.{IsPlan};
ghost use Rattle.plan_expressions.specs.Drafts.{drafted};

use catalog_store::FunctionPlan;
use plan_drafts::listed_plan;
use plan_expressions::{Draft, one};
use rel_algebra::{ApplyKind, Leaf, Node, Plan};
use sql_values::NoMemory;
use sqlite_items::Items;
use std::alloc::Global;

/// The plan of what a function emits, by itself: one row of its one value (ISO/IEC 9075-2, 10.4).
pub(crate) fn value_plan(alloc: Global, function: FunctionPlan) -> Result<Plan, NoMemory>
    ensures { IfOk result (λ p. (e : Emitted) → IsPlan function e →
        tree_of p ≡ listed (singly e) 0 unit_row) }
{
    let FunctionPlan { nodes, scalar } = function;
    let columns = columns_after(nodes.as_slice())?;
    let scalars = one(alloc, scalar)?;
    listed_plan(scalars, over_unit(alloc, nodes, columns))
}

// Nodes over one row without cells, whose rows have so many columns.
fn over_unit(alloc: Global, nodes: Items<Node>, columns: usize) -> Draft
    ensures tree { (drafted result).tree ≡ with_nodes nodes unit_row }
    ensures width { (drafted result).width ≡ columns }
{
    let plan = Plan {
        leaf: Leaf::Unit,
        nodes,
    };
    Draft::of_plan(alloc, plan, columns)
}

// How many columns a row without cells has after nodes.
fn columns_after(nodes: &[Node]) -> Result<usize, NoMemory>
    ensures { IfOk result (λ n. n ≡ width (run_of nodes.now) 0) }
{
    let mut columns: usize = 0;
    for node in nodes {
        let Some(more) = columns.checked_add(columns_of(node)) else {
            return Err(NoMemory);
        };
        columns = more;
    }
    Ok(columns)
}

// How many columns a node adds.
fn columns_of(node: &Node) -> usize
    ensures { result ≡ width ((node_of node.now).below no_node) 0 }
{
    match node {
        Node::Extend(scalars) => scalars.len(),
        Node::Apply(_, kind, _) => cells_of(kind),
        _ => 0,
    }
}

// How many cells a kind of Apply makes.
fn cells_of(kind: &ApplyKind) -> usize
    ensures { result ≡ kind_width (kind_of kind.now) }
{
    match kind {
        ApplyKind::Single => 1,
        ApplyKind::Exists => 1,
        ApplyKind::Member(_) => 1,
        ApplyKind::Aggregate(columns) => columns.len(),
        ApplyKind::Into(columns) => *columns,
    }
}
