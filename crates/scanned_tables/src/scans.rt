//! The tables that a plan reads, with how many columns each has in it.

ghost use Rattle.std.specs.Prelude.{◌≡◌, ◌++◌, IfOk, OnOk};
ghost use Rattle.rel_algebra.specs.Plan.{unit_row};
ghost use Rattle.rel_algebra.specs.PlanView.{leaf_of, run_of, tree_of, with_node};
ghost use Rattle.scanned_tables.specs.Scans as spec;

use rel_algebra::{Leaf, Node, Plan};
use sql_values::{Name, NoMemory};
use sqlite_items::Items;
use std::alloc::Global;

/// A table that a plan reads, and how many columns its rows have there.
#[derive(Drop)]
pub struct ScannedTable {
    pub name: Name,
    pub columns: usize,
}

/// The tables that a plan reads, in inner plans too, each as often as it does.
pub fn scanned(alloc: Global, plan: &Plan) -> Result<Items<ScannedTable>, NoMemory>
    ensures { IfOk result (λ found. found ≡ spec.scans (tree_of plan.now)) }
{
    let mut found = Items::new(alloc);
    note_plan(plan, &mut found)?;
    Ok(found)
}

// Those of a plan after others.
#[cycle(scans)]
fn note_plan(plan: &Plan, found: &mut Items<ScannedTable>) -> Result<(), NoMemory>
    ensures { OnOk result (found.new ≡ found.old ++ spec.scans (tree_of plan.now)) }
{
    note_leaf(&plan.leaf, found)?;
    for node in plan.nodes.as_slice() {
        note_node(node, found)?;
    }
    Ok(())
}

// That of a leaf, where it has one.
fn note_leaf(leaf: &Leaf, found: &mut Items<ScannedTable>) -> Result<(), NoMemory>
    ensures { OnOk result (found.new ≡ found.old ++ spec.scans (leaf_of leaf.now)) }
{
    match leaf {
        Leaf::Unit => Ok(()),
        Leaf::Scan(name, columns) => {
            let name = name.copied()?;
            found.push(ScannedTable {
                name,
                columns: *columns,
            })?;
            Ok(())
        }
        Leaf::Values(_) => Ok(()),
    }
}

// Those of the plans in a node.
#[cycle(scans)]
fn note_node(node: &Node, found: &mut Items<ScannedTable>) -> Result<(), NoMemory>
    ensures { OnOk result (found.new ≡ found.old ++ spec.scans (with_node node.now unit_row)) }
{
    match node {
        Node::Apply(_, _, inner) => note_plan(inner.get(), found),
        Node::Cross(right) => note_plan(right.get(), found),
        Node::LeftOuter(nodes, _, _, right) => {
            note_run(nodes.as_slice(), found)?;
            note_plan(right.get(), found)
        }
        _ => Ok(()),
    }
}

// Those of nodes that are run on pairs, of which an Apply alone has a plan.
#[cycle(scans)]
fn note_run(nodes: &[Node], found: &mut Items<ScannedTable>) -> Result<(), NoMemory>
    ensures { OnOk result (found.new ≡ found.old ++ spec.scans_in (run_of nodes.now)) }
{
    for node in nodes {
        match node {
            Node::Apply(_, _, inner) => note_plan(inner.get(), found)?,
            _ => {}
        }
    }
    Ok(())
}
