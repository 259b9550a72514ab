//! Nodes that leave a row as it is, by the number in its first cell.

ghost use Rattle.std.specs.Prelude.{◌≡◌, ◌++◌, ◌∷◌, [], true, List, length, take, IfSome};
ghost use Rattle.sql_values.specs.declared.value.Value.{Value as PlainValue};
ghost use Rattle.row_types.specs.declared.cell.Cell.{Cell as PlainCell};
ghost use Rattle.rel_algebra.specs.declared.plan.Node.TheVariants.{Extend, Keep};
ghost use Rattle.region_steps.specs.Chains.{chain_cells};
ghost use Rattle.region_steps.specs.Idle.{IsIdle, IsNotAt};

use crate::guards::guarded;
use crate::kept::are_kept;
use rel_algebra::{KeptPlaces, Node, Scalar};
use row_types::Cell;
use sql_values::Value;

/// On a row of so many cells, whose first is another number than the code, nodes leave the first so
/// many cells as they are and drop the others.
#[derive(Clone, Copy)]
pub struct Idle {
    pub code: i64,
    pub width: usize,
    pub left: usize,
}

impl Idle {
    /// Whether a row is one on which the nodes do no more.
    pub fn is_of(&self, cells: &[Cell]) -> bool
        ensures number { result ≡ true → IsNotAt self.now.code cells.now }
        ensures width { result ≡ true → length cells.now ≡ self.now.width }
    {
        if cells.len() != self.width {
            return false;
        }
        match cells {
            [Cell::Val(Value::Int(number)), ..] => *number != self.code,
            _ => false,
        }
    }
}

/// On which rows of so many cells nodes are idle. `None` says nothing.
pub fn idle_of(nodes: &[Node], width: usize) -> Option<Idle>
    ensures { IfSome result (λ idle. IsIdle nodes.now idle) }
{
    let (front, scalars, places) = parts(nodes)?;
    let wide = widened(front, width)?;
    let (code, _) = guarded(scalars.first()?)?;
    if places.len() > width || !are_kept(scalars, code, wide, places) {
        return None;
    }
    Some(Idle {
        code,
        width,
        left: places.len(),
    })
}

// Nodes as some, one that adds the cells of scalars, and one that keeps the cells at places.
fn parts(nodes: &[Node]) -> Option<(&[Node], &[Scalar], &[usize])>
    ensures { IfSome result (λ p. nodes.now
        ≡ p.0.now ++ (Extend p.1.now ∷ Keep p.2.now ∷ [])) }
{
    let (front, last) = nodes.split_at(nodes.len().saturating_sub(2));
    match last {
        [Node::Extend(scalars), Node::Keep(places)] => match places.as_kept() {
            KeptPlaces::Listed(list) => Some((front, scalars.as_slice(), list)),
            KeptPlaces::Front(_) => None,
        },
        _ => None,
    }
}

// How many cells a row of so many has after nodes that all add cells to it. `None` says nothing.
fn widened(nodes: &[Node], width: usize) -> Option<usize>
    ensures { IfSome result (λ wide. (row : List PlainCell) (outer : List (List PlainCell))
        (args : List PlainValue) → length row ≡ width →
        (take width (chain_cells nodes.now row outer args) ≡ row)
        × (length (chain_cells nodes.now row outer args) ≡ wide)) }
{
    let mut wide = width;
    for node in nodes {
        match node {
            Node::Extend(scalars) => wide = wide.checked_add(scalars.len())?,
            _ => return None,
        }
    }
    Some(wide)
}
