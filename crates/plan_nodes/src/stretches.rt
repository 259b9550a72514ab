//! Which nodes of a plan act row by row. Those that stand together are a stretch, through which
//! rows go one after another; between stretches stand the nodes that take whole lists.

ghost use Rattle.std.specs.Prelude.{◌≡◌};
ghost use Rattle.std.specs.List.{prefix_len};
ghost use Rattle.plan_nodes.specs.Fates.{by_row};

use rel_algebra::Node;

// Whether a node acts on each row alone.
fn acts_by_row(node: &Node) -> bool
    ensures { result ≡ by_row node.now }
{
    match node {
        Node::Extend(_) => true,
        Node::Filter(_) => true,
        Node::Keep(_) => true,
        _ => false,
    }
}

/// How many nodes that act row by row come first.
pub fn stretch_len(nodes: &[Node]) -> usize
    ensures { result ≡ prefix_len by_row nodes.now }
{
    let mut count = 0;
    for node in nodes {
        if !acts_by_row(node) {
            return count;
        }
        count += 1;
    }
    count
}
