//! The links from each node to its parent, by which the search comes back up.
ghost use Rattle.std.specs.Prelude.{◌≡◌};
ghost use Rattle.policy.specs.Links.{parent_from};

use table::{Node, times_in};

/// The node that has `child` for an operand; the root, which is no operand, is its own parent.
pub(crate) fn parent_of(nodes: &[Node], child: usize) -> usize
    ensures { result ≡ parent_from 0 nodes.now child }
{
    nodes
        .iter()
        .position(|node| times_in(*node, child) != 0)
        .unwrap_or(child)
}
