//! A clear and a feed of all nodes in place.
ghost use Rattle.std.specs.Prelude.{◌≡◌, length, replicate};
ghost use Rattle.px_num.specs.Lists.{tabulate};
ghost use Rattle.px_tree.specs.Nodes.{next_at, zero_node};

use crate::node::Node;

/// Makes every latch 0.
pub fn clear_nodes(nodes: &mut [Node])
    ensures { nodes.new ≡ replicate (length nodes.old) zero_node }
{
    nodes.fill(Node::zero());
}

/// Feeds every node; the levels of line b begin at place `first_b`.
pub fn feed_nodes(nodes: &mut [Node], a: bool, b: bool, c: bool, first_b: usize)
    ensures { nodes.new ≡ tabulate (length nodes.old) (next_at a b c first_b nodes.old) }
{
    // From the leaves upwards, so that each node is written before its parent.
    for place in (2..nodes.len()).rev() {
        let parent = if place < 4 {
            c
        } else {
            nodes[place / 2].output
        };
        let line = if place < first_b { a } else { b };
        nodes[place] = Node::next(place % 2 == 1, parent, line, nodes[place].carry);
    }
}
