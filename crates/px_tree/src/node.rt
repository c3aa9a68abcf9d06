//! One node of the tree: a one-bit adder.
ghost use Rattle.std.specs.Prelude.{◌≡◌};
ghost use Rattle.px_tree.specs.Nodes.{next_node, zero_node};

use px_num::majority;

/// The two latches of a node (docs/MACHINE.md, "The multiplier tree").
#[derive(Clone, Copy)]
pub struct Node {
    pub output: bool,
    pub carry: bool,
}

impl Node {
    /// A node whose latches are 0.
    pub(crate) fn zero() -> Node
        ensures { result ≡ zero_node }
    {
        Node {
            output: false,
            carry: false,
        }
    }

    /// The node after a feed: an odd one adds its line to the parent's output, an even one passes it on.
    pub(crate) fn next(odd: bool, parent: bool, line: bool, carry: bool) -> Node
        ensures { result ≡ next_node odd parent line carry }
    {
        if odd {
            Node {
                output: parent ^ line ^ carry,
                carry: majority(parent, line, carry),
            }
        } else {
            Node {
                output: parent,
                carry: false,
            }
        }
    }
}
