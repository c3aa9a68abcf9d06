//! A tree with a pair of latches for each node.
ghost use Rattle.std.specs.Prelude.{◌≡◌, IfOk};
ghost use Rattle.px_tree.specs.Nodes.{IsGrid, cleared};

use crate::feeding::{clear_nodes, feed_nodes};
use crate::node::Node;
use crate::places::{leaf_place, node_place};
use crate::tree::Tree;
use px_num::{Memory, power};
use std::alloc::Global;
use std::marker::Model;

/// A tree of `2^nx` by `2^ny` leaves, all of its nodes in one list.
#[derive(Drop)]
pub struct NodeTree {
    nx: u32,
    ny: u32,
    nodes: Vec<Node>,
}

impl Model for NodeTree {
    ghost use Rattle.std.specs.Prelude.{◌≡◌, ◌+◌, ◌^◌, length};
    ghost use Rattle.px_tree.specs.Nodes.{IsGrid, TreeState};

    ghost Value = { TreeState };

    ghost view = { λ t. record { nx = t.nx; ny = t.ny; nodes = t.nodes.items } };

    ghost invariant = { λ t. record {
      grid : IsGrid t.nx t.ny;
      whole : length t.nodes.items ≡ 2 ^ (t.nx + t.ny + 1);
    } };
}

impl NodeTree {
    /// A tree whose latches are all 0.
    pub fn new(alloc: Global, nx: u32, ny: u32) -> Result<NodeTree, Memory>
        requires { IsGrid nx ny }
        ensures { IfOk result (λ tree. tree ≡ cleared nx ny) }
    {
        let nodes = vec![in alloc; Node::zero(); power(nx + ny + 1)]?;
        Ok(NodeTree { nx, ny, nodes })
    }

    /// `(nx, ny)`: how many levels have line a, and how many line b.
    pub fn size(&self) -> (u32, u32)
        ensures size { result ≡ (self.now.nx, self.now.ny) }
        ensures grid { IsGrid self.now.nx self.now.ny }
    {
        (self.nx, self.ny)
    }

    /// Takes the latches of another tree of the same grid.
    pub fn copy_from(&mut self, other: &NodeTree)
        requires columns { self.old.nx ≡ other.now.nx }
        requires rows { self.old.ny ≡ other.now.ny }
        ensures { self.new ≡ other.now }
    {
        self.nodes.copy_from_slice(&other.nodes);
    }
}

impl Tree for NodeTree {
    ghost state = { λ t. t };

    fn clear(&mut self) {
        clear_nodes(&mut self.nodes);
    }

    fn feed(&mut self, a: bool, b: bool, c: bool) {
        let first_b = power(self.nx + 1);
        feed_nodes(&mut self.nodes, a, b, c, first_b);
    }

    fn leaf(&self, x: u32, y: u32) -> bool {
        self.nodes[leaf_place(self.nx, self.ny, x, y)].output
    }

    fn node(&self, level: u32, index: u32) -> (bool, bool) {
        let node = self.nodes[node_place(self.nx + self.ny, level, index)];
        (node.output, node.carry)
    }
}
