//! The multiplier tree with 64 nodes in a word.
ghost use Rattle.std.specs.Prelude.{◌≡◌, ◌<◌, ◌≤◌, ◌+◌, ◌*◌, ◌/◌, ◌^◌, length, IfOk};
ghost use Rattle.std.specs.Prelude.{false};
ghost use Rattle.px_tree.specs.Nodes.{IsGrid, cleared};
ghost use Rattle.px_rows.specs.Rows.{EachBit};
ghost use Rattle.px_plane_tree.specs.Lent.{IsLatch, output_bit};
ghost use Rattle.px_plane_tree.specs.Trees.{heights as heights_of};

use crate::heads::Heads;
use crate::heap::{Feed, feed_heap};
use crate::small::unpack;
use px_num::{Memory, power};
use px_rows::{bit_of_row, part, zero_row};
use px_tree::{Lines, Tree, leaf_place, node_place};
use std::alloc::Global;
use std::marker::Model;

/// A tree of `2^nx` by `2^ny` leaves, whose outputs and carries are two rows of words.
///
/// Node `i` of level `k` is bit `place mod 64` of word `place div 64`, where `place = 2^k + i`. So
/// a level of 64 nodes or more is whole words, and the children of the nodes in word `h` are in
/// the words `2h` and `2h + 1`.
#[derive(Drop)]
pub struct PlaneTree {
    nx: u32,
    ny: u32,
    outputs: Vec<u64>,
    carries: Vec<u64>,
    /// The outputs of levels 1 to 5 once more, each in the word of its level.
    small: Vec<u64>,
    /// Of each level from 7 on: whether it did not move in the last feed.
    still: Vec<bool>,
    /// The lines of the last feed.
    last: Lines,
    heads: Heads,
}

impl Model for PlaneTree {
    ghost use Rattle.std.specs.Prelude.{◌≡◌, ◌+◌, ◌^◌};
    ghost use Rattle.px_tree.specs.Nodes.{TreeState};
    ghost use Rattle.px_plane_tree.specs.Heap.{rows};
    ghost use Rattle.px_plane_tree.specs.Trees.{AreHeads, IsTree, seen_tree};

    ghost Value = { TreeState };

    ghost view = { λ t. seen_tree t.nx t.ny t.outputs.items t.carries.items };

    ghost invariant = { λ t. record {
      tree : IsTree t.nx t.ny (rows t.outputs.items t.carries.items) t.small.items t.still.items t.last;
      first_b : t.heads.first_b ≡ 2 ^ (t.nx + 1);
      heads : AreHeads t.heads;
    } };
}

impl PlaneTree {
    /// A tree whose latches are all 0.
    #[tactic(auto, using(crate::proofs::TreeLemmas::zero_tree, crate::proofs::TreeLemmas::cleared_seen))]
    pub fn new(alloc: Global, nx: u32, ny: u32) -> Result<PlaneTree, Memory>
        requires { IsGrid nx ny }
        ensures { IfOk result (λ tree. tree ≡ cleared nx ny) }
    {
        let heights = heights(nx + ny);
        let words = power(heights as u32 + 1);
        let outputs = zero_row(alloc, words)?;
        let carries = zero_row(alloc, words)?;
        let small = zero_row(alloc, 6)?;
        let still = vec![in alloc; true; heights]?;
        let heads = Heads::new(alloc, power(nx + 1))?;
        Ok(PlaneTree {
            nx,
            ny,
            outputs,
            carries,
            small,
            still,
            last: no_lines(),
            heads,
        })
    }

    /// `(nx, ny)`: how many levels have line a, and how many line b.
    pub fn size(&self) -> (u32, u32)
        ensures size { result ≡ (self.now.nx, self.now.ny) }
        ensures grid { IsGrid self.now.nx self.now.ny }
    {
        (self.nx, self.ny)
    }

    /// Takes the latches of another tree of the same grid.
    pub fn copy_from(&mut self, other: &PlaneTree)
        requires columns { self.old.nx ≡ other.now.nx }
        requires rows { self.old.ny ≡ other.now.ny }
        ensures { self.new ≡ other.now }
    {
        self.outputs.copy_from_slice(&other.outputs);
        self.carries.copy_from_slice(&other.carries);
        self.small.copy_from_slice(&other.small);
        self.still.copy_from_slice(&other.still);
        self.last = other.last;
    }

    /// The words of the outputs of a level; levels are counted from 1.
    ///
    /// Bit `p mod 64` of word `p div 64` is the output of node `p`, and the bits past the last node
    /// are 0.
    #[tactic(auto, using(crate::proofs::OutputLemmas::small_words, crate::proofs::OutputLemmas::small_bits, crate::proofs::OutputLemmas::large_words, crate::proofs::OutputLemmas::large_bits, crate::proofs::OutputLemmas::large_fits))]
    pub fn outputs(&self, level: u32) -> &[u64]
        requires from_one { 1 ≤ level }
        requires in_tree { level ≤ self.now.nx + self.now.ny }
        ensures words { length result.now ≡ (2 ^ level + 63) / 64 }
        ensures bits { EachBit result.now (output_bit self.now level) }
    {
        if level < 6 {
            let at = level as usize;
            part(&self.small, at, at + 1)
        } else {
            let at = power(level - 6);
            part(&self.outputs, at, 2 * at)
        }
    }

    /// The words of the outputs of all nodes, and those of their carries.
    #[tactic(auto, using(crate::proofs::TreeLemmas::bit_seen, crate::proofs::TreeLemmas::carry_seen))]
    pub fn nodes(&self) -> (&[u64], &[u64])
        ensures outputs { IsLatch self.now (λ n. n.output) result.0.now }
        ensures carries { IsLatch self.now (λ n. n.carry) result.1.now }
    {
        (&self.outputs, &self.carries)
    }
}

impl Tree for PlaneTree {
    ghost state = { λ t. t };

    #[tactic(auto, using(crate::proofs::TreeLemmas::cleared_seen, crate::proofs::TreeLemmas::zero_tree))]
    fn clear(&mut self) {
        self.outputs.fill(0);
        self.carries.fill(0);
        self.small.fill(0);
        self.still.fill(true);
        self.last = no_lines();
    }

    fn feed(&mut self, a: bool, b: bool, c: bool) {
        let now = Lines { a, b, c };
        let feed = Feed {
            nx: self.nx,
            last: self.last,
            now,
            heads: self.heads.of(a, b),
        };
        feed_heap(&mut self.outputs, &mut self.carries, &mut self.still, feed);
        self.last = now;
        unpack(self.outputs[0], &mut self.small);
    }

    #[tactic(auto, using(crate::proofs::TreeLemmas::bit_seen))]
    fn leaf(&self, x: u32, y: u32) -> bool {
        bit_of_row(&self.outputs, leaf_place(self.nx, self.ny, x, y))
    }

    #[tactic(auto, using(crate::proofs::TreeLemmas::bit_seen, crate::proofs::TreeLemmas::carry_seen))]
    fn node(&self, level: u32, index: u32) -> (bool, bool) {
        let at = node_place(self.nx + self.ny, level, index);
        (bit_of_row(&self.outputs, at), bit_of_row(&self.carries, at))
    }
}

/// How many levels from 7 on a tree of so many has, and 1 where it has none.
fn heights(levels: u32) -> usize
    requires { levels ≤ 18 }
    ensures { result ≡ heights_of levels }
{
    if levels < 8 { 1 } else { levels as usize - 6 }
}

fn no_lines() -> Lines
    ensures { result ≡ record { a = false; b = false; c = false } }
{
    Lines {
        a: false,
        b: false,
        c: false,
    }
}
