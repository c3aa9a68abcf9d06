//! The nodes of a tree in the words of a state.
ghost use Rattle.std.specs.Prelude.{◌≡◌, ◌≤◌, ◌<◌, ◌+◌, ◌*◌, ◌^◌, ◌&&◌, ℕ, get_or, length, nat_le, nat_lt};
ghost use Rattle.px_num.specs.Bits.{nat_bit};
ghost use Rattle.px_array.specs.Clocks.{after_tree_op};
ghost use Rattle.px_plane_tree.specs.Lent.{IsLatch};
ghost use Rattle.px_tree.specs.Nodes.{TreeState, after_feed, cleared};
ghost use Rattle.px_state.specs.Cells.{HoldsLeaves, HoldsNodes, IsShapeOf, KeepsOutside, leaves_at, nodes_at, nodes_end};

use crate::feeding::fed_word;
use crate::plane::write_plane;
use crate::shape::Shape;
use px_array::TreeOp;
use px_num::power;
use px_planes::full_word;
use px_rows::chosen_word;
use px_tree::Lines;

/// Makes the tree do its operation.
pub(crate) fn move_nodes(words: &mut [u64], shape: &Shape, op: TreeOp)
    requires room { nodes_end shape.now ≤ length words.old }
    ensures nodes { (tree : TreeState) → IsShapeOf shape.now tree → HoldsNodes shape.now tree words.old
        → HoldsNodes shape.now (after_tree_op op tree) words.new }
    ensures kept { KeepsOutside (nodes_at shape.now) (nodes_end shape.now) words.old words.new }
{
    match op {
        TreeOp::Hold => {}
        TreeOp::Clear => clear_nodes(words, shape),
        TreeOp::Feed { a, b, c } => feed_nodes(words, shape, Lines { a, b, c }),
    }
}

/// Writes the plane of leaves, by the nodes.
#[tactic(auto, using(px_num::proofs::TruthLaws::power_grows))]
pub(crate) fn write_leaves(words: &mut [u64], shape: &Shape)
    requires room { nodes_end shape.now ≤ length words.old }
    ensures leaves { (tree : TreeState) → IsShapeOf shape.now tree → HoldsNodes shape.now tree words.old
        → HoldsLeaves shape.now tree words.new }
    ensures kept { KeepsOutside (leaves_at shape.now) (nodes_at shape.now) words.old words.new }
{
    let first = shape.start(shape.bits + 3);
    let (planes, nodes) = words.split_at_mut(shape.start(shape.bits + 4));
    write_plane(planes, first, shape, nodes, power(shape.nx));
}

/// Makes every latch 0.
fn clear_nodes(words: &mut [u64], shape: &Shape)
    requires room { nodes_end shape.now ≤ length words.old }
    ensures nodes { (tree : TreeState) → IsShapeOf shape.now tree
        → HoldsNodes shape.now (cleared tree.nx tree.ny) words.new }
    ensures kept { KeepsOutside (nodes_at shape.now) (nodes_end shape.now) words.old words.new }
{
    let from = shape.start(shape.bits + 4);
    for k in 0..2 * shape.nodes {
        words[from + k] = 0;
    }
}

/// Writes the latches of a tree, whose rows are these.
pub(crate) fn write_nodes(words: &mut [u64], shape: &Shape, outputs: &[u64], carries: &[u64])
    requires room { nodes_end shape.now ≤ length words.old }
    requires outputs { 2 ^ (shape.now.nx + shape.now.ny + 1) ≤ 64 * length outputs.now }
    requires carries { 2 ^ (shape.now.nx + shape.now.ny + 1) ≤ 64 * length carries.now }
    ensures nodes { (tree : TreeState) → IsShapeOf shape.now tree → IsLatch tree (λ n. n.output) outputs.now
        → IsLatch tree (λ n. n.carry) carries.now → HoldsNodes shape.now tree words.new }
    ensures kept { KeepsOutside (nodes_at shape.now) (nodes_end shape.now) words.old words.new }
{
    for w in 0..shape.nodes {
        let there = places(shape, w);
        let output = chosen_word(0, outputs[w], there);
        let carry = chosen_word(0, carries[w], there);
        put_nodes(words, shape, w, output, carry);
    }
}

/// Feeds every node.
fn feed_nodes(words: &mut [u64], shape: &Shape, lines: Lines)
    requires room { nodes_end shape.now ≤ length words.old }
    ensures nodes { (tree : TreeState) → IsShapeOf shape.now tree → HoldsNodes shape.now tree words.old
        → HoldsNodes shape.now (after_feed lines.a lines.b lines.c tree) words.new }
    ensures kept { KeepsOutside (nodes_at shape.now) (nodes_end shape.now) words.old words.new }
{
    let outputs = shape.start(shape.bits + 4);
    let carries = outputs + shape.nodes;
    // From the leaves upwards, so that each word is written before its parents.
    for w in (0..shape.nodes).rev() {
        let (output, carry) = fed_word(shape, w, lines, words[outputs + w / 2], words[carries + w]);
        put_nodes(words, shape, w, output, carry);
    }
}

/// Writes the outputs and the carries of the nodes of a word.
fn put_nodes(words: &mut [u64], shape: &Shape, w: usize, output: u64, carry: u64)
    requires room { nodes_end shape.now ≤ length words.old }
    requires within { w < shape.now.nodes }
    ensures output { get_or words.new (nodes_at shape.now + w) 0 ≡ output }
    ensures carry { get_or words.new (nodes_at shape.now + shape.now.nodes + w) 0 ≡ carry }
    ensures others { (j : ℕ) → (j ≡ nodes_at shape.now + w → ⊥) → (j ≡ nodes_at shape.now + shape.now.nodes + w → ⊥)
        → get_or words.new j 0 ≡ get_or words.old j 0 }
    ensures kept { KeepsOutside (nodes_at shape.now) (nodes_end shape.now) words.old words.new }
{
    let at = shape.start(shape.bits + 4) + w;
    words[at] = output;
    words[at + shape.nodes] = carry;
}

/// A word with 1 where word `w` has a node.
pub(crate) fn places(shape: &Shape, w: usize) -> u64
    requires within { w < shape.now.nodes }
    ensures { (j : ℕ) → j < 64 → nat_bit result j ≡ (nat_le 2 (64 * w + j)
        && nat_lt (64 * w + j) (2 ^ (shape.now.nx + shape.now.ny + 1))) }
{
    chosen_word(
        ones_below(power(shape.nx + shape.ny + 1), w),
        0,
        ones_below(2, w),
    )
}

/// A word with 1 where the places of word `w` are below one.
pub(crate) fn ones_below(place: usize, w: usize) -> u64
    requires { w < 2 ^ 20 }
    ensures { (j : ℕ) → j < 64 → nat_bit result j ≡ nat_lt (64 * w + j) place }
{
    full_word(place.saturating_sub(64 * w))
}
