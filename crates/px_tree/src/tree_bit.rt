//! What a tree computes while one linear form is fed into it.
ghost use Rattle.std.specs.Prelude.{◌≡◌, ◌+◌, ◌<◌, ◌^◌};
ghost use Rattle.px_tree.specs.Feeds.{fed_form};
ghost use Rattle.px_tree.specs.Nodes.{IsGrid};
ghost use Rattle.px_tree.specs.Sums.{HoldsSums};
ghost use Rattle.px_tree.specs.TreeBit.{
  IsFedByTable,
  LeafGivesSign,
  LeafGivesTreeBit,
  LeafGivesValue,
  LeafSumIsValue,
  NodesHoldSums,
  tree_bit,
};

use crate::lines::lines_at;
use crate::tree::Tree;
use px_num::Linear;

/// Bit `t` of a form's value at pixel `(x, y)`, as a tree of `2^nx` by `2^ny` leaves gives it.
///
/// The tree is cleared and then fed the form's lines `t + nx + ny` times, as in docs/MACHINE.md,
/// "The multiplier tree".
pub fn value_bit<T: Tree>(
    tree: &mut T,
    nx: u32,
    ny: u32,
    form: &Linear,
    x: u32,
    y: u32,
    t: u32,
) -> bool
    requires grid { IsGrid nx ny }
    requires columns { (T.state tree.old).nx ≡ nx }
    requires rows { (T.state tree.old).ny ≡ ny }
    requires column { x < 2 ^ nx }
    requires row { y < 2 ^ ny }
    requires bit { t < 40 }
    ensures bit { result ≡ tree_bit form.now x y t }
    ensures columns_stay { (T.state tree.new).nx ≡ nx }
    ensures rows_stay { (T.state tree.new).ny ≡ ny }
    ensures state { T.state tree.new ≡ fed_form form.now nx ny (t + nx + ny) }
{
    feed_form(tree, nx, ny, form, t + nx + ny);
    tree.leaf(x, y)
}

/// Clears a tree of `2^nx` by `2^ny` leaves and feeds it the lines of a form so many times.
#[tactic(auto, using(crate::proofs::NodeLemmas::fed_nx, crate::proofs::NodeLemmas::fed_ny, crate::proofs::NodeLemmas::nodes_hold_sums))]
pub fn feed_form<T: Tree>(tree: &mut T, nx: u32, ny: u32, form: &Linear, feeds: u32)
    requires grid { IsGrid nx ny }
    requires columns { (T.state tree.old).nx ≡ nx }
    requires rows { (T.state tree.old).ny ≡ ny }
    ensures columns_stay { (T.state tree.new).nx ≡ nx }
    ensures rows_stay { (T.state tree.new).ny ≡ ny }
    ensures state { T.state tree.new ≡ fed_form form.now nx ny feeds }
    ensures nodes { HoldsSums form.now nx ny feeds (T.state tree.new) }
{
    tree.clear();
    for s in 0..feeds {
        let lines = lines_at(form, nx, ny, s);
        tree.feed(lines.a, lines.b, lines.c);
    }
}

/// The laws of a tree that is cleared and fed one form, in whatever way its latches are kept.
#[tactic(auto, using(crate::proofs::LeafLemmas::leaf_gives_sign, crate::proofs::LeafLemmas::leaf_gives_tree_bit, crate::proofs::LeafLemmas::leaf_gives_value, crate::proofs::NodeLemmas::is_fed_by_table, crate::proofs::NodeLemmas::nodes_hold_sums, crate::proofs::SumLemmas::leaf_sum_is_value))]
pub fn laws_of_feeds()
    ensures table { IsFedByTable }
    ensures nodes { NodesHoldSums }
    ensures leaf_sum { LeafSumIsValue }
    ensures leaf { LeafGivesValue }
    ensures tree_bit { LeafGivesTreeBit }
    ensures sign { LeafGivesSign }
{}
