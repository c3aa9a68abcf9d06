//! What a feed makes of the nodes of a word.
ghost use Rattle.std.specs.Prelude.{◌≡◌, ◌≤◌, ◌<◌, ◌+◌, ◌*◌, ◌/◌, ◌%◌, ◌^◌, ◌==◌, ℕ, cond, nat_lt};
ghost use Rattle.px_num.specs.Bits.{nat_bit};
ghost use Rattle.px_tree.specs.Nodes.{TreeState, after_feed, next_node};
ghost use Rattle.px_state.specs.Cells.{IsShapeOf};
ghost use Rattle.px_state.specs.Words.{IsNodeWord};

use crate::nodes::{ones_below, places};
use crate::shape::Shape;
use crate::turning::ODD;
use px_num::power;
use px_plane_tree::{doubled_pair, rooted};
use px_rows::{all_of, chosen_word, majority_word, xor_word};
use px_tree::Lines;
use std::simd::prelude::*;

/// The outputs and the carries of the nodes in word `w` after a feed, by the word that has the outputs of their
/// parents, and by their carries.
pub(crate) fn fed_word(
    shape: &Shape,
    w: usize,
    lines: Lines,
    parents: u64,
    carry: u64,
) -> (u64, u64)
    requires within { w < shape.now.nodes }
    ensures output { (tree : TreeState) → IsShapeOf shape.now tree → IsNodeWord (λ n. n.output) tree (w / 2) parents
        → IsNodeWord (λ n. n.carry) tree w carry
        → IsNodeWord (λ n. n.output) (after_feed lines.a lines.b lines.c tree) w result.0 }
    ensures carry { (tree : TreeState) → IsShapeOf shape.now tree → IsNodeWord (λ n. n.output) tree (w / 2) parents
        → IsNodeWord (λ n. n.carry) tree w carry
        → IsNodeWord (λ n. n.carry) (after_feed lines.a lines.b lines.c tree) w result.1 }
{
    let above = parents_of(parents, w, lines.c);
    let line = line_word(shape, w, lines);
    let there = places(shape, w);
    let (output, carry) = next_words(above, line, carry);
    (chosen_word(0, output, there), chosen_word(0, carry, there))
}

/// The node table on 64 nodes from an even place on.
#[tactic(auto, using(px_rows::proofs::BitLaws::odd_bits))]
fn next_words(parents: u64, line: u64, carry: u64) -> (u64, u64)
    ensures output { (j : ℕ) → j < 64 → nat_bit result.0 j
        ≡ (next_node (j % 2 == 1) (nat_bit parents j) (nat_bit line j) (nat_bit carry j)).output }
    ensures carry { (j : ℕ) → j < 64 → nat_bit result.1 j
        ≡ (next_node (j % 2 == 1) (nat_bit parents j) (nat_bit line j) (nat_bit carry j)).carry }
{
    let sum = xor_word(parents, xor_word(line, carry));
    let carried = majority_word(parents, line, carry);
    (chosen_word(parents, sum, ODD), chosen_word(0, carried, ODD))
}

/// The outputs of the parents of the nodes in word `w`, where `word` has them; line c is above the
/// nodes of level 1.
fn parents_of(word: u64, w: usize, c: bool) -> u64
    ensures { (j : ℕ) → j < 64 → 2 ≤ 64 * w + j → nat_bit result j
        ≡ cond (nat_lt (64 * w + j) 4) c (nat_bit word (32 * (w % 2) + j / 2)) }
{
    let word = if w == 0 { rooted(word, c) } else { word };
    let (both, _) = doubled_pair(u64x2::from_array([word, 0]));
    both[w % 2]
}

/// The lines of the nodes in word `w`.
fn line_word(shape: &Shape, w: usize, lines: Lines) -> u64
    requires within { w < shape.now.nodes }
    ensures { (j : ℕ) → j < 64 → nat_bit result j
        ≡ cond (nat_lt (64 * w + j) (2 ^ (shape.now.nx + 1))) lines.a lines.b }
{
    chosen_word(
        all_of(lines.b),
        all_of(lines.a),
        ones_below(power(shape.nx + 1), w),
    )
}
