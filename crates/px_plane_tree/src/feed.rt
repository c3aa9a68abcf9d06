//! One feed of words in heap order: the children of the nodes in word h are in the words 2h and 2h + 1.
ghost use Rattle.std.specs.Prelude.{◌≡◌, ℕ, ◌<◌, ◌≤◌, ◌+◌, ◌*◌, ◌%◌, length, slice_index, nat_lt};
ghost use Rattle.std.specs.Prelude.{eqb, cond, ◌&&◌};
ghost use Rattle.px_num.specs.Bits.{nat_bit};
ghost use Rattle.px_plane_tree.specs.Lanes.{IsOdd};
ghost use Rattle.px_plane_tree.specs.Heap.{HasOdd, IsFed, IsFedTwo, IsFedFirst, rows};

use crate::doubling::doubled_pair;
use crate::next::{next_by, next_of};
use crate::pairs::{load, store};
use std::simd::prelude::*;

/// Two words, of which `both` has the parents' outputs.
#[inline(always)]
fn feed_two(outputs: &mut [u64], carries: &mut [u64], at: usize, both: u64x2, line: bool)
    requires outputs { at + 2 ≤ length outputs.old }
    requires carries { at + 2 ≤ length carries.old }
    requires odd { HasOdd at (at + 2) carries.old }
    ensures { IsFedTwo (λ i j. line) at both (rows outputs.old carries.old) (rows outputs.new carries.new) }
{
    let old = load(carries, at);
    let (output, carry) = next_of(both, old, line);
    store(outputs, at, output);
    store(carries, at, carry);
}

/// The children of words h and h + 1.
#[inline(always)]
fn feed_pair(outputs: &mut [u64], carries: &mut [u64], h: usize, line: bool)
    requires from { 2 ≤ h }
    requires outputs { 2 * h + 4 ≤ length outputs.old }
    requires carries { 2 * h + 4 ≤ length carries.old }
    requires odd { HasOdd (2 * h) (2 * h + 4) carries.old }
    ensures { IsFed line (2 * h) (2 * h + 4) (rows outputs.old carries.old) (rows outputs.new carries.new) }
{
    let parents = load(outputs, h);
    let (first, second) = doubled_pair(parents);
    feed_two(outputs, carries, 2 * h, first, line);
    feed_two(outputs, carries, 2 * h + 2, second, line);
}

/// The children of the words from `from` on and below `to`.
#[inline(always)]
fn feed_span(outputs: &mut [u64], carries: &mut [u64], from: usize, to: usize, line: bool)
    requires from { (2 ≤ from) × (from ≤ to) }
    requires even { (from % 2 ≡ 0) × (to % 2 ≡ 0) }
    requires outputs { 2 * to ≤ length outputs.old }
    requires carries { 2 * to ≤ length carries.old }
    requires odd { HasOdd (2 * from) (2 * to) carries.old }
    ensures { IsFed line (2 * from) (2 * to) (rows outputs.old carries.old) (rows outputs.new carries.new) }
{
    let mut h = to;
    while h > from {
        h -= 2;
        feed_pair(outputs, carries, h, line);
    }
}

/// The children of the words from `from` on and below `to`, whose line is the same.
pub fn feed_parents(outputs: &mut [u64], carries: &mut [u64], from: usize, to: usize, line: bool)
    requires from { (2 ≤ from) × (from ≤ to) }
    requires even { (from % 2 ≡ 0) × (to % 2 ≡ 0) }
    requires outputs { 2 * to ≤ length outputs.old }
    requires carries { 2 * to ≤ length carries.old }
    requires odd { HasOdd (2 * from) (2 * to) carries.old }
    ensures { IsFed line (2 * from) (2 * to) (rows outputs.old carries.old) (rows outputs.new carries.new) }
{
    if line {
        feed_span(outputs, carries, from, to, true);
    } else {
        feed_span(outputs, carries, from, to, false);
    }
}

/// Two words whose lines are those of `lines`.
#[inline(always)]
fn feed_two_by(outputs: &mut [u64], carries: &mut [u64], at: usize, both: u64x2, lines: u64x2)
    requires outputs { at + 2 ≤ length outputs.old }
    requires carries { at + 2 ≤ length carries.old }
    requires odd { HasOdd at (at + 2) carries.old }
    requires odd_lines { IsOdd lines }
    ensures { IsFedTwo (λ i j. nat_bit
        (slice_index lines i) j) at both (rows outputs.old carries.old) (rows outputs.new carries.new) }
{
    let old = load(carries, at);
    let (output, carry) = next_by(both, old, lines);
    store(outputs, at, output);
    store(carries, at, carry);
}

/// The first word of outputs as parents: bit 1 is the root.
#[inline(always)]
#[tactic(auto, using(crate::proofs::HeapLemmas::rooted_on, crate::proofs::HeapLemmas::rooted_off))]
pub fn rooted(word: u64, c: bool) -> u64
    ensures { (i : ℕ) → i < 64 → nat_bit result i
        ≡ cond (nat_lt i 2) (c && eqb i 1) (nat_bit word i) }
{
    if c {
        (word & 0xffff_ffff_ffff_fffc) | 2
    } else {
        word & 0xffff_ffff_ffff_fffc
    }
}

/// The first four words, each node by its line in `lines`.
pub fn feed_first(outputs: &mut [u64], carries: &mut [u64], lines: &[u64], c: bool)
    requires outputs { 4 ≤ length outputs.old }
    requires carries { 4 ≤ length carries.old }
    requires lines { 4 ≤ length lines.now }
    requires odd { HasOdd 0 4 carries.old }
    requires odd_lines { HasOdd 0 4 lines.now }
    ensures { IsFedFirst lines.now c (rows outputs.old carries.old) (rows outputs.new carries.new) }
{
    let root = rooted(outputs[0], c);
    let (first, second) = doubled_pair(u64x2::from_array([root, outputs[1]]));
    feed_two_by(outputs, carries, 0, first, load(lines, 0));
    feed_two_by(outputs, carries, 2, second, load(lines, 2));
}
