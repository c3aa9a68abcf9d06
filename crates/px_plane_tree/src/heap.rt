//! One feed of a whole heap of nodes.
ghost use Rattle.std.specs.Prelude.{◌≡◌, ℕ, ◌<◌, ◌≤◌, ◌+◌, ◌-◌, ◌*◌, ◌^◌, ◌%◌, IsTrue, true, false};
ghost use Rattle.std.specs.Prelude.{length, slice_index, slice_index_or};
ghost use Rattle.px_num.specs.Bits.{nat_bit};
ghost use Rattle.px_plane_tree.specs.Heap.{AreStill, HasLines, HasOdd, IsAtRest, IsFed, IsFedHeap, rows};
ghost use Rattle.px_plane_tree.specs.Heap.{IsFedFirst, IsHeap, level_line, line_bit};

use crate::feed::{feed_first, feed_parents};
use crate::rest::is_at_rest;
use px_num::power;
use px_tree::Lines;

/// A feed of a tree of which `nx` levels have line a.
#[derive(Clone, Copy)]
pub struct Feed<'a> {
    pub nx: u32,
    /// The lines of the feed before.
    pub last: Lines,
    pub now: Lines,
    /// The lines of the nodes in the first four words.
    pub heads: &'a [u64],
}

/// Feeds every node by the lines `now`, from the latches before the call.
///
/// `still` says which of the levels from 7 on did not move in the feed before; after the call it
/// says so of this one.
pub fn feed_heap(outputs: &mut [u64], carries: &mut [u64], still: &mut [bool], feed: Feed)
    requires heap { IsHeap outputs.old carries.old }
    requires levels { length outputs.old ≡ 2 ^ (length still.old + 1) }
    requires some { 1 ≤ length still.old }
    requires few { length still.old ≤ 12 }
    requires columns { feed.nx ≤ 9 }
    requires room { 4 ≤ length feed.heads.now }
    requires heads { HasLines feed.now.a feed.now.b (2 ^ (feed.nx + 1)) feed.heads.now }
    requires still { AreStill feed.nx feed.last still.old outputs.old carries.old }
    ensures fed { IsFedHeap feed.entry.now.a feed.entry.now.b feed.entry.now.c (2 ^ (feed.entry.nx + 1))
        (rows outputs.old carries.old) (rows outputs.new carries.new) }
    ensures still { AreStill feed.entry.nx feed.entry.now still.new outputs.new carries.new }
{
    // From the leaves upwards, so that each level is written before its parents.
    for u in (1..still.len()).rev() {
        let line = line_of(feed.nx, feed.now, u);
        let rest = rest_of(still, feed, u);
        still[u] = feed_level(outputs, carries, power(u as u32), line, rest);
    }
    still[0] = feed_head(outputs, carries, feed.heads, feed.now.c);
}

/// Of a level: whether its parents did not move in the last feed and its line is the same, and
/// whether it did not move itself.
#[derive(Clone, Copy)]
struct Rest {
    may: bool,
    was: bool,
}

/// What is known of level `u + 7`.
#[inline(always)]
fn rest_of(still: &[bool], feed: Feed, u: usize) -> Rest
    requires some { 1 ≤ u }
    requires level { u < length still.now }
    requires few { length still.now ≤ 12 }
    ensures above { IsTrue result.may → slice_index_or still.now (u - 1) false ≡ true }
    ensures was { result.was ≡ slice_index_or still.now u false }
    ensures line { IsTrue result.may →
        level_line feed.entry.nx feed.entry.now u ≡ level_line feed.entry.nx feed.entry.last u }
{
    let may = still[u - 1] && line_of(feed.nx, feed.now, u) == line_of(feed.nx, feed.last, u);
    Rest { may, was: still[u] }
}

/// The line of level `u + 7`.
#[inline(always)]
fn line_of(nx: u32, lines: Lines, u: usize) -> bool
    requires { u ≤ 12 }
    ensures { result ≡ level_line nx lines u }
{
    if (nx as usize) < u + 7 {
        lines.b
    } else {
        lines.a
    }
}

/// Feeds the level whose parents are the words from `half` on and below `2 * half`, and answers
/// whether it stayed as it was.
///
/// Where `may` and `was` are 1 the level is known to be at rest. Where only `may` is, it looks
/// whether it is.
#[inline(always)]
fn feed_level(outputs: &mut [u64], carries: &mut [u64], half: usize, line: bool, rest: Rest) -> bool
    requires from { 2 ≤ half }
    requires even { half % 2 ≡ 0 }
    requires outputs { 4 * half ≤ length outputs.old }
    requires carries { 4 * half ≤ length carries.old }
    requires odd { HasOdd (2 * half) (4 * half) carries.old }
    requires rest { IsTrue rest.may → IsTrue rest.was →
        IsAtRest line (2 * half) (4 * half) outputs.old carries.old }
    ensures fed { IsFed line (2 * half) (4 * half) (rows outputs.old carries.old) (rows outputs.new carries.new) }
    ensures outputs { IsTrue result → outputs.new ≡ outputs.old }
    ensures carries { IsTrue result → carries.new ≡ carries.old }
{
    if rest.may && (rest.was || is_at_rest(outputs, carries, half, 2 * half, line)) {
        return true;
    }
    feed_parents(outputs, carries, half, 2 * half, line);
    false
}

/// Feeds the first four words, and answers whether the outputs of level 7 stayed as they were.
#[inline(always)]
fn feed_head(outputs: &mut [u64], carries: &mut [u64], heads: &[u64], c: bool) -> bool
    requires outputs { 4 ≤ length outputs.old }
    requires carries { 4 ≤ length carries.old }
    requires heads { 4 ≤ length heads.now }
    requires odd { HasOdd 0 4 carries.old }
    requires odd_heads { HasOdd 0 4 heads.now }
    ensures fed { IsFedFirst heads.now c (rows outputs.old carries.old) (rows outputs.new carries.new) }
    ensures second { IsTrue result → slice_index outputs.new 2 ≡ slice_index outputs.old 2 }
    ensures third { IsTrue result → slice_index outputs.new 3 ≡ slice_index outputs.old 3 }
{
    let second = outputs[2];
    let third = outputs[3];
    feed_first(outputs, carries, heads, c);
    outputs[2] == second && outputs[3] == third
}

/// The line of the node at a place, or 0 where it is even.
fn line_here(first_b: usize, place: usize, a: bool, b: bool) -> bool
    ensures { result ≡ line_bit a b first_b place }
{
    if place < 2 {
        false
    } else {
        place % 2 == 1 && (if place < first_b { a } else { b })
    }
}

/// The lines of the odd nodes in word w.
#[tactic(auto, using(crate::proofs::SetBitLemmas::set_same, crate::proofs::SetBitLemmas::set_other))]
pub fn line_word(first_b: usize, w: usize, a: bool, b: bool) -> u64
    requires { w < 4 }
    ensures { (j : ℕ) → j < 64 → nat_bit result j ≡ line_bit a b first_b (64 * w + j) }
{
    let mut word = 0;
    for j in 0..64 {
        if line_here(first_b, 64 * w + j, a, b) {
            word |= 1 << j;
        }
    }
    word
}
