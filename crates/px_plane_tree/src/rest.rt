//! Whether a feed would leave words in heap order as they are.
ghost use Rattle.std.specs.Prelude.{◌≡◌, ℕ, ◌<◌, ◌≤◌, ◌+◌, ◌*◌, ◌%◌, IsTrue, length, slice_index};
ghost use Rattle.px_plane_tree.specs.Heap.{HasOdd, IsAtRest, IsFedTwo, rows};

use crate::doubling::doubled_pair;
use crate::next::next_of;
use crate::pairs::load;
use std::simd::prelude::*;

/// Whether the children of the words from `from` on and below `to` stay as they are where their
/// line is `line`.
pub fn is_at_rest(outputs: &[u64], carries: &[u64], from: usize, to: usize, line: bool) -> bool
    requires from { (2 ≤ from) × (from ≤ to) }
    requires even { (from % 2 ≡ 0) × (to % 2 ≡ 0) }
    requires outputs { 2 * to ≤ length outputs.now }
    requires carries { 2 * to ≤ length carries.now }
    requires odd { HasOdd (2 * from) (2 * to) carries.now }
    ensures { IsTrue result → IsAtRest line (2 * from) (2 * to) outputs.now carries.now }
{
    let mut h = to;
    while h > from {
        h -= 2;
        if !is_pair_at_rest(outputs, carries, h, line) {
            return false;
        }
    }
    true
}

/// Whether a feed leaves the children of words `h` and `h + 1` as they are.
#[inline(always)]
fn is_pair_at_rest(outputs: &[u64], carries: &[u64], h: usize, line: bool) -> bool
    requires from { 2 ≤ h }
    requires outputs { 2 * h + 4 ≤ length outputs.now }
    requires carries { 2 * h + 4 ≤ length carries.now }
    requires odd { HasOdd (2 * h) (2 * h + 4) carries.now }
    ensures { IsTrue result → IsAtRest line (2 * h) (2 * h + 4) outputs.now carries.now }
{
    let (first, second) = doubled_pair(load(outputs, h));
    are_two_at_rest(outputs, carries, 2 * h, first, line)
        && are_two_at_rest(outputs, carries, 2 * h + 2, second, line)
}

/// Whether a feed leaves two words as they are, of which `both` has the parents' outputs.
#[inline(always)]
fn are_two_at_rest(outputs: &[u64], carries: &[u64], at: usize, both: u64x2, line: bool) -> bool
    requires outputs { at + 2 ≤ length outputs.now }
    requires carries { at + 2 ≤ length carries.now }
    requires odd { HasOdd at (at + 2) carries.now }
    ensures { IsTrue result → IsFedTwo (λ i j. line) at both (rows outputs.now carries.now) (rows outputs.now carries.now) }
{
    let old = load(carries, at);
    let (output, carry) = next_of(both, old, line);
    are_same(output, load(outputs, at)) && are_same(carry, old)
}

#[inline(always)]
fn are_same(a: u64x2, b: u64x2) -> bool
    ensures { IsTrue result → (i : ℕ) → i < 2 → slice_index a i ≡ slice_index b i }
{
    a[0] == b[0] && a[1] == b[1]
}
