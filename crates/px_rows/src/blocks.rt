//! What the calls on rows do to eight words at once, on the lanes of a vector.
ghost use Rattle.std.specs.Prelude.{◌≡◌, ◌<◌, ◌≤◌, ◌+◌, ◌-◌, ℕ, length, slice_index};
ghost use Rattle.px_rows.specs.Words.{IsAdded, IsCarried, IsSummed};
ghost use Rattle.px_rows.specs.Words.{IsBlock, IsWritten};

use std::simd::prelude::*;

/// The words of a block.
pub const LANES: usize = 8;

/// Adds a value of eight words to the target's from `at` on.
#[inline(always)]
pub fn add_value_block(target: &mut [u64], carry: &mut [u64], value: u64x8, mask: &[u64], at: usize)
    requires target { at + 8 ≤ length target.old }
    requires carry { at + 8 ≤ length carry.old }
    requires mask { at + 8 ≤ length mask.now }
    ensures added { IsWritten (λ k word. IsAdded word (slice_index target.old k)
        (slice_index carry.old k) (slice_index value (k - at))
        (slice_index mask.now k)) at target.old target.new }
    ensures carried { IsWritten (λ k word. IsCarried word (slice_index target.old k)
        (slice_index carry.old k) (slice_index value (k - at))) at carry.old carry.new }
{
    let old = read(target, at);
    let held = read(carry, at);
    write(target, at, added_lanes(old, held, value, read(mask, at)));
    write(carry, at, carried_lanes(old, held, value));
}

/// The value and a step, which is the same in each word; what is carried comes from the words from
/// `at` on.
#[inline(always)]
pub fn step_block(carry: &mut [u64], value: u64x8, step: u64, at: usize) -> u64x8
    requires { at + 8 ≤ length carry.old }
    ensures stepped { (i : ℕ) → i < 8 → IsSummed (slice_index result i) (slice_index value i) step
        (slice_index carry.old (at + i)) }
    ensures carried { IsWritten (λ k word. IsCarried word step (slice_index carry.old k)
        (slice_index value (k - at))) at carry.old carry.new }
{
    let same = u64x8::splat(step);
    let held = read(carry, at);
    write(carry, at, carried_lanes(same, held, value));
    summed_lanes(value, same, held)
}

#[inline(always)]
#[tactic(auto, using(crate::proofs::WordLemmas::summed_lane))]
fn summed_lanes(a: u64x8, b: u64x8, c: u64x8) -> u64x8
    ensures { (i : ℕ) → i < 8 →
        IsSummed (slice_index result i) (slice_index a i) (slice_index b i) (slice_index c i) }
{
    a ^ (b ^ c)
}

#[inline(always)]
fn added_lanes(target: u64x8, carry: u64x8, value: u64x8, mask: u64x8) -> u64x8
    ensures { (i : ℕ) → i < 8 →
        IsAdded (slice_index result i) (slice_index target i) (slice_index carry i)
        (slice_index value i) (slice_index mask i) }
{
    target ^ ((value ^ carry) & mask)
}

#[tactic(auto, using(crate::proofs::WordLemmas::carried_lane))]
#[inline(always)]
fn carried_lanes(target: u64x8, carry: u64x8, value: u64x8) -> u64x8
    ensures { (i : ℕ) → i < 8 →
        IsCarried (slice_index result i) (slice_index target i) (slice_index carry i)
        (slice_index value i) }
{
    carry ^ ((value ^ carry) & (carry ^ target))
}

/// The words from `at` on.
#[inline(always)]
fn read(row: &[u64], at: usize) -> u64x8
    requires { at + 8 ≤ length row.now }
    ensures { IsBlock at row.now result }
{
    u64x8::from_slice(&row[at..])
}

/// Makes the words from `at` on be these.
#[inline(always)]
fn write(row: &mut [u64], at: usize, words: u64x8)
    requires { at + 8 ≤ length row.old }
    ensures { IsWritten (λ k word. (i : ℕ) → k ≡ at + i → word
        ≡ slice_index words i) at row.old row.new }
{
    words.copy_to_slice(&mut row[at..]);
}
