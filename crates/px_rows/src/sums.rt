//! A value that is added to a row, and grows by a step from each block of eight words to the next.
ghost use Rattle.std.specs.Prelude.{◌≡◌, ◌<◌, ◌/◌, ◌%◌, ℕ, cond, length, slice_index};
ghost use Rattle.px_num.specs.Bits.{majority, nat_bit, xor};
ghost use Rattle.px_rows.specs.Rows.{EachBit, row_bit};
ghost use Rattle.px_rows.specs.Sums.{value_in, value_on};

use crate::blocks::{LANES, add_value_block, step_block};
use crate::words::all_of;
use std::simd::prelude::*;

/// `target = target + value` in one bit of each number, in the bits where the mask is 1, where
/// `value = value + step` from each block of eight words to the next.
///
/// `value` goes in as that of the first block, and comes out as that of the block behind the last.
/// `first` has what is carried of value and step, and `second` what is carried of the value and the
/// target before; both go on in every bit.
pub fn add_steps_row(
    target: &mut [u64],
    first: &mut [u64],
    second: &mut [u64],
    value: &mut [u64; 8],
    step: bool,
    mask: &[u64],
)
    requires blocks { length target.old % 8 ≡ 0 }
    requires first { length first.old ≡ length target.old }
    requires second { length second.old ≡ length target.old }
    requires mask { length mask.now ≡ length target.old }
    ensures target { EachBit target.new (λ p. cond (row_bit mask.now p)
        (xor (value_on value.old step first.old p) (xor (row_bit target.old p) (row_bit second.old p)))
        (row_bit target.old p)) }
    ensures value { (i : ℕ) → i < 512 → nat_bit (slice_index value.new (i / 64)) (i % 64)
        ≡ value_in value.old step first.old (length target.old / 8) i }
    ensures first { EachBit first.new (λ p. majority (value_on value.old step first.old p) step
        (row_bit first.old p)) }
    ensures second { EachBit second.new (λ p. majority (value_on value.old step first.old p)
        (row_bit target.old p) (row_bit second.old p)) }
    ensures words { length target.new ≡ length target.old }
    ensures first_words { length first.new ≡ length first.old }
    ensures second_words { length second.new ≡ length second.old }
{
    // Each bit of a step has a loop of its own, which does less since it knows the bit.
    if step {
        add_blocks(target, first, second, value, true, mask);
    } else {
        add_blocks(target, first, second, value, false, mask);
    }
}

#[inline(always)]
fn add_blocks(
    target: &mut [u64],
    first: &mut [u64],
    second: &mut [u64],
    value: &mut [u64; 8],
    step: bool,
    mask: &[u64],
)
    requires blocks { length target.old % 8 ≡ 0 }
    requires first { length first.old ≡ length target.old }
    requires second { length second.old ≡ length target.old }
    requires mask { length mask.now ≡ length target.old }
    ensures target { EachBit target.new (λ p. cond (row_bit mask.now p)
        (xor (value_on value.old step first.old p) (xor (row_bit target.old p) (row_bit second.old p)))
        (row_bit target.old p)) }
    ensures value { (i : ℕ) → i < 512 → nat_bit (slice_index value.new (i / 64)) (i % 64)
        ≡ value_in value.old step first.old (length target.old / 8) i }
    ensures first { EachBit first.new (λ p. majority (value_on value.old step first.old p) step
        (row_bit first.old p)) }
    ensures second { EachBit second.new (λ p. majority (value_on value.old step first.old p)
        (row_bit target.old p) (row_bit second.old p)) }
    ensures words { length target.new ≡ length target.old }
    ensures first_words { length first.new ≡ length first.old }
    ensures second_words { length second.new ≡ length second.old }
{
    let word = all_of(step);
    let mut lanes = u64x8::from_array(*value);
    for block in 0..target.len() / LANES {
        add_value_block(target, second, lanes, mask, LANES * block);
        lanes = step_block(first, lanes, word, LANES * block);
    }
    *value = lanes.to_array();
}
