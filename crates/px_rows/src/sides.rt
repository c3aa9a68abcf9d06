//! On which side of an edge the 64 pixels of a word lie.
ghost use Rattle.std.specs.Prelude.{◌≡◌, ◌≢◌, ◌<◌, ◌≤◌, ◌^◌, ◌+ℤ◌, ◌*ℤ◌, ◌≤ℤ◌, ◌||◌, ℕ, nat_lt, pos};
ghost use Rattle.std.specs.Int.{is_negative};
ghost use Rattle.std.specs.Int.Signed.{le_z};
ghost use Rattle.px_num.specs.Bits.{nat_bit};
ghost use Rattle.px_num.specs.Forms.{IsInTreeRange, IsWithin};
ghost use Rattle.px_rows.specs.Lanes.{offset};

use crate::lanes::full_word;
use crate::values::offset_of;
use crate::words::turned;
use px_num::Linear;

/// Columns of so many levels, or more, have whole words.
const LEVELS: u32 = 6;

/// Where a form is negative, of the pixels of a word at whose first its value is `base`.
pub fn signs(form: &Linear, ny: u32, base: i64) -> u64
    requires range { IsInTreeRange form.now }
    requires rows { ny ≤ 9 }
    requires base { IsWithin (2 ^ 39) base }
    ensures { (j : ℕ) → j < 64 → nat_bit result j ≡ is_negative (offset form.now ny j +ℤ base) }
{
    if ny < LEVELS {
        signs_of_pixels(form, ny, base)
    } else {
        signs_in_column(form.b, base)
    }
}

/// Where a form is negative, one pixel after another: columns are shorter than a word.
fn signs_of_pixels(form: &Linear, ny: u32, base: i64) -> u64
    requires range { IsInTreeRange form.now }
    requires rows { ny ≤ 9 }
    requires base { IsWithin (2 ^ 39) base }
    ensures { (j : ℕ) → j < 64 → nat_bit result j ≡ is_negative (offset form.now ny j +ℤ base) }
{
    let mut word = 0;
    for j in 0..64 {
        word = with_bit(word, j, offset_of(form, ny, j) + base < 0);
    }
    word
}

/// A word with bit `j` set, if it is to be.
#[inline(always)]
fn with_bit(word: u64, j: u32, v: bool) -> u64
    requires { j < 64 }
    ensures here { nat_bit result j ≡ (v || nat_bit word j) }
    ensures beside { (i : ℕ) → i ≢ j → nat_bit result i ≡ nat_bit word i }
{
    if v { word | (1 << j) } else { word }
}

/// Where a value is negative that grows by `slope` from pixel to pixel of one column: it keeps the sign of the first for some
/// pixels, and then has the other.
fn signs_in_column(slope: i64, base: i64) -> u64
    requires slope { IsWithin (2 ^ 27) slope }
    requires base { IsWithin (2 ^ 39) base }
    ensures { (j : ℕ) → j < 64 → nat_bit result j ≡ is_negative ((slope *ℤ pos j) +ℤ base) }
{
    if base < 0 {
        full_word(steps_to(-(base + 1), slope))
    } else {
        turned(full_word(steps_to(base, -slope)))
    }
}

/// How many multiples of a slope, from the one by 0 on, are at most so great, of 64.
#[tactic(auto, using(crate::proofs::SignLemmas::steps_are))]
fn steps_to(most: i64, slope: i64) -> usize
    requires most { pos 0 ≤ℤ most }
    requires slope { IsWithin (2 ^ 27) slope }
    ensures { (j : ℕ) → j < 64 → nat_lt j result ≡ le_z (slope *ℤ pos j) most }
{
    if slope <= 0 {
        64
    } else {
        (most as u64 / slope as u64) as usize + 1
    }
}
