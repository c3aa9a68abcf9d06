//! The values of a form at the 64 pixels of a word.
ghost use Rattle.std.specs.Prelude.{◌≡◌, ◌<◌, ◌≤◌, ◌+◌, ◌*◌, ◌/◌, ◌%◌, ◌^◌, ◌+ℤ◌, ℕ, ℤ, ◌≤ℤ◌, length};
ghost use Rattle.px_num.specs.Bits.{nat_bit};
ghost use Rattle.px_num.specs.Forms.{IsInTreeRange, IsWithin, value_at};
ghost use Rattle.px_rows.specs.Lanes.{HasValue, offset};

use crate::lanes::add_constant;
use px_num::Linear;

/// As many bits as the tree makes of a value.
pub const BITS: usize = 40;

/// Makes words the offsets of the 64 pixels of a word from its first, in so many bits.
pub fn offsets(form: &Linear, ny: u32, words: &mut [u64])
    requires range { IsInTreeRange form.now }
    requires rows { ny ≤ 9 }
    requires few { length words.old ≤ 64 }
    ensures words { length words.new ≡ length words.old }
    ensures value { (j : ℕ) → j < 64 → HasValue words.new j (offset form.now ny j) }
{
    words.fill(0);
    for k in 0..6 {
        add_constant(words, lane_mask(k), offset_of(form, ny, 1 << k));
    }
}

/// The least and the greatest that the offsets can be.
pub fn span(form: &Linear, ny: u32) -> (i64, i64)
    requires range { IsInTreeRange form.now }
    requires rows { ny ≤ 9 }
    ensures least { (j : ℕ) → j < 64 → result.0 ≤ℤ offset form.now ny j }
    ensures most { (j : ℕ) → j < 64 → offset form.now ny j ≤ℤ result.1 }
    ensures low { IsWithin (2 ^ 42) result.0 }
    ensures high { IsWithin (2 ^ 42) result.1 }
{
    let mut low = 0;
    let mut high = 0;
    for k in 0..6u32 {
        let step = offset_of(form, ny, 1 << k);
        low += step.min(0);
        high += step.max(0);
    }
    (low, high)
}

/// Adds the value at the first pixel of the word.
pub fn add_base(words: &mut [u64], base: i64)
    requires few { length words.old ≤ 64 }
    ensures value { (j : ℕ) (u : ℤ) → j < 64 → HasValue words.old j u
        → HasValue words.new j (u +ℤ base) }
    ensures words { length words.new ≡ length words.old }
{
    add_constant(words, !0, base);
}

/// The lanes whose number has bit `k`.
fn lane_mask(k: u32) -> u64
    requires { k < 6 }
    ensures { (j : ℕ) → j < 64 → nat_bit result j ≡ nat_bit j k }
{
    match k {
        0 => 0xaaaa_aaaa_aaaa_aaaa,
        1 => 0xcccc_cccc_cccc_cccc,
        2 => 0xf0f0_f0f0_f0f0_f0f0,
        3 => 0xff00_ff00_ff00_ff00,
        4 => 0xffff_0000_ffff_0000,
        _ => 0xffff_ffff_0000_0000,
    }
}

/// How much greater the value is `j` pixels further on than at the first pixel of a word.
pub fn offset_of(form: &Linear, ny: u32, j: u32) -> i64
    requires range { IsInTreeRange form.now }
    requires rows { ny ≤ 9 }
    requires lane { j < 64 }
    ensures value { result ≡ offset form.now ny j }
    ensures size { IsWithin (2 ^ 39) result }
{
    let steps = Linear { c: 0, ..*form };
    let height = 1 << ny;
    steps.value(j / height, j % height)
}

/// The value at the first pixel of word `w`.
#[tactic(auto, using(px_num::proofs::Basics::pow_below))]
pub fn base_of(form: &Linear, ny: u32, w: usize) -> i64
    requires range { IsInTreeRange form.now }
    requires rows { ny ≤ 9 }
    requires word { 64 * w < 2 ^ (9 + ny) }
    ensures value { (j : ℕ) → j < 64 → value_at form.now ((64 * w + j) / 2 ^ ny) ((64 * w + j) % 2 ^ ny)
        ≡ offset form.now ny j +ℤ result }
    ensures first { result ≡ value_at form.now (64 * w / 2 ^ ny) (64 * w % 2 ^ ny) }
    ensures size { IsWithin (2 ^ 39) result }
{
    let place = 64 * w as u32;
    let height = 1 << ny;
    form.value(place / height, place % height)
}

/// The lowest bits of the values at the 64 pixels of word `w`.
#[inline(always)]
pub fn word_values(form: &Linear, ny: u32, w: usize, offsets: &[u64], values: &mut [u64])
    requires range { IsInTreeRange form.now }
    requires rows { ny ≤ 9 }
    requires word { 64 * w < 2 ^ (9 + ny) }
    requires few { length values.old ≤ 40 }
    requires long { length offsets.now ≡ length values.old }
    requires offsets { (j : ℕ) → j < 64 → HasValue offsets.now j (offset form.now ny j) }
    ensures words { length values.new ≡ length values.old }
    ensures value { (j : ℕ) → j < 64 → HasValue values.new j
        (value_at form.now ((64 * w + j) / 2 ^ ny) ((64 * w + j) % 2 ^ ny)) }
{
    values.copy_from_slice(offsets);
    add_base(values, base_of(form, ny, w));
}
