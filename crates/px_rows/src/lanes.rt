//! Numbers in 64 lanes: word `t` has bit `t` of each of them.
ghost use Rattle.std.specs.Prelude.{◌≡◌, ◌<◌, ◌≤◌, ◌^◌, ◌+ℤ◌, pos, ℕ, ℤ, nat_lt, if◌then◌else◌, length, slice_index};
ghost use Rattle.px_num.specs.Bits.{bit_of, nat_bit};
ghost use Rattle.px_rows.specs.Lanes.{HasValue};

use crate::words::{all_of, majority_word};

/// A word whose first so many bits are 1.
pub fn full_word(pixels: usize) -> u64
    ensures { (i : ℕ) → i < 64 → nat_bit result i ≡ nat_lt i pixels }
{
    if pixels < 64 { (1 << pixels) - 1 } else { !0 }
}

/// The word that has the bits of a number.
#[inline(always)]
pub(crate) fn word_of(k: i64) -> u64
    ensures { (t : ℕ) → t < 64 → nat_bit result t ≡ bit_of k t }
{
    k.cast_unsigned()
}

/// Bit `t` of a word.
#[inline(always)]
pub(crate) fn word_bit(word: u64, t: usize) -> bool
    requires { t < 64 }
    ensures { result ≡ nat_bit word t }
{
    (word >> t) & 1 == 1
}

/// Adds a number in the lanes where the mask is 1.
pub fn add_constant(words: &mut [u64], mask: u64, k: i64)
    requires few { length words.old ≤ 64 }
    ensures value { (j : ℕ) (u : ℤ) → j < 64 → HasValue words.old j u → HasValue words.new j
        (u +ℤ (if nat_bit mask j then k else pos 0)) }
    ensures words { length words.new ≡ length words.old }
{
    if k == 0 {
        return;
    }
    let number = word_of(k);
    let mut carry = 0;
    for t in 0..words.len() {
        let addend = mask & all_of(word_bit(number, t));
        let word = words[t];
        words[t] = word ^ addend ^ carry;
        carry = majority_word(word, addend, carry);
    }
}

/// Words of which every lane has the same number.
pub fn constant_words(number: u64, words: &mut [u64])
    requires few { length words.old ≤ 40 }
    requires small { number < 2 ^ 63 }
    ensures words { length words.new ≡ length words.old }
    ensures bits { (t j : ℕ) → t < length words.old → j < 64 → nat_bit (slice_index words.new t) j
        ≡ nat_bit number t }
{
    for t in 0..words.len() {
        words[t] = all_of(word_bit(number, t));
    }
}
