//! The sum of three numbers in each lane, bit by bit from the lowest.
ghost use Rattle.std.specs.Prelude.{◌≡◌, ◌<◌, ◌+◌, ◌+ℤ◌, ℕ, ℤ};
ghost use Rattle.px_num.specs.Bits.{bit_of, nat_bit};
ghost use Rattle.px_rows.specs.Lanes.{HasCarries};

use crate::lanes::{word_bit, word_of};
use crate::words::{all_of, majority_word};

/// What the first two numbers carry, and what their sum and the third do.
#[derive(Drop)]
pub struct Carries {
    pub first: u64,
    pub second: u64,
}

/// Bit `t` of a number, in every lane.
#[inline(always)]
pub fn bit_of_all(k: i64, t: usize) -> u64
    requires { t < 64 }
    ensures { (j : ℕ) → j < 64 → nat_bit result j ≡ bit_of k t }
{
    all_of(word_bit(word_of(k), t))
}

/// The next bit of the sums, of which all three numbers are given bit by bit.
#[inline(always)]
#[tactic(auto, using(crate::proofs::LaneLemmas::sum_in_lane))]
pub fn added_bit(carries: &mut Carries, a: u64, b: u64, c: u64) -> u64
    ensures bit { (j t : ℕ) (u v n : ℤ) → j < 64 → nat_bit a j ≡ bit_of u t → nat_bit b j ≡ bit_of v t
        → nat_bit c j ≡ bit_of n t → HasCarries carries.old j u v n t
        → nat_bit result j ≡ bit_of ((u +ℤ v) +ℤ n) t }
    ensures carries { (j t : ℕ) (u v n : ℤ) → j < 64 → nat_bit a j ≡ bit_of u t
        → nat_bit b j ≡ bit_of v t → nat_bit c j ≡ bit_of n t → HasCarries carries.old j u v n t
        → HasCarries carries.new j u v n (t + 1) }
{
    let both = a ^ b ^ carries.first;
    let sum = both ^ c ^ carries.second;
    carries.first = majority_word(a, b, carries.first);
    carries.second = majority_word(both, c, carries.second);
    sum
}
