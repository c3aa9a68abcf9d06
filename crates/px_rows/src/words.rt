//! Words of 64 bits, of which each bit of the result is a term of the bits at its place.
#![tactic(auto, using(crate::proofs::BitLaws::and_at, crate::proofs::BitLaws::xor_at))]

ghost use Rattle.std.specs.Prelude.{◌≡◌, ◌<◌, ℕ, cond, not};
ghost use Rattle.px_num.specs.Bits.{majority, nat_bit, xor};
ghost use Rattle.px_rows.specs.Rows.{HasAll};

/// A word of which every bit is `v`.
#[inline(always)]
#[tactic(auto, using(crate::proofs::WordLemmas::all_ones))]
pub fn all_of(v: bool) -> u64
    ensures { HasAll result v }
{
    if v { !0 } else { 0 }
}

/// The value where the mask is 1, and otherwise the target.
#[inline(always)]
pub fn chosen_word(target: u64, value: u64, mask: u64) -> u64
    ensures { (i : ℕ) → i < 64 → nat_bit result i
        ≡ cond (nat_bit mask i) (nat_bit value i) (nat_bit target i) }
{
    target ^ ((target ^ value) & mask)
}

/// The sum of value, target and carry where the mask is 1, and otherwise the target.
#[inline(always)]
pub fn added_word(target: u64, carry: u64, value: u64, mask: u64) -> u64
    ensures { (i : ℕ) → i < 64 → nat_bit result i
        ≡ cond (nat_bit mask i) (xor (nat_bit value i) (xor (nat_bit target i) (nat_bit carry i)))
        (nat_bit target i) }
{
    target ^ ((value ^ carry) & mask)
}

/// At least two of three.
#[inline(always)]
pub fn majority_word(a: u64, b: u64, c: u64) -> u64
    ensures { (i : ℕ) → i < 64 → nat_bit result i ≡ majority (nat_bit a i) (nat_bit b i) (nat_bit c i) }
{
    a ^ ((a ^ b) & (a ^ c))
}

/// Every bit turned over.
#[inline(always)]
#[tactic(auto, using(crate::proofs::WordLemmas::turned_at))]
pub fn turned(word: u64) -> u64
    ensures { (i : ℕ) → i < 64 → nat_bit result i ≡ not (nat_bit word i) }
{
    word ^ !0
}

/// Exactly one of two.
#[inline(always)]
pub fn xor_word(a: u64, b: u64) -> u64
    ensures { (i : ℕ) → i < 64 → nat_bit result i ≡ xor (nat_bit a i) (nat_bit b i) }
{
    a ^ b
}
