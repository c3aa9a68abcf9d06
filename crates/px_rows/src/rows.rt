//! The calls on whole rows, for rows of any length.
ghost use Rattle.std.specs.Prelude.{◌≡◌, ◌<◌, ◌&&◌, ℕ, cond, not, length, slice_index};
ghost use Rattle.std.specs.Bool.{beq};
ghost use Rattle.px_num.specs.Bits.{majority, nat_bit, xor};
ghost use Rattle.px_rows.specs.Rows.{EachBit, row_bit};

use crate::words::{added_word, all_of, chosen_word, majority_word, xor_word};

/// Each word becomes what `f` makes of its place and of itself.
#[inline(always)]
fn each_word<F: Fn(usize, u64) -> u64>(row: &mut [u64], f: F)
    requires { (w x : ℕ) → w < length row.old → F.pre f w x }
    ensures words { length row.new ≡ length row.old }
    ensures each { (w : ℕ) → w < length row.old → F.post f w (slice_index row.old w) (slice_index row.new w) }
{
    for w in 0..row.len() {
        row[w] = f(w, row[w]);
    }
}

/// `mask = mask and (other == want)`, in every bit
#[tactic(auto, using(crate::proofs::BitLaws::and_at, crate::proofs::BitLaws::xor_at))]
pub fn keep_row(mask: &mut [u64], other: &[u64], want: bool)
    requires { length mask.old ≡ length other.now }
    ensures { EachBit mask.new (λ p. row_bit mask.old p && beq (row_bit other.now p) want) }
{
    let turn = all_of(!want);
    each_word(
        mask,
        |w, m|
            requires { w < length other.now }
            ensures { (i : ℕ) → i < 64 → nat_bit result i ≡ (nat_bit m i
                && xor (nat_bit (slice_index other.entry.now w) i) (nat_bit turn i)) }
        { m & (other[w] ^ turn) },
    );
}

/// `target = value`, in the bits where the mask is 1
pub fn choose_row(target: &mut [u64], value: &[u64], mask: &[u64])
    requires value { length target.old ≡ length value.now }
    requires mask { length target.old ≡ length mask.now }
    ensures { EachBit target.new (λ p. cond (row_bit mask.now p) (row_bit value.now p)
        (row_bit target.old p)) }
{
    each_word(
        target,
        |w, t|
            requires value { w < length value.now }
            requires mask { w < length mask.now }
            ensures { (i : ℕ) → i < 64 → nat_bit result i ≡ cond (nat_bit (slice_index mask.entry.now w) i)
                (nat_bit (slice_index value.entry.now w) i) (nat_bit t i) }
        { chosen_word(t, value[w], mask[w]) },
    );
}

/// `carry = majority(carry, other, value xor invert)`, in every bit
pub fn majority_row(carry: &mut [u64], value: &[u64], other: &[u64], invert: bool)
    requires value { length carry.old ≡ length value.now }
    requires other { length carry.old ≡ length other.now }
    ensures { EachBit carry.new (λ p. majority (row_bit carry.old p) (row_bit other.now p) (xor
        (row_bit value.now p) invert)) }
{
    let turn = all_of(invert);
    each_word(
        carry,
        |w, k|
            requires value { w < length value.now }
            requires other { w < length other.now }
            ensures { (i : ℕ) → i < 64 → nat_bit result i ≡ majority (nat_bit k i)
                (nat_bit (slice_index other.entry.now w) i) (xor (nat_bit (slice_index value.entry.now w) i) (nat_bit turn i)) }
        { majority_word(k, other[w], xor_word(value[w], turn)) },
    );
}

/// `target = value xor target xor carry`, in the bits where the mask is 1, and
/// `carry = majority(value, target, carry)`, in every bit, by the target before
pub fn add_row(target: &mut [u64], carry: &mut [u64], value: &[u64], mask: &[u64])
    requires carry { length target.old ≡ length carry.old }
    requires value { length target.old ≡ length value.now }
    requires mask { length target.old ≡ length mask.now }
    ensures target { EachBit target.new (λ p. cond (row_bit mask.now p) (xor
        (row_bit value.now p) (xor (row_bit target.old p) (row_bit carry.old p)))
        (row_bit target.old p)) }
    ensures carry { EachBit carry.new (λ p. majority (row_bit value.now p)
        (row_bit target.old p) (row_bit carry.old p)) }
{
    for w in 0..target.len() {
        let t = target[w];
        let k = carry[w];
        target[w] = added_word(t, k, value[w], mask[w]);
        carry[w] = majority_word(k, value[w], t);
    }
}

/// The bits where the mask's are 1 become `v`.
pub fn paint_row(target: &mut [u64], mask: &[u64], v: bool)
    requires { length target.old ≡ length mask.now }
    ensures { EachBit target.new (λ p. cond (row_bit mask.now p) v (row_bit target.old p)) }
{
    let value = all_of(v);
    each_word(
        target,
        |w, t|
            requires { w < length mask.now }
            ensures { (i : ℕ) → i < 64 → nat_bit result i ≡ cond (nat_bit (slice_index mask.entry.now w) i)
                (nat_bit value i) (nat_bit t i) }
        { chosen_word(t, value, mask[w]) },
    );
}

/// The bits where the mask's are 1 are turned over.
#[tactic(auto, using(crate::proofs::BitLaws::xor_at))]
pub fn flip_row(target: &mut [u64], mask: &[u64])
    requires { length target.old ≡ length mask.now }
    ensures { EachBit target.new (λ p. cond (row_bit mask.now p) (not (row_bit target.old p))
        (row_bit target.old p)) }
{
    each_word(
        target,
        |w, t|
            requires { w < length mask.now }
            ensures { (i : ℕ) → i < 64 → nat_bit result i ≡ cond (nat_bit (slice_index mask.entry.now w) i)
                (not (nat_bit t i)) (nat_bit t i) }
        { t ^ mask[w] },
    );
}
