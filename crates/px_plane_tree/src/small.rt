//! The outputs of the levels that have less than a word, each in a word of its own.
ghost use Rattle.std.specs.Prelude.{◌≡◌, ℕ, ◌<◌, ◌≤◌, ◌+◌, ◌^◌, length, slice_index, cond, nat_lt};
ghost use Rattle.std.specs.Prelude.{false};
ghost use Rattle.px_num.specs.Bits.{nat_bit};

use px_num::power;

/// Takes the outputs of levels 1 to 5 from the word that has them in heap order.
#[inline(always)]
pub fn unpack(word: u64, small: &mut [u64])
    requires { length small.old ≡ 6 }
    ensures { (k j : ℕ) → 1 ≤ k → k < 6 → j < 64 → nat_bit (slice_index small.new k) j
        ≡ cond (nat_lt j (2 ^ k)) (nat_bit word (2 ^ k + j)) false }
{
    for k in 1..6 {
        small[k] = level_of(word, k as u32);
    }
}

/// The outputs of level `k`.
#[inline(always)]
#[tactic(auto, using(crate::proofs::TreeLemmas::small_power, crate::proofs::TreeLemmas::level_law))]
fn level_of(word: u64, k: u32) -> u64
    requires { k < 6 }
    ensures { (j : ℕ) → j < 64 → nat_bit result j
        ≡ cond (nat_lt j (2 ^ k)) (nat_bit word (2 ^ k + j)) false }
{
    let nodes = power(k);
    let mask = power(nodes as u32) as u64 - 1;
    (word >> nodes) & mask
}
