//! Blocks of 64 words, turned over: bit `i` of word `w` becomes bit `w` of word `i`.
ghost use Rattle.std.specs.Prelude.{◌≡◌, ◌+◌, ◌*◌, ◌/◌, ◌%◌, ◌<◌, ◌==◌, ℕ, cond, get_or};
ghost use Rattle.px_num.specs.Bits.{nat_bit};
ghost use Rattle.px_rows.specs.Rows.{row_bit};
ghost use Rattle.px_state.specs.Turning.{shuffled};

use px_plane_tree::doubled_pair;
use px_rows::chosen_word;
use std::simd::prelude::*;

/// The bits at odd places.
pub(crate) const ODD: u64 = 0xaaaa_aaaa_aaaa_aaaa;

/// The block that is turned over, by six shuffles.
pub(crate) fn turned_block(block: &[u64; 64]) -> [u64; 64]
    ensures { (p : ℕ) → p < 4096 → row_bit result p ≡ row_bit block.now (64 * (p % 64) + p / 64) }
{
    let first = shuffled(block);
    let second = shuffled(&first);
    let third = shuffled(&second);
    let fourth = shuffled(&third);
    let fifth = shuffled(&fourth);
    shuffled(&fifth)
}

/// The bits of a block's first half at even places, and those of the second at odd ones.
fn shuffled(block: &[u64; 64]) -> [u64; 64]
    ensures { (p : ℕ) → p < 4096 → row_bit result p ≡ row_bit block.now (shuffled p) }
{
    let mut words = [0; 64];
    for w in 0..32 {
        let both = merged(block[w], block[32 + w]);
        words[2 * w] = both[0];
        words[2 * w + 1] = both[1];
    }
    words
}

/// The bits of one word at even places, and those of another at odd ones.
#[inline(always)]
#[tactic(auto, using(px_rows::proofs::BitLaws::odd_bits))]
fn merged(even: u64, odd: u64) -> [u64; 2]
    ensures { (h j : ℕ) → h < 2 → j < 64 → nat_bit (get_or result h 0) j
        ≡ cond (j % 2 == 1) (nat_bit odd (32 * h + j / 2)) (nat_bit even (32 * h + j / 2)) }
{
    let (evens, odds) = doubled_pair(u64x2::from_array([even, odd]));
    [
        chosen_word(evens[0], odds[0], ODD),
        chosen_word(evens[1], odds[1], ODD),
    ]
}
