//! Each bit of a word twice, sixteen bytes at a time.
ghost use Rattle.std.specs.Prelude.{slice_index};
ghost use Rattle.px_plane_tree.specs.Lanes.{IsTwice, HasBytes, IsDoubled};

use std::simd::prelude::*;

/// The four bits of a number below 16, each twice.
const TWICE: [u8; 16] = [
    0x00, 0x03, 0x0c, 0x0f, 0x30, 0x33, 0x3c, 0x3f, 0xc0, 0xc3, 0xcc, 0xcf, 0xf0, 0xf3, 0xfc, 0xff,
];

#[inline(always)]
#[tactic(auto, using(crate::proofs::WeaveLemmas::low_ok, crate::proofs::WeaveLemmas::low_looked_up))]
fn low_twice(bytes: u8x16) -> u8x16
    ensures { IsTwice 0 bytes result }
{
    u8x16::from_array(TWICE).swizzle_dyn(bytes & u8x16::splat(15))
}

#[inline(always)]
#[tactic(auto, using(crate::proofs::WeaveLemmas::high_ok, crate::proofs::WeaveLemmas::high_looked_up))]
fn high_twice(bytes: u8x16) -> u8x16
    ensures { IsTwice 4 bytes result }
{
    u8x16::from_array(TWICE).swizzle_dyn(bytes >> u8x16::splat(4))
}

#[inline(always)]
#[tactic(auto, using(crate::proofs::WeaveLemmas::bytes_law))]
fn bytes_of(words: u64x2) -> u8x16
    ensures { HasBytes words result }
{
    words.to_le_bytes()
}

/// The bytes of the first word, woven.
#[inline(always)]
fn first_woven(words: u64x2, bytes: u8x16, low: u8x16, high: u8x16) -> u64x2
    requires bytes { HasBytes words bytes }
    requires low { IsTwice 0 bytes low }
    requires high { IsTwice 4 bytes high }
    ensures { IsDoubled (slice_index words 0) result }
{
    u64x2::from_le_bytes(low.shuffle(
        high,
        [0, 16, 1, 17, 2, 18, 3, 19, 4, 20, 5, 21, 6, 22, 7, 23],
    ))
}

/// The bytes of the second word, woven.
#[inline(always)]
fn second_woven(words: u64x2, bytes: u8x16, low: u8x16, high: u8x16) -> u64x2
    requires bytes { HasBytes words bytes }
    requires low { IsTwice 0 bytes low }
    requires high { IsTwice 4 bytes high }
    ensures { IsDoubled (slice_index words 1) result }
{
    u64x2::from_le_bytes(low.shuffle(
        high,
        [8, 24, 9, 25, 10, 26, 11, 27, 12, 28, 13, 29, 14, 30, 15, 31],
    ))
}

/// The words of two parents, each bit twice.
#[inline(always)]
pub fn doubled_pair(parents: u64x2) -> (u64x2, u64x2)
    ensures first { IsDoubled (slice_index parents 0) result.0 }
    ensures second { IsDoubled (slice_index parents 1) result.1 }
{
    let bytes = bytes_of(parents);
    let low = low_twice(bytes);
    let high = high_twice(bytes);
    (
        first_woven(parents, bytes, low, high),
        second_woven(parents, bytes, low, high),
    )
}
