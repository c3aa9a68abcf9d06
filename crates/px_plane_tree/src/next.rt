//! The node table on two words.
ghost use Rattle.std.specs.Prelude.{slice_index};
ghost use Rattle.px_num.specs.Bits.{nat_bit};
ghost use Rattle.px_plane_tree.specs.Lanes.{IsNext, IsOdd};

use std::simd::prelude::*;

/// The bits at odd places.
const ODD: u64 = 0xaaaa_aaaa_aaaa_aaaa;

/// The new outputs and carries where every line is the same.
#[inline(always)]
#[tactic(auto, using(crate::proofs::NodeTableLemmas::next_with_law, crate::proofs::NodeTableLemmas::next_without_law))]
pub fn next_of(both: u64x2, old: u64x2, line: bool) -> (u64x2, u64x2)
    requires { IsOdd old }
    ensures { IsNext (λ i j. line) both old result.0 result.1 }
{
    if line {
        let odd = u64x2::splat(ODD);
        (both ^ (old ^ odd), (both & odd) | old)
    } else {
        (both ^ old, both & old)
    }
}

/// The new outputs and carries where `lines` has each odd node's line, and its even bits are 0.
#[inline(always)]
#[tactic(auto, using(crate::proofs::NodeTableLemmas::next_by_law))]
pub fn next_by(both: u64x2, old: u64x2, lines: u64x2) -> (u64x2, u64x2)
    requires odd { IsOdd old }
    requires odd_lines { IsOdd lines }
    ensures { IsNext (λ i j. nat_bit (slice_index lines i) j) both old result.0 result.1 }
{
    (both ^ (old ^ lines), (both & (old | lines)) | (old & lines))
}
