//! Means over the pixels of a block, from the numbers of a strip.
ghost use Rattle.std.specs.Prelude.{◌≡◌, ◌+◌, ◌*◌, ◌^◌, ◌≤◌};
ghost use Rattle.px_frame.specs.Refined.{mean_colour};
ghost use Rattle.px_frame.specs.MeanSums.{AreSumsAtMost, FitsPicture, block_sums, row_sums, strip_colour};

use crate::finer::parts;
use crate::mean_sums::Sums;
use crate::strip::Strip;
use px_model::{Colour, Scene};

/// The mean colour of the pixels that the pixel (x, y) is cut into.
pub(crate) fn mean_at(strip: &Strip, fine: &Scene, s: u32, x: u32, y: u32) -> Colour
    requires few { s ≤ 2 }
    requires across { 2 ^ s * (x + 1) ≤ fine.now.width }
    requires down { 2 ^ s * (y + 1) ≤ fine.now.height }
    requires strip { FitsPicture fine.now strip.now }
    ensures { result ≡ mean_colour s (strip_colour fine.now strip.now) x y }
{
    let across = parts(s);
    block_sums(strip, fine, across * x, across * y, across).mean(s)
}

/// Over so many rows of as many pixels.
#[tactic(auto, using(crate::proofs::MeanSumLaws::block_more, crate::proofs::MeanSumLaws::most_together))]
fn block_sums(strip: &Strip, fine: &Scene, from: u32, top: u32, across: u32) -> Sums
    requires few { across ≤ 4 }
    requires across { from + across ≤ fine.now.width }
    requires down { top + across ≤ fine.now.height }
    requires strip { FitsPicture fine.now strip.now }
    ensures sums { result ≡ block_sums (strip_colour fine.now strip.now) across from top across }
    ensures most { AreSumsAtMost (255 * (across * across)) result }
{
    let mut sums = Sums::new();
    for j in 0..across {
        sums = sums.plus(&row_sums(strip, fine, from, top + j, across));
    }
    sums
}

/// Over so many pixels of row `y`.
#[tactic(auto, using(crate::proofs::MeanSumLaws::row_more, crate::proofs::MeanSumLaws::most_more))]
fn row_sums(strip: &Strip, fine: &Scene, from: u32, y: u32, across: u32) -> Sums
    requires few { across ≤ 4 }
    requires across { from + across ≤ fine.now.width }
    requires strip { FitsPicture fine.now strip.now }
    ensures sums { result ≡ row_sums (strip_colour fine.now strip.now) from y across }
    ensures most { AreSumsAtMost (255 * across) result }
{
    let mut sums = Sums::new();
    for i in 0..across {
        sums = sums.with(fine.colour_of(strip.at(from + i, y)));
    }
    sums
}
