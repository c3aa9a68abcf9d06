//! The words outside of which no pixel is enabled.
ghost use Rattle.std.specs.Prelude.{◌≡◌, ◌/◌, ◌<◌, ◌≤◌, ℕ, IsTrue, false, length};
ghost use Rattle.std.specs.Bool.{OnTrue};
ghost use Rattle.std.specs.List.{list_any};
ghost use Rattle.px_planes.specs.Operations.{IsCrowd, IsReach, has_some};
ghost use Rattle.px_rows.specs.Rows.{row_bit};

use crate::planes::Planes;
use px_rows::{BLOCK, part};

/// The words from `from` on and below `to`.
#[derive(Clone, Copy)]
pub struct Reach {
    pub from: usize,
    pub to: usize,
}

/// In so few words an operation at once is always the faster.
const FEW: usize = 256;

/// Whether pixels are enabled in so many words that whole rows are faster than word by word.
pub(crate) fn is_crowd(planes: &Planes, reach: Reach) -> bool
    ensures { OnTrue result (IsCrowd planes.now) }
{
    let words = planes.enable.words();
    let most = (words.len() / 3).max(FEW);
    reach.to.saturating_sub(reach.from) > most
        && words.iter().filter(|word| has_some(**word)).count() > most
}

fn has_some(word: u64) -> bool
    ensures { result ≡ has_some word }
{
    word != 0
}

/// All words.
pub(crate) fn whole(planes: &Planes) -> Reach
    ensures { IsReach result planes.now }
{
    Reach {
        from: 0,
        to: planes.enable.words().len(),
    }
}

/// The words that are left when those at both ends go in which no pixel is enabled.
pub(crate) fn narrowed(planes: &Planes, reach: Reach) -> Reach
    requires { IsReach reach planes.now }
    ensures { IsReach result planes.now }
{
    let rough = without_last(planes, without_first(planes, reach, BLOCK), BLOCK);
    without_last(planes, without_first(planes, rough, 1), 1)
}

/// Without the first words, in steps of so many.
#[inline(always)]
fn without_first(planes: &Planes, reach: Reach, step: usize) -> Reach
    requires reach { IsReach reach planes.now }
    requires step { 1 ≤ step }
    ensures { IsReach result planes.now }
{
    let mut from = reach.from;
    while reach.to.saturating_sub(from) >= step && is_clear(planes, from, from + step) {
        from += step;
    }
    Reach { from, to: reach.to }
}

/// Without the last words, in steps of so many.
#[inline(always)]
fn without_last(planes: &Planes, reach: Reach, step: usize) -> Reach
    requires reach { IsReach reach planes.now }
    requires step { 1 ≤ step }
    ensures { IsReach result planes.now }
{
    let mut to = reach.to;
    while to.saturating_sub(reach.from) >= step && is_clear(planes, to - step, to) {
        to -= step;
    }
    Reach {
        from: reach.from,
        to,
    }
}

/// Whether no pixel is enabled in the words from `from` on and below `to`.
#[inline(always)]
fn is_clear(planes: &Planes, from: usize, to: usize) -> bool
    requires order { from ≤ to }
    requires within { to ≤ length planes.now.enable }
    ensures { IsTrue result → (p : ℕ) → from ≤ p / 64 → p / 64 < to
        → row_bit planes.now.enable p ≡ false }
{
    !has_any(part(planes.enable.words(), from, to))
}

#[inline(always)]
fn has_any(row: &[u64]) -> bool
    ensures { result ≡ list_any has_some row.now }
{
    row.iter().any(|word| has_some(*word))
}
