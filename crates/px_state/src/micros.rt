//! The micros of a stretch of clocks, packed.
ghost use Rattle.std.specs.Prelude.{◌≡◌, ℕ, ◌+◌, ◌-◌, ◌≤◌, ◌<◌, ◌^◌, get_or, length};
ghost use Rattle.px_asm.specs.Micros.{cycles as cycles_of, micro_at as micro_of};
ghost use Rattle.px_macro.specs.Macros.{IsLawful};
ghost use Rattle.px_state.specs.Courses.{total_of_listing};
ghost use Rattle.px_state.specs.Inputs.{listing_in};
ghost use Rattle.px_state.specs.Packed.{HasMicros};
ghost use Rattle.px_state.specs.Packing.{packed};
ghost use Rattle.px_tree.specs.Nodes.{IsGrid};

use crate::broadcast::Broadcast;
use crate::packing::packed;
use px_asm::{cycles, micro_at};
use px_macro::Macro;

/// Writes the micros of what is broadcast from a clock on.
#[tactic(auto, using(px_control::proofs::StepLemmas::start_within))]
pub(crate) fn put_course(course: &Broadcast<'_>, first: u64, micros: &mut [u64])
    requires within { first + length micros.old ≤ total_of_listing (listing_in course.now) }
    ensures micros { HasMicros (listing_in course.now) first micros.new }
    ensures length { length micros.new ≡ length micros.old }
{
    let grid = course.grid();
    let end = first + micros.len() as u64;
    let mut mark = course.start();
    let mut start = 0;
    while let Some(m) = course.next_macro(&mut mark) {
        start = put_micros(&m, grid, start, first, micros);
        if end <= start {
            return;
        }
    }
}

/// Writes those micros of an operation that begins at the clock `start` which lie in a list of micros
/// from the clock `first` on, and answers the clock at which it ends.
fn put_micros(m: &Macro, grid: (u32, u32), start: u64, first: u64, micros: &mut [u64]) -> u64
    requires lawful { IsLawful m.now 256 }
    requires grid { IsGrid grid.0 grid.1 }
    requires first { first + length micros.old < 2 ^ 63 }
    requires start { start < 2 ^ 63 }
    ensures end { result ≡ start + cycles_of m.now grid.0 grid.1 }
    ensures put { (j : ℕ) → j < length micros.old → start ≤ first + j
        → first + j < start + cycles_of m.now grid.0 grid.1
        → get_or micros.new j 0 ≡ packed (micro_of m.now grid.0 grid.1 (first + j - start)) }
    ensures kept { (j : ℕ) → first + j < start → get_or micros.new j 0 ≡ get_or micros.old j 0 }
    ensures length { length micros.new ≡ length micros.old }
{
    let (nx, ny) = grid;
    let end = start + u64::from(cycles(m, nx, ny));
    let low = first.max(start);
    let high = end.min(first + micros.len() as u64);
    for clock in low..high {
        let i = (clock - start) as u32;
        micros[(clock - first) as usize] = packed(&micro_at(m, nx, ny, i));
    }
    end
}
