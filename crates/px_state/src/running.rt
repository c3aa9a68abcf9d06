//! The first clocks of what is broadcast, and the broadcast behind them.
ghost use Rattle.std.specs.Prelude.{◌≡◌, ◌≤◌, All, IfSome, IfNone};
ghost use Rattle.px_array.specs.Arrays.{opened};
ghost use Rattle.px_control.specs.Program.{total};
ghost use Rattle.px_control.specs.Standing.{StandsFor};
ghost use Rattle.px_macro.specs.Macros.{IsLawful};
ghost use Rattle.px_listing.specs.PassesText.{passes_listing};
ghost use Rattle.px_sched.specs.Layouts.{layout_of, need_of};
ghost use Rattle.px_state.specs.Courses.{IsNextBroadcast, total_of_listing};
ghost use Rattle.px_state.specs.Inputs.{HasRunTo, IsHeldBy, listing_in};

use crate::broadcast::Broadcast;
use crate::state::Next;
use px_array::Array;
use px_asm::{Operating, cycles, make_micros, micro_at};
use px_control::{Place, Program};
use px_listing::Listing;

/// Makes the first clocks on a new array, and answers the broadcast behind them.
pub(crate) fn run_to<A: Operating>(
    course: &Broadcast<'_>,
    array: &mut A,
    clock: u64,
) -> Option<Next>
    requires held { IsHeldBy A.BITS course.now }
    requires new { (A.view array.old).device ≡ opened A.BITS (listing_in course.now).nx (listing_in course.now).ny }
    requires within { clock ≤ total_of_listing (listing_in course.now) }
    ensures { HasRunTo A.BITS (listing_in course.now) clock (A.view array.old) (A.view array.new) result }
{
    match course {
        Broadcast::Passes(program) => draw_to(program, array, clock),
        Broadcast::Listed(listing) => play_to(listing, array, clock),
    }
}

/// Makes the first clocks of a scene on a new array.
#[tactic(auto, using(crate::proofs::SceneLemmas::same_total))]
fn draw_to<A: Operating>(program: &Program<'_>, array: &mut A, clock: u64) -> Option<Next>
    requires held { need_of (layout_of program.now) ≤ A.BITS }
    requires new { (A.view array.old).device
        ≡ opened A.BITS (passes_listing program.now).nx (passes_listing program.now).ny }
    requires within { clock ≤ total_of_listing (passes_listing program.now) }
    ensures { HasRunTo A.BITS (passes_listing program.now) clock (A.view array.old) (A.view array.new) result }
{
    let place = program.run_clocks(&program.first(), array, clock);
    next_at(program, &place)
}

/// The broadcast before which a place of a scene's program stands.
#[tactic(auto, using(px_control::proofs::PlaceLemmas::at_end))]
fn next_at(program: &Program<'_>, place: &Place) -> Option<Next>
    requires { StandsFor program.now place.now }
    ensures some { IfSome result (λ n. IsNextBroadcast (passes_listing program.now) place.now.clock
        n.operation n.cycle n.micro) }
    ensures end { IfNone result (place.now.clock ≡ total program.now) }
{
    match place.current {
        Some(m) => Some(Next {
            operation: place.operation,
            cycle: place.micro,
            micro: program.micro(place, &m),
        }),
        None => None,
    }
}

/// Makes the first clocks of a listing on a new array.
#[tactic(auto, using(crate::proofs::CourseLemmas::columns_are, crate::proofs::CourseLemmas::rows_are))]
fn play_to<A: Array>(listing: &Listing, array: &mut A, clock: u64) -> Option<Next>
    requires lawful { All (λ m. IsLawful m A.BITS) listing.now.macros }
    requires new { (A.view array.old).device ≡ opened A.BITS listing.now.nx listing.now.ny }
    requires within { clock ≤ total_of_listing listing.now }
    ensures { HasRunTo A.BITS listing.now clock (A.view array.old) (A.view array.new) result }
{
    let mut start = 0;
    for (operation, m) in listing.macros.iter().enumerate() {
        let cycles = cycles(m, listing.nx, listing.ny);
        let made = (clock - start).min(u64::from(cycles)) as u32;
        make_micros(array, m, 0, made);
        if made < cycles {
            return Some(Next {
                operation: operation as u64,
                cycle: made,
                micro: micro_at(m, listing.nx, listing.ny, made),
            });
        }
        start += u64::from(made);
    }
    None
}
