//! `pxplanes_micros`: what is broadcast in a stretch of clocks of a scene or of a listing.
ghost use Rattle.std.specs.Prelude.{◌≡◌, length};
ghost use Rattle.px_state.specs.Packed.{HasMicros};
ghost use Rattle.px_state.specs.Refusals.{course_of};
ghost use Rattle.px_c.specs.Answers.{TellsAnswer};
ghost use Rattle.px_c.specs.StateAnswers.{micros_answer};
ghost use Rattle.px_c.specs.declared.status.TheConstants.{OK};

use crate::answer::state_refused;
use crate::found::{Found, course_found};
use crate::status::{BITS, OK};
use px_state::write_micros;
use std::alloc::Global;

/// Writes the micros of a text from a clock on, each packed into a word, as many as `micros` has.
#[tactic(auto, using(crate::proofs::StateLemmas::faulty, crate::proofs::StateLemmas::faultless))]
#[unsafe(no_mangle)]
pub extern "C" fn pxplanes_micros(
    alloc: Global,
    text: &[u8],
    first: u64,
    micros: &mut [u64],
    found: &mut Found,
) -> u32
    ensures answer { TellsAnswer (micros_answer text.now first (length micros.old)) result found.new }
    ensures micros { result ≡ OK → HasMicros (course_of text.now) first micros.new }
    ensures kept { (result ≡ OK → ⊥) → micros.new ≡ micros.old }
    ensures length { length micros.new ≡ length micros.old }
{
    match write_micros(alloc, text, BITS as u32, first, micros) {
        Ok(course) => {
            *found = course_found(course.operations, course.clocks);
            OK
        }
        Err(fault) => state_refused(fault).report_to(found),
    }
}
