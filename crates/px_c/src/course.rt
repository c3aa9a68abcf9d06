//! `pxplanes_course`: the operations of a scene or of a listing, each with what it is for.
ghost use Rattle.std.specs.Prelude.{◌≡◌, length};
ghost use Rattle.px_state.specs.Operations.{HasOperations, IsOperationOf};
ghost use Rattle.px_c.specs.Answers.{TellsAnswer};
ghost use Rattle.px_c.specs.StateAnswers.{course_answer};
ghost use Rattle.px_c.specs.declared.status.TheConstants.{OK};

use crate::answer::state_refused;
use crate::found::{Found, course_found};
use crate::status::{BITS, OK};
use px_state::{Operation, write_operations};
use std::alloc::Global;

/// Writes the operations of a text from one on, each with what it is for, as many as `course` has.
#[tactic(auto, using(crate::proofs::StateLemmas::faulty, crate::proofs::StateLemmas::faultless))]
#[unsafe(no_mangle)]
pub extern "C" fn pxplanes_course(
    alloc: Global,
    text: &[u8],
    first: u64,
    course: &mut [Operation],
    found: &mut Found,
) -> u32
    ensures answer { TellsAnswer (course_answer text.now first (length course.old)) result found.new }
    ensures operations { result ≡ OK → HasOperations (IsOperationOf text.now) first course.new }
    ensures kept { (result ≡ OK → ⊥) → course.new ≡ course.old }
    ensures length { length course.new ≡ length course.old }
{
    match write_operations(alloc, text, BITS as u32, first, course) {
        Ok(counts) => {
            *found = course_found(counts.operations, counts.clocks);
            OK
        }
        Err(fault) => state_refused(fault).report_to(found),
    }
}
