//! `pxplanes_state`: the machine after so many clocks of a scene or of a listing.
ghost use Rattle.std.specs.Prelude.{◌≡◌, ◌<◌, ◌≤◌, ℕ, length};
ghost use Rattle.px_listing.specs.Listings.{ListingView};
ghost use Rattle.px_tree.specs.Nodes.{IsGrid};
ghost use Rattle.px_state.specs.Courses.{device_after, total_of_listing};
ghost use Rattle.px_state.specs.Refusals.{course_of};
ghost use Rattle.px_state.specs.States.{IsState};
ghost use Rattle.px_state.specs.Words.{BeginsWithState};
ghost use Rattle.px_c.specs.Answers.{TellsAnswer};
ghost use Rattle.px_c.specs.StateAnswers.{IsComing, IsOver, TellsState, no_state, state_answer};
ghost use Rattle.px_c.specs.declared.status.TheConstants.{BITS, OK};

use crate::answer::state_refused;
use crate::found::{Found, course_found};
use crate::status::{BITS, OK};
use px_num::power;
use px_planes::PlaneArray;
use px_state::{packed, row_words, write_state};
use std::alloc::Global;

/// Where the machine stands (include/pxplanes.h, `struct pxplanes_moment`).
#[repr(C)]
#[derive(Clone, Copy)]
pub struct State {
    /// The columns of the grid.
    pub grid_width: u32,
    /// Its rows.
    pub grid_height: u32,
    /// How many words a row of a plane has.
    pub words_per_row: u32,
    /// How many memory bits a pixel has.
    pub bits: u32,
    /// How many levels the tree has.
    pub levels: u32,
    /// How many clocks were made.
    pub clock: u64,
    /// How many there are.
    pub clocks: u64,
    /// The operation of the broadcast that comes next, from 0 on; or how many there are, where none comes.
    pub operation: u64,
    /// Which of the operation's clocks that is, from 0 on.
    pub operation_clock: u64,
    /// The micro that is broadcast, packed; 0 where none comes.
    pub next_micro: u64,
}

/// Finds the machine after so many clocks of a text, and writes its bits to the front of `words`.
///
/// `words` has room for all of them, or more, which stay as they are.
#[tactic(auto, using(crate::proofs::StateLemmas::faulty, crate::proofs::StateLemmas::faultless))]
#[unsafe(no_mangle)]
pub extern "C" fn pxplanes_state(
    alloc: Global,
    text: &[u8],
    clock: u64,
    words: &mut [u64],
    state: &mut State,
    found: &mut Found,
) -> u32
    ensures answer { TellsAnswer (state_answer text.now clock (length words.old)) result found.new }
    ensures state { result ≡ OK → TellsState (course_of text.now) clock state.new }
    ensures stateless { (result ≡ OK → ⊥) → state.new ≡ no_state }
    ensures words { result ≡ OK → BeginsWithState BITS
        (device_after BITS (course_of text.now) clock).state words.old words.new }
    ensures kept { (result ≡ OK → ⊥) → words.new ≡ words.old }
    ensures length { length words.new ≡ length words.old }
{
    let mut array = PlaneArray::<BITS>::new(alloc);
    match write_state(alloc, text, clock, words, &mut array) {
        Ok(written) => {
            *state = standing(&written);
            *found = course_found(written.operations, written.clocks);
            OK
        }
        Err(fault) => {
            *state = no_state();
            state_refused(fault).report_to(found)
        }
    }
}

/// A state without its words, as C has it.
fn standing(found: &px_state::State) -> State
    requires grid { IsGrid found.now.nx found.now.ny }
    ensures { (l : ListingView) (clock : ℕ) → IsState BITS l clock found.now → TellsState l clock result }
{
    let (operation, operation_clock, next_micro) = coming(found);
    State {
        grid_width: power(found.nx) as u32,
        grid_height: power(found.ny) as u32,
        words_per_row: row_words(found.nx) as u32,
        bits: found.bits,
        levels: found.nx + found.ny,
        clock: found.clock,
        clocks: found.clocks,
        operation,
        operation_clock,
        next_micro,
    }
}

/// The operation of the broadcast that comes next, which of its clocks that is, and the packed micro.
fn coming(found: &px_state::State) -> (u64, u64, u64)
    ensures next { (l : ListingView) (clock : ℕ) → IsState BITS l clock found.now → clock < total_of_listing l
        → IsComing l clock result.0 result.1 result.2 }
    ensures end { (l : ListingView) (clock : ℕ) → IsState BITS l clock found.now → total_of_listing l ≤ clock
        → IsOver l result.0 result.1 result.2 }
{
    match found.next {
        Some(next) => (next.operation, u64::from(next.cycle), packed(&next.micro)),
        None => (found.operations, 0, 0),
    }
}

/// What is reported where there is no state.
fn no_state() -> State
    ensures { result ≡ no_state }
{
    State {
        grid_width: 0,
        grid_height: 0,
        words_per_row: 0,
        bits: 0,
        levels: 0,
        clock: 0,
        clocks: 0,
        operation: 0,
        operation_clock: 0,
        next_micro: 0,
    }
}
