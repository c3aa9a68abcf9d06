//! What a text broadcasts: the passes of a scene, or a listing.
ghost use Rattle.std.specs.Prelude.{◌≡◌, ◌+◌, ◌^◌, ◌<◌, ◌≤◌, List, ℕ, IfErr, IfNone, IfOk, None, OnOk, OnSome, length, slice_get};
ghost use Rattle.px_sched.specs.Layouts.{layout_of, need_of};
ghost use Rattle.px_state.specs.Courses.{total_of_listing};
ghost use Rattle.px_state.specs.Inputs.{IsGoodCourse, IsOf, IsReadAs, KeepsArray, StandsIn, given_by, listing_in};
ghost use Rattle.px_state.specs.Refusals.{IsRefusedBy, input_refusal, refusal_by_bits};

use crate::fault::StateFault;
use crate::text::is_listing;
use px_asm::cycles;
use px_control::Program;
use px_listing::{Listing, read_listing};
use px_macro::Macro;
use px_model::Scene;
use px_scene::{LimitKind, SceneFault, read_scene};
use px_sched::Cursor;
use px_text::MAX_TEXT_BYTES;
use std::alloc::Global;

/// What a text is read as.
#[derive(Drop)]
pub(crate) enum Input {
    Scene(Scene),
    Listing(Listing),
}

/// Operations that are broadcast to the pixels of a grid, one after another.
#[derive(Drop)]
pub(crate) enum Broadcast<'s> {
    Passes(Program<'s>),
    Listed(&'s Listing),
}

/// A place among the operations.
#[derive(Clone, Copy)]
pub(crate) struct Mark {
    cursor: Cursor,
    line: usize,
}

/// Reads a text, for pixels of so many memory bits.
#[tactic(auto, using(crate::proofs::TextLemmas::list_text, crate::proofs::TextLemmas::scene_text, crate::proofs::TextLemmas::long_text))]
pub(crate) fn read_input(alloc: Global, text: &[u8], bits: u32) -> Result<Input, StateFault>
    requires bits { bits ≤ 256 }
    ensures ok { IfOk result (λ input. IsReadAs bits text.now input) }
    ensures err { IfErr result (λ fault. IsRefusedBy fault (input_refusal bits text.now)) }
    ensures keeps { IfErr result KeepsArray }
{
    if text.len() > MAX_TEXT_BYTES {
        return Err(StateFault::Scene(SceneFault::Limit {
            line: 0,
            kind: LimitKind::Text,
            found: MAX_TEXT_BYTES as i64 + 1,
        }));
    }
    if is_listing(text) {
        Ok(Input::Listing(read_listing(alloc, text, bits)?))
    } else {
        Ok(Input::Scene(read_scene(alloc, text)?))
    }
}

impl<'s> Broadcast<'s> {
    /// Of an input, for pixels of so many memory bits.
    #[tactic(auto, using(crate::proofs::TextLemmas::scene_course, crate::proofs::TextLemmas::list_course))]
    pub(crate) fn of(
        alloc: Global,
        input: &'s Input,
        bits: u32,
    ) -> Result<Broadcast<'s>, StateFault>
        ensures ok { IfOk result (λ course. (text : List ℕ) → IsReadAs bits text input.now → IsOf bits text course) }
        ensures err { IfErr result (λ fault. (text : List ℕ) → IsReadAs bits text input.now
            → IsRefusedBy fault (input_refusal bits text)) }
        ensures keeps { IfErr result KeepsArray }
    {
        match input {
            Input::Scene(scene) => match program_of(alloc, scene, bits) {
                Ok(program) => Ok(Broadcast::Passes(program)),
                Err(fault) => Err(fault),
            },
            Input::Listing(listing) => Ok(Broadcast::Listed(listing)),
        }
    }

    /// The exponents of the grid.
    #[tactic(auto, using(crate::proofs::SceneLemmas::good_course))]
    pub(crate) fn grid(&self) -> (u32, u32)
        ensures columns { result.0 ≡ (listing_in self.now).nx }
        ensures rows { result.1 ≡ (listing_in self.now).ny }
        ensures good { IsGoodCourse (listing_in self.now) }
    {
        match self {
            Broadcast::Passes(program) => {
                program.laws();
                program.grid()
            }
            Broadcast::Listed(listing) => {
                clocks_of(listing);
                (listing.nx, listing.ny)
            }
        }
    }

    /// How many operations there are, and how many clocks they take.
    #[tactic(auto, unfolding(px_control::specs::Program::program))]
    pub(crate) fn cost(&self) -> (u64, u64)
        ensures operations { result.0 ≡ length (listing_in self.now).macros }
        ensures clocks { result.1 ≡ total_of_listing (listing_in self.now) }
    {
        match self {
            Broadcast::Passes(program) => program.cost(),
            Broadcast::Listed(listing) => (listing.macros.len() as u64, clocks_of(listing)),
        }
    }

    /// Before the first operation.
    pub(crate) fn start(&self) -> Mark
        ensures given { given_by self.now result ≡ 0 }
        ensures stands { StandsIn self.now result }
    {
        match self {
            Broadcast::Passes(program) => Mark {
                cursor: program.start(),
                line: 0,
            },
            Broadcast::Listed(_) => Mark {
                cursor: Cursor::start(),
                line: 0,
            },
        }
    }

    /// Gives the next operation, if one is left.
    pub(crate) fn next_macro(&self, mark: &mut Mark) -> Option<Macro>
        requires stands { StandsIn self.now mark.old }
        ensures operation { result ≡ slice_get (listing_in self.now).macros (given_by self.now mark.old) }
        ensures some { OnSome result (given_by self.now mark.new ≡ given_by self.now mark.old + 1) }
        ensures end { IfNone result (given_by self.now mark.old ≡ length (listing_in self.now).macros) }
        ensures stands { StandsIn self.now mark.new }
    {
        match self {
            Broadcast::Passes(program) => program.give(&mut mark.cursor),
            Broadcast::Listed(listing) => next_line(listing, &mut mark.line),
        }
    }
}

/// The program of a scene, for pixels of so many memory bits.
fn program_of<'s>(alloc: Global, scene: &'s Scene, bits: u32) -> Result<Program<'s>, StateFault>
    ensures program { IfOk result (λ program. program ≡ scene.now) }
    ensures held { OnOk result (need_of (layout_of scene.now) ≤ bits) }
    ensures ok { OnOk result (refusal_by_bits bits scene.now ≡ None) }
    ensures err { IfErr result (λ fault. IsRefusedBy fault (refusal_by_bits bits scene.now)) }
    ensures keeps { IfErr result KeepsArray }
{
    Ok(Program::new(alloc, scene, bits)?)
}

/// How many clocks a listing takes.
#[tactic(auto, using(crate::proofs::CourseLemmas::begins, crate::proofs::CourseLemmas::here_in))]
fn clocks_of(listing: &Listing) -> u64
    ensures clocks { result ≡ total_of_listing listing.now }
    ensures few { result < 2 ^ 43 }
{
    let mut clocks = 0;
    for m in listing.macros.iter() {
        clocks += u64::from(cycles(m, listing.nx, listing.ny));
    }
    clocks
}

/// The operation of a line of a listing, and past it.
fn next_line(listing: &Listing, line: &mut usize) -> Option<Macro>
    requires stands { line.old ≤ length listing.now.macros }
    ensures operation { result ≡ slice_get listing.now.macros line.old }
    ensures some { OnSome result (line.new ≡ line.old + 1) }
    ensures end { IfNone result (line.old ≡ length listing.now.macros) }
    ensures stands { line.new ≤ length listing.now.macros }
{
    if listing.macros.len() <= *line {
        return None;
    }
    let m = listing.macros[*line];
    *line += 1;
    Some(m)
}
