//! The command `play`: a listing on the array.
ghost use Rattle.std.specs.Prelude.{◌≡◌, ◌≢◌, ◌≤◌, All, Err, IfErr, IfOk, None, OnErr, OnOk, true};
ghost use Rattle.std.specs.Io.KnownBytes.{Appends};
ghost use Rattle.px_array.specs.Arrays.{IsOpen};
ghost use Rattle.px_io.specs.Counts.{HasCause};
ghost use Rattle.px_io.specs.Reports.{TakesFront, Tells};
ghost use Rattle.px_macro.specs.Macros.{IsLawful};
ghost use Rattle.px_listing.specs.Memories.{memory_text, played_text};
ghost use Rattle.px_commands.specs.declared.stop.Stop.{Stop};
ghost use Rattle.px_draw.specs.Listings.{PerformsPlay, Plays, list_refusal, listing_written};
ghost use Rattle.px_commands.specs.Outcomes.{done, unless_refused};
ghost use Rattle.px_commands.specs.Ends.{ends};
ghost use Rattle.px_commands.specs.Results.{HasCauses, status_in};
ghost use Rattle.px_commands.specs.Inputs.{TookText};
ghost use Rattle.px_commands.specs.Stops.{DoesWork, StopsAt};

use px_array::Array;
use px_asm::Operating;
use px_commands::{READ_LIMIT, SceneStop, Stop, read_text, too_long};
use px_io::{Failed, Sink, Source};
use px_listing::{Listing, laws_of_playing, play, read_listing, write_memory};
use std::alloc::Global;

/// Reads the input to its end, plays the listing that it writes, and prints every pixel's memory
/// (docs/LISTINGS.md, "Playing").
#[tactic(auto, using(crate::proofs::PlayLemmas::performs_played, crate::proofs::PlayLemmas::performs_unread, crate::proofs::PlayLemmas::plays_listing, crate::proofs::PlayLemmas::plays_text, px_commands::proofs::RunLaws::still))]
pub fn play_input<S: Source, O: Sink, A: Operating>(
    alloc: Global,
    input: &mut S,
    out: &mut O,
    array: &mut A,
) -> Result<(), Stop>
    requires bits { A.BITS ≤ 256 }
    ensures performs { PerformsPlay result A.BITS
        (ends (S.rest input.old) (S.faults input.old) (O.state out.old) (A.view array.old))
        (ends (S.rest input.new) (S.faults input.new) (O.state out.new) (A.view array.new)) }
    ensures causes { HasCauses result (S.faults input.old) (S.faults input.new) (O.state out.old).faults
        (O.state out.new).faults }
    ensures took { TookText (status_in result)
        (S.rest input.old) (S.rest input.new) }
    ensures worded { result ≢ Err Stop.Usage }
{
    let text = read_text(alloc, input)?;
    let listing = listing_in(alloc, text.as_slice(), A::BITS as u32)?;
    play_listing(&listing, out, array)
}

/// The listing that a text writes, for pixels of so many memory bits.
#[tactic(auto, unfolding(crate::specs::Listings::list_refusal, crate::specs::Listings::listing_written))]
fn listing_in(alloc: Global, text: &[u8], bits: u32) -> Result<Listing, SceneStop>
    requires bits { bits ≤ 256 }
    ensures ok { IfOk result (λ listing.
        (list_refusal bits text.now ≡ None) × (listing ≡ listing_written text.now)) }
    ensures lawful { IfOk result (λ listing. All (λ m. IsLawful m bits) listing.macros) }
    ensures err { IfErr result (λ stop. StopsAt (unless_refused (list_refusal bits text.now)) stop) }
{
    if text.len() >= READ_LIMIT {
        return Err(SceneStop::Refused(too_long()));
    }
    read_listing(alloc, text, bits).map_err(SceneStop::from)
}

/// Plays a listing on the array, and prints every pixel's memory.
fn play_listing<O: Sink, A: Operating>(
    listing: &Listing,
    out: &mut O,
    array: &mut A,
) -> Result<(), Stop>
    requires bits { A.BITS ≤ 256 }
    requires lawful { All (λ m. IsLawful m A.BITS) listing.now.macros }
    ensures serves { DoesWork result (done (played_text A.BITS listing.now))
        (O.state out.old) (O.state out.new) }
    ensures array { Plays (status_in result) A.BITS listing.now (A.view array.old)
        (A.view array.new) }
{
    match play(listing, array) {
        Ok(()) => {}
        Err(lack) => return Err(Stop::Memory(lack)),
    }
    laws_of_playing();
    Ok(deliver_memory(array, out)?)
}

/// Prints the memory of every pixel of an array, and finishes.
fn deliver_memory<A: Array, O: Sink>(array: &A, out: &mut O) -> Result<(), Failed>
    requires is_open { IsOpen (A.view array.now).device }
    requires bits { A.BITS ≤ 256 }
    ensures ok { OnOk result (Appends (O.state out.old).written (O.state out.new).written
        (memory_text A.BITS (A.view array.now).device.state)) }
    ensures end { OnOk result (Tells (O.state out.new).finished true) }
    ensures err { OnErr result (TakesFront (O.state out.old) (O.state out.new)
        (memory_text A.BITS (A.view array.now).device.state)) }
    ensures cause { HasCause (O.state out.old).faults (O.state out.new).faults result }
{
    write_memory(array, out)?;
    out.finish()
}
