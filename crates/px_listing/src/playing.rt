//! Playing a listing on an array.
ghost use Rattle.std.specs.Prelude.{◌≡◌, All, OnErr, OnOk};
ghost use Rattle.std.specs.List.{sum_by};
ghost use Rattle.px_array.specs.Arrays.{HasGrid, closed};
ghost use Rattle.px_array.specs.Slots.{no_slots};
ghost use Rattle.px_asm.specs.Micros.{cycles};
ghost use Rattle.px_macro.specs.Macros.{IsLawful};
ghost use Rattle.px_listing.specs.Listings.{IsListing};
ghost use Rattle.px_listing.specs.Played.{HasPlayed, played_on};

use crate::listing::Listing;
use px_asm::{Operating, law_of_microprograms, make_operations};
use px_num::Memory;

/// Opens an array with the grid of a listing and makes its operations, one after another, which
/// leaves what their clocks leave (docs/LISTINGS.md, "Playing").
///
/// After `Memory` no array is open.
#[tactic(auto, using(crate::proofs::PlayLemmas::clocks_of_all, crate::proofs::PlayLemmas::grid_of_played))]
pub fn play<A: Operating>(listing: &Listing, array: &mut A) -> Result<(), Memory>
    requires lawful { All (λ m. IsLawful m A.BITS) listing.now.macros }
    ensures device { OnOk result ((A.view array.new).device ≡ played_on A.BITS listing.now) }
    ensures clocks { OnOk result ((A.view array.new).device.clocks
        ≡ sum_by (λ m. cycles m listing.now.nx listing.now.ny) listing.now.macros) }
    ensures played { OnOk result (HasPlayed A.BITS listing.now (A.view array.new).device.state) }
    ensures grid { OnOk result (HasGrid A.BITS listing.now.nx listing.now.ny (A.view array.new).device.state) }
    ensures lawful { IsListing listing.now }
    ensures memory { OnErr result ((A.view array.new).device ≡ closed) }
    ensures slots { (A.view array.new).slots ≡ no_slots }
    ensures work { (A.view array.new).work ≡ (A.view array.new).device.clocks }
{
    law_of_microprograms();
    array.open(listing.nx, listing.ny)?;
    make_operations(array, listing.macros.as_slice());
    Ok(())
}
