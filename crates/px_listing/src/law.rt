//! What holds of every listing, and of it on an array.
ghost use Rattle.px_listing.specs.AcceptedLaw.{AcceptedListingIsLawful, MemoryIsNoRefusal};
ghost use Rattle.px_listing.specs.PassesText.{
  PassesAreReadBack,
  PassesHaveTheScenesGrid,
  PlayedPassesShowThePicture,
};
ghost use Rattle.px_listing.specs.PlayedLaw.{MemoriesShowThePlayed};
ghost use Rattle.px_listing.specs.RoundTrip.{TextsAreReadBack};

/// The laws of listings, for whoever writes and reads them.
///
/// The canonical text of a listing is read as the listing. Pixels for which a text is accepted can carry its operations out, and
/// none is refused because memory runs out.
#[tactic(auto, using(crate::proofs::AcceptedLemmas::accepted_is_lawful))]
pub fn laws_of_listings()
    ensures read_back { TextsAreReadBack }
    ensures accepted { AcceptedListingIsLawful }
    ensures refusals { MemoryIsNoRefusal }
{}

/// The laws of playing, for whoever lists the passes of a scene, and plays listings.
///
/// What is printed of an array that has played a listing is what the listing's operations mean. The text of a scene's passes is
/// read as their listing. An array that has played it stores the picture of the scene, wherever its pixels can carry the passes
/// out, be they fewer bits than the scene's layout needs. The grid of the listing is the one that `Scene::grid` gives.
pub fn laws_of_playing()
    ensures printed { MemoriesShowThePlayed }
    ensures passes { PassesAreReadBack }
    ensures picture { PlayedPassesShowThePicture }
    ensures grid { PassesHaveTheScenesGrid }
{}
