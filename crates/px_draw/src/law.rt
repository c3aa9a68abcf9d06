//! What joins the commands `list` and `play`.
ghost use Rattle.px_draw.specs.ListedScenes.{DoneShowsThePicture, ListedPassesArePlayed, ListedPassesShowThePicture};

use px_listing::{laws_of_listings, laws_of_playing};

/// The laws that join `list` and `play`, for whoever hands the output of one to the other.
///
/// Within the limit of a text, `play` answers for what `list` writes of a scene the memory that the
/// scene's passes mean, and the array that it leaves stores the scene's picture. So it is wherever
/// `play` answers `Done`, also on an array with fewer bits a pixel than the scene needs.
pub fn laws_of_listed_scenes()
    ensures played { ListedPassesArePlayed }
    ensures picture { ListedPassesShowThePicture }
    ensures done { DoneShowsThePicture }
{}
