//! What always holds of sessions.
ghost use Rattle.px_debug.specs.SessionLaws.{QuitEnds, SceneStays};

/// A session keeps its scene, and bytes behind a `quit` count for nothing.
#[tactic(auto, using(crate::proofs::FeedingLemmas::scene_kept))]
pub fn laws_of_sessions()
    ensures scene { SceneStays }
    ensures quit { QuitEnds }
{}
