//! What the finer scene, and means over it, have to do with the scene.
ghost use Rattle.px_frame.specs.FinerLaw.{CommonPixelsAgree};
ghost use Rattle.px_frame.specs.RefinedLaw.{MeansAreRefined, StoredMeansAreRefined};

/// The picture of the finer scene at `(2^s * x, 2^s * y)` is the picture of the scene at `(x, y)`,
/// and where an array stores the picture of the finer scene, its means are the refined image.
pub fn laws_of_refinement()
    ensures pixels { CommonPixelsAgree }
    ensures means { MeansAreRefined }
    ensures stored { StoredMeansAreRefined }
{}
