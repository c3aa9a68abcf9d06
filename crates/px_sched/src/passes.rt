//! What holds of the passes of every scene.
ghost use Rattle.px_sched.specs.PassesFacts.{LayoutsAreLawful, PassesAreFew, PassesAreLawful, StepsAreLawful};
ghost use Rattle.px_sched.specs.PassesLaw.{PassesLaw};

/// The laws of passes, for whoever carries them out.
///
/// They are lawful and few, and they leave in key B what the pixel shows, whatever the numbers of
/// the pixel were.
pub fn laws_of_passes()
    ensures layout { LayoutsAreLawful }
    ensures lawful { PassesAreLawful }
    ensures steps { StepsAreLawful }
    ensures few { PassesAreFew }
    ensures picture { PassesLaw }
{}
