//! What micros make of single pixels.
ghost use Rattle.px_planes.specs.ArraysLaw.{EachPixelIsAlone};

/// After any micros each pixel of a grid is what the table of acts makes of it alone.
#[tactic(auto, using(crate::proofs::AloneLemmas::each_pixel_is_alone))]
pub fn law_of_arrays()
    ensures alone { EachPixelIsAlone }
{}
