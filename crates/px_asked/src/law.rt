//! What always holds of scene parts.
ghost use Rattle.px_asked.specs.PartLaws.{PartIsKept, PartIsWithin};

/// A scene part that ends in some bytes ends there in more, and within those bytes.
#[tactic(auto, using(crate::proofs::PartLemmas::end_kept, crate::proofs::PartLemmas::end_within))]
pub fn laws_of_parts()
    ensures kept { PartIsKept }
    ensures within { PartIsWithin }
{}
