//! The microprogram law.
ghost use Rattle.px_asm.specs.Microprograms.{HaveTheirPlaces, LeaveTheMeaning, LeaveTheMeanings};

/// The micros of a lawful operation, one after another from any state of pixels and tree, leave in
/// every pixel what the operation means there. They name only places of the memory.
pub fn law_of_microprograms()
    ensures meaning { LeaveTheMeaning }
    ensures meanings { LeaveTheMeanings }
    ensures places { HaveTheirPlaces }
{}
