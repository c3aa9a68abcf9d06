//! Where the scene part of a text ends.
ghost use Rattle.std.specs.Prelude.{◌≡◌};
ghost use Rattle.px_asked.specs.Parts.{part_end};

use crate::search::Search;

/// Where the scene part of a text ends: after the line feed of the first line whose one word is
/// `end`, where there is one (docs/DEBUGGER.md).
pub fn part_end(text: &[u8]) -> Option<usize>
    ensures { result ≡ part_end text.now }
{
    Search::start().find(text)
}
