//! Searching a text that grows for the end of its scene part.
ghost use Rattle.std.specs.Prelude.{◌≡◌, ◌+◌, ◌<◌, None, Some, length, true, false};
ghost use Rattle.px_asked.specs.Parts.{part_end};
ghost use Rattle.px_asked.specs.Searches.{HasSeen};

use crate::end_line::is_end_line;

/// How far a text was searched: where the line begins that is not whole yet, and the next byte.
#[derive(Clone, Copy)]
pub(crate) struct Search {
    pub(crate) line: usize,
    pub(crate) at: usize,
}

impl Search {
    /// Before the first byte of a text.
    pub(crate) fn start() -> Search
        ensures line { result.line ≡ 0 }
        ensures at { result.at ≡ 0 }
    {
        Search { line: 0, at: 0 }
    }

    /// Goes on to the end of the scene part, or of the text where that does not end in it.
    pub(crate) fn find(&mut self, text: &[u8]) -> Option<usize>
        requires seen { HasSeen self.old text.now }
        ensures found { result ≡ part_end text.now }
        ensures seen { result ≡ None → HasSeen self.new text.now }
        ensures all { result ≡ None → self.new.at ≡ length text.now }
    {
        while self.at < text.len() {
            if self.pass(text) {
                return Some(self.at);
            }
        }
        None
    }

    /// Goes past a byte, and says whether the scene part ends with it.
    #[tactic(auto, using(crate::proofs::PartLemmas::not_feed, crate::proofs::PartLemmas::seen_byte, crate::proofs::PartLemmas::seen_end, crate::proofs::PartLemmas::seen_feed))]
    fn pass(&mut self, text: &[u8]) -> bool
        requires more { self.old.at < length text.now }
        requires seen { HasSeen self.old text.now }
        ensures at { self.new.at ≡ self.old.at + 1 }
        ensures end { result ≡ true → part_end text.now ≡ Some self.new.at }
        ensures seen { result ≡ false → HasSeen self.new text.now }
    {
        let byte = text[self.at];
        let line = &text[self.line..self.at];
        self.at += 1;
        if byte != b'\n' {
            return false;
        }
        if is_end_line(line) {
            return true;
        }
        self.line = self.at;
        false
    }
}
