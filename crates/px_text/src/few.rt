//! The words of some bytes where they are few, for whoever takes no memory.
ghost use Rattle.std.specs.Prelude.{◌≡◌, ◌<◌, IfNone, IfSome, length, map};
ghost use Rattle.px_text.specs.Text.{words_in};

use crate::cut::{is_blank, is_word};
use arrayvec::ArrayVec;

/// The words of some bytes, in order, or none where there are more than three: the longest runs of
/// bytes other than spaces, tabs and carriage returns.
pub fn few_words(bytes: &[u8]) -> Option<ArrayVec<&[u8], 3>>
    ensures few { IfSome result (λ words. map (λ w. w.now) words.items ≡ words_in bytes.now) }
    ensures many { IfNone result (3 < length (words_in bytes.now)) }
{
    let mut words = ArrayVec::new();
    for word in bytes.split(|b| is_blank(*b)).filter(|w| is_word(*w)) {
        if words.is_full() {
            return None;
        }
        words.push(word);
    }
    Some(words)
}
