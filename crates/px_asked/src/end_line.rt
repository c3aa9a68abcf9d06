//! The line that ends a scene.
ghost use Rattle.std.specs.Prelude.{◌≡◌, map};
ghost use Rattle.px_asked.specs.Parts.{are_end, is_end_line};

use px_text::{before_comment, few_words};

/// Whether the one word of a line is `end` (docs/SCENES.md, "Lines and words").
#[tactic(auto, unfolding(crate::specs::Parts::is_end_line))]
pub(crate) fn is_end_line(line: &[u8]) -> bool
    ensures { result ≡ is_end_line line.now }
{
    match few_words(before_comment(line)) {
        Some(words) => are_end(words.as_slice()),
        None => false,
    }
}

fn are_end(words: &[&[u8]]) -> bool
    ensures { result ≡ are_end (map (λ w. w.now) words.now) }
{
    match words {
        [word] => *word == b"end".as_slice(),
        _ => false,
    }
}
