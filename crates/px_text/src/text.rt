//! Lines and words of a text (docs/SCENES.md, "Lines and words").
ghost use Rattle.std.specs.Prelude.{◌≡◌, ◌==◌, ◌≤◌, ◌+◌, IfOk, map, length, vec_len};
ghost use Rattle.std.specs.List.{slice_split};
ghost use Rattle.px_text.specs.Text.{lines_of, words_of};

use crate::cut::{before_comment, is_blank, is_word, without_last_feed};
use px_num::Memory;
use std::alloc::Global;

/// The program takes texts of at most so many bytes (docs/SCENES.md, "Limits").
pub const MAX_TEXT_BYTES: usize = 1_048_576;

/// The lines of a text, in order: the pieces between line feeds, without them. A last piece that is
/// empty is no line (docs/SCENES.md, "Lines and words").
pub fn lines_of(alloc: Global, text: &[u8]) -> Result<Vec<&[u8]>, Memory>
    ensures lines { IfOk result (λ v. map (λ l. l.now) v.items ≡ lines_of text.now) }
    ensures count { IfOk result (λ v. vec_len v ≤ length text.now + 1) }
{
    if text.is_empty() {
        Ok(Vec::new(alloc))
    } else {
        pieces_of(alloc, without_last_feed(text))
    }
}

fn pieces_of(alloc: Global, text: &[u8]) -> Result<Vec<&[u8]>, Memory>
    ensures pieces { IfOk result (λ v. map (λ p. p.now) v.items ≡ slice_split (λ b. b == 10)
        text.now) }
    ensures count { IfOk result (λ v. vec_len v ≤ length text.now + 1) }
{
    let mut pieces = Vec::new(alloc);
    for piece in text.split(|b| *b == b'\n') {
        pieces.push(piece)?;
    }
    Ok(pieces)
}

/// The words of a line, in order: the longest runs of bytes other than spaces, tabs and carriage
/// returns, before the first `#` (docs/SCENES.md, "Lines and words").
pub fn words_of(alloc: Global, line: &[u8]) -> Result<Vec<&[u8]>, Memory>
    ensures { IfOk result (λ v. map (λ w. w.now) v.items ≡ words_of line.now) }
{
    let mut words = Vec::new(alloc);
    for word in before_comment(line)
        .split(|b| is_blank(*b))
        .filter(|w| is_word(*w))
    {
        words.push(word)?;
    }
    Ok(words)
}
