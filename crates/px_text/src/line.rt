//! One line of a text, cut into its words.
ghost use Rattle.std.specs.Prelude.{◌≡◌, IfOk};
ghost use Rattle.px_text.specs.LentWords.{now_of};
ghost use Rattle.px_text.specs.Text.{words_of};

use crate::text::words_of;
use px_num::Memory;
use std::alloc::Global;

/// A line of a text: its number, the first line's being 1, and its words, each cut once.
#[derive(Drop)]
pub struct Line<'a> {
    pub number: u32,
    pub words: Vec<&'a [u8]>,
}

impl<'a> Line<'a> {
    /// The line of these bytes, of which the words are parts.
    pub fn cut(alloc: Global, number: u32, bytes: &'a [u8]) -> Result<Line<'a>, Memory>
        ensures number { IfOk result (λ line. line.number ≡ number) }
        ensures words { IfOk result (λ line. now_of line.words.items ≡ words_of bytes.now) }
    {
        let words = words_of(alloc, bytes)?;
        Ok(Line { number, words })
    }
}
