//! What a text broadcasts.
ghost use Rattle.std.specs.Prelude.{◌≡◌, codes};
ghost use Rattle.std.specs.Str.{bytes_eq};
ghost use Rattle.px_text.specs.Text.{words_of};
ghost use Rattle.px_state.specs.Refusals.{is_listing, starts_listing};

use px_text::{before_comment, is_blank, is_word};

/// Whether the first word of a text is `pxlist`.
#[tactic(auto, unfolding(crate::specs::Refusals::is_listing))]
pub fn is_listing(text: &[u8]) -> bool
    ensures { result ≡ is_listing text.now }
{
    let mut starts = text
        .split(|b| *b == b'\n')
        .filter_map(|line| starts_listing(line));
    match starts.next() {
        Some(is_listing) => is_listing,
        None => false,
    }
}

/// Whether the first word of a line is `pxlist`, where it has one.
fn starts_listing(line: &[u8]) -> Option<bool>
    ensures { result ≡ starts_listing (words_of line.now) }
{
    let mut words = before_comment(line)
        .split(|b| is_blank(*b))
        .filter(|w| is_word(*w));
    match words.next() {
        Some(word) => Some(is_list_word(word)),
        None => None,
    }
}

fn is_list_word(word: &[u8]) -> bool
    ensures { result ≡ bytes_eq word.now (codes "pxlist") }
{
    word == b"pxlist".as_slice()
}
