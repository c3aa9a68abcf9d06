//! The first word of a line, and what is expected.
ghost use Rattle.std.specs.Prelude.{◌≡◌};
ghost use Rattle.px_text.specs.LentWords.{now_of};
ghost use Rattle.px_listing.specs.Keywords.{is_one, listing_keyword_of};

use crate::kind::Kind;

/// What the first word of a line begins.
#[derive(Clone, Copy)]
pub(crate) enum Keyword {
    Pxlist,
    Grid,
    Operation(Kind),
    End,
    Other,
}

/// What is expected on a line, by the line before it.
#[derive(Clone, Copy)]
pub(crate) enum Due {
    Header,
    Grid,
    Operation,
    Nothing,
}

pub(crate) fn keyword_of(word: &[u8]) -> Keyword
    ensures { result ≡ listing_keyword_of word.now }
{
    if word == b"pxlist".as_slice() {
        Keyword::Pxlist
    } else if word == b"grid".as_slice() {
        Keyword::Grid
    } else if word == b"end".as_slice() {
        Keyword::End
    } else {
        Kind::named(word).map_or(Keyword::Other, Keyword::Operation)
    }
}

/// Whether the words after the header's are the version of a listing.
pub(crate) fn is_one(arguments: &[&[u8]]) -> bool
    ensures { result ≡ is_one (now_of arguments.now) }
{
    match arguments {
        [version] => *version == b"1".as_slice(),
        _ => false,
    }
}
