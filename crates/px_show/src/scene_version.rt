//! The version of a scene text, which its header names (docs/SCENES.md, "Versions").
ghost use Rattle.std.specs.Prelude.{◌≡◌};
ghost use Rattle.px_text.specs.LentWords.{now_of};
ghost use Rattle.px_show.specs.Versions.{has_differ, version_named, version_of, version_word};

/// What a scene text may say. Each version has all that the one before has.
#[derive(Clone, Copy)]
pub enum Version {
    /// Whole depths, and the signs `+`, `*` and `-`.
    One,
    /// The sign `^` too.
    Two,
    /// Fraction bits too, on the `depth` line.
    Three,
}

impl Version {
    /// The version that the words after `pxscene` name.
    pub fn of(words: &[&[u8]]) -> Option<Version>
        ensures { result ≡ version_of (now_of words.now) }
    {
        match words {
            [word] => version_named(word),
            _ => None,
        }
    }

    /// The word that names it.
    pub fn word(self) -> &'static [u8]
        ensures { result.now ≡ version_word self }
    {
        match self {
            Version::One => b"1",
            Version::Two => b"2",
            Version::Three => b"3",
        }
    }

    /// Whether `^` is a sign.
    pub(crate) fn has_differ(self) -> bool
        ensures { result ≡ has_differ self }
    {
        match self {
            Version::One => false,
            Version::Two | Version::Three => true,
        }
    }
}

fn version_named(word: &[u8]) -> Option<Version>
    ensures { result ≡ version_named word.now }
{
    if word == b"1".as_slice() {
        Some(Version::One)
    } else if word == b"2".as_slice() {
        Some(Version::Two)
    } else if word == b"3".as_slice() {
        Some(Version::Three)
    } else {
        None
    }
}
