//! How lines and words are cut out of bytes (docs/SCENES.md, "Lines and words").
ghost use Rattle.std.specs.Prelude.{◌≡◌, ◌==◌};
ghost use Rattle.std.specs.List.{before_first};
ghost use Rattle.px_text.specs.Text.{ends_with_feed, is_blank, is_some_byte, without_last_feed};

/// The text without a line feed at its end: the pieces between the line feeds of a text that is not
/// empty are then its lines (docs/SCENES.md, "Lines and words").
pub fn without_last_feed(text: &[u8]) -> &[u8]
    ensures { result.now ≡ without_last_feed text.now }
{
    if !text.is_empty() && ends_with_feed(text) {
        &text[..text.len() - 1]
    } else {
        text
    }
}

fn ends_with_feed(text: &[u8]) -> bool
    ensures { result ≡ ends_with_feed text.now }
{
    match text.last() {
        Some(byte) => *byte == b'\n',
        None => false,
    }
}

/// The bytes of a line before the first `#`, or all of them.
pub fn before_comment(line: &[u8]) -> &[u8]
    ensures { result.now ≡ before_first (λ b. b == 35) line.now }
{
    for (i, b) in line.iter().enumerate() {
        if *b == b'#' {
            return &line[..i];
        }
    }
    line
}

/// Whether a byte stands between words: a space, a tab or a carriage return.
pub fn is_blank(b: u8) -> bool
    ensures { result ≡ is_blank b }
{
    b == b' ' || b == b'\t' || b == b'\r'
}

/// Whether a piece between blanks is a word: whether it has a byte.
pub fn is_word(piece: &[u8]) -> bool
    ensures { result ≡ is_some_byte piece.now }
{
    match piece {
        [] => false,
        [_, ..] => true,
    }
}
