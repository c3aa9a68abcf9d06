//! Numbers and names among words (docs/SCENES.md, "Lines and words").
ghost use Rattle.std.specs.Prelude.{◌≡◌, ◌^◌, ◌-◌, true, min, map};
ghost use Rattle.std.specs.List.{list_all};
ghost use Rattle.std.specs.Int.Digits.{number_from_digits};
ghost use Rattle.px_text.specs.Text.{size_of_digits, number_of, is_digit, is_letter, is_name_byte, is_name};

use crate::cut::is_word;

/// A larger size stands for this one, which every limit refuses.
const LARGEST: u64 = 1_000_000_000_000_000_000;

/// The number that a word writes, where it is an optional `-` and one or more digits.
///
/// A number past `10^18` in size is taken as `10^18` of its sign (docs/SCENES.md, "Lines and words").
pub fn number_of(word: &[u8]) -> Option<i64>
    ensures { result ≡ number_of word.now }
{
    match word {
        [] => None,
        [b'-', digits @ ..] => match size_of(digits) {
            Some(size) => Some(-(size as i64)),
            None => None,
        },
        [_, ..] => match size_of(word) {
            Some(size) => Some(size as i64),
            None => None,
        },
    }
}

/// The size that a word writes, where it is one or more digits.
///
/// A size past `10^18` is taken as `10^18`.
pub fn size_of(digits: &[u8]) -> Option<u64>
    ensures { result ≡ size_of_digits digits.now }
{
    if is_word(digits) && are_digits(digits) {
        Some(magnitude(digits))
    } else {
        None
    }
}

fn are_digits(bytes: &[u8]) -> bool
    ensures { result ≡ list_all is_digit bytes.now }
{
    bytes.iter().all(|b| is_digit(*b))
}

/// The value of decimal digits, at most `LARGEST`.
fn magnitude(digits: &[u8]) -> u64
    requires { list_all is_digit digits.now ≡ true }
    ensures { result ≡ min (number_from_digits 10 (map (λ b. b - 48) digits.now)) (10 ^ 18) }
{
    let mut size = 0u64;
    for b in digits {
        size = (10 * size + u64::from(b.saturating_sub(b'0'))).min(LARGEST);
    }
    size
}

/// Whether a word is a name: 1 to 32 letters, digits and `_`, the first no digit
/// (docs/SCENES.md, "Lines and words").
pub fn is_name(word: &[u8]) -> bool
    ensures { result ≡ is_name word.now }
{
    match word {
        [] => false,
        [first, ..] => is_letter(*first) && are_name_bytes(word) && word.len() <= 32,
    }
}

fn are_name_bytes(bytes: &[u8]) -> bool
    ensures { result ≡ list_all is_name_byte bytes.now }
{
    bytes.iter().all(|b| is_name_byte(*b))
}

fn is_digit(b: u8) -> bool
    ensures { result ≡ is_digit b }
{
    b'0' <= b && b <= b'9'
}

fn is_letter(b: u8) -> bool
    ensures { result ≡ is_letter b }
{
    (b'a' <= b && b <= b'z') || (b'A' <= b && b <= b'Z') || b == b'_'
}

/// Whether a byte may be in a name: a letter, a digit or `_`.
pub fn is_name_byte(b: u8) -> bool
    ensures { result ≡ is_name_byte b }
{
    is_letter(b) || is_digit(b)
}
