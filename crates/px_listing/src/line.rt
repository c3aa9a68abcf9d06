//! A line of a listing: a word, and the numbers behind it.
ghost use Rattle.std.specs.Prelude.{◌≡◌, ◌≤◌, length};
ghost use Rattle.px_listing.specs.Lines.{number_line};

use arrayvec::ArrayString;
use itoa::Buffer;

/// Room for a word of 12 letters, five numbers of 20 digits, and what stands between them.
pub type Line = ArrayString<128>;

/// A word, the numbers behind it, and the end of the line (docs/LISTINGS.md, "Canonical text").
#[tactic(auto, unfolding(crate::specs::Lines::number_line))]
pub(crate) fn line_of(word: &str, numbers: &[i64]) -> Line
    requires word { length word.now ≤ 12 }
    requires numbers { length numbers.now ≤ 5 }
    ensures text { result.bytes ≡ number_line word.now numbers.now }
{
    let mut digits = Buffer::new();
    let mut line = ArrayString::new();
    line.push_str(word);
    for number in numbers {
        line.push_str(" ");
        line.push_str(digits.format(*number));
    }
    line.push_str("\n");
    line
}
