//! The text of `sample`: four numbers of a scene and its picture.
ghost use Rattle.std.specs.Prelude.{◌≡◌};
ghost use Rattle.px_commands.specs.SampleText.{four_lines};

use arrayvec::ArrayString;
use itoa::Buffer;

/// A line for each of the four numbers: how many pixels show a face, the sum of their depths, how
/// many products can show anything, and how many clocks the passes take (docs/SCENES.md, "Commands").
#[tactic(auto, unfolding(crate::specs::SampleText::four_lines))]
pub fn four_lines(shown: u64, depths: u64, products: u64, clocks: u64) -> ArrayString<128>
    ensures { result.bytes ≡ four_lines shown depths products clocks }
{
    let mut digits = Buffer::new();
    let mut text = ArrayString::new();
    text.push_str("shown ");
    text.push_str(digits.format(shown));
    text.push_str("\ndepths ");
    text.push_str(digits.format(depths));
    text.push_str("\nproducts ");
    text.push_str(digits.format(products));
    text.push_str("\nclocks ");
    text.push_str(digits.format(clocks));
    text.push_str("\n");
    text
}
