//! The text of `cost`: how many operations and clocks a scene takes.
ghost use Rattle.std.specs.Prelude.{◌≡◌};
ghost use Rattle.px_commands.specs.CostText.{cost_text};

use arrayvec::ArrayString;
use itoa::Buffer;

/// A line for the operations of the passes, and one for their clocks (docs/SCENES.md, "Commands").
#[tactic(auto, unfolding(crate::specs::CostText::cost_text))]
pub fn cost_text(operations: u64, clocks: u64) -> ArrayString<128>
    ensures { result.bytes ≡ cost_text operations clocks }
{
    let mut digits = Buffer::new();
    let mut text = ArrayString::new();
    text.push_str("macros ");
    text.push_str(digits.format(operations));
    text.push_str("\nclocks ");
    text.push_str(digits.format(clocks));
    text.push_str("\n");
    text
}
