//! The answers, in fixed room (docs/DEBUGGER.md, "Answers").
ghost use Rattle.std.specs.Prelude.{◌≡◌, ◌<◌, ◌≤◌, length};
ghost use Rattle.px_debug.specs.Lines.{flag, line_with_number, unknown_line};

use arrayvec::ArrayString;
use itoa::Buffer;

/// Room for the longest answer: the trace has 32 lines of at most 64 bytes.
pub type Text = ArrayString<2048>;

/// A text of at most 20 bytes, a number in decimal behind it, and a line feed, as `at 50` (docs/DEBUGGER.md,
/// "Lines").
pub fn number_line(text: &str, n: u64) -> Text
    requires { length text.now ≤ 20 }
    ensures { result.bytes ≡ line_with_number text.now n }
{
    let mut digits = Buffer::new();
    let mut line = ArrayString::new();
    line.push_str(text);
    line.push_str(digits.format(n));
    line.push_str("\n");
    line
}

/// `? line N`, the answer to a line that is none of the commands, or asks for what is not there
/// (docs/DEBUGGER.md, "Lines"). `number` counts command lines from 1.
pub fn unknown_line(number: u64) -> Text
    ensures { result.bytes ≡ unknown_line number }
{
    let mut digits = Buffer::new();
    let mut line = ArrayString::new();
    line.push_str("? line ");
    line.push_str(digits.format(number));
    line.push_str("\n");
    line
}

/// A bit as a digit.
pub(crate) fn digit(bit: bool) -> &'static str
    ensures { result.now ≡ flag bit }
{
    if bit { "1" } else { "0" }
}
