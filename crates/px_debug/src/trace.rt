//! The answer that shows the last broadcasts.
ghost use Rattle.std.specs.Prelude.{◌≡◌, ◌-◌, ◌≤◌, ◌++◌, ◌<◌, Some, codes, decimal, length, slice_get};
ghost use Rattle.px_debug.specs.Lines.{act_text, flag, trace_line, trace_lines, tree_text};

use crate::text::{Text, digit};
use arrayvec::ArrayString;
use circular_buffer::HeapCircularBuffer;
use itoa::Buffer;
use px_array::{Act, Micro, TreeOp};

/// The answer to `trace` (docs/DEBUGGER.md, "Answers"): a line for each of the last broadcasts, of
/// which there are at most 32, oldest first.
///
/// `now` broadcasts were made, these last. Their clocks are counted from 0.
#[tactic(auto, using(crate::proofs::TraceLineLemmas::line_more))]
pub fn trace_text(trace: &HeapCircularBuffer<Micro>, now: u64) -> Text
    requires few { length trace.now.items ≤ 32 }
    requires made { length trace.now.items ≤ now }
    ensures { result.bytes ≡ trace_lines (now - length trace.now.items) trace.now.items }
{
    let first = now - trace.len() as u64;
    let mut text = ArrayString::new();
    for i in 0..trace.len() {
        let m = broadcast(trace, i);
        text.push_str(trace_line(first + i as u64, &m).as_str());
    }
    text
}

/// One of the last broadcasts, oldest first.
fn broadcast(trace: &HeapCircularBuffer<Micro>, i: usize) -> Micro
    requires { i < length trace.now.items }
    ensures { slice_get trace.now.items i ≡ Some result }
{
    match trace.get(i) {
        Some(m) => *m,
        None => Micro {
            tree: TreeOp::Hold,
            act: Act::Nop,
        },
    }
}

/// A broadcast, with its clock.
fn trace_line(clock: u64, m: &Micro) -> ArrayString<64>
    ensures { result.bytes ≡ trace_line clock m.now }
{
    let mut digits = Buffer::new();
    let mut line = ArrayString::new();
    line.push_str(digits.format(clock));
    line.push_str(": ");
    line.push_str(tree_text(m.tree).as_str());
    line.push_str(" ");
    line.push_str(act_text(m.act).as_str());
    line.push_str("\n");
    line
}

fn tree_text(op: TreeOp) -> ArrayString<8>
    ensures { result.bytes ≡ tree_text op }
{
    let mut text = ArrayString::new();
    match op {
        TreeOp::Hold => text.push_str("hold"),
        TreeOp::Clear => text.push_str("clear"),
        TreeOp::Feed { a, b, c } => {
            text.push_str("feed ");
            text.push_str(digit(a));
            text.push_str(digit(b));
            text.push_str(digit(c));
        }
    }
    text
}

fn act_text(act: Act) -> ArrayString<24>
    ensures { result.bytes ≡ act_text act }
{
    match act {
        Act::Nop => word("nop"),
        Act::EnableAll => word("enable-all"),
        Act::EnableCarry(v) => of_bit("enable-carry ", v),
        Act::EnableTree(v) => of_bit("enable-tree ", v),
        Act::EnableBit(at, v) => of_both("enable-bit ", at, v),
        Act::SetCarry(v) => of_bit("set-carry ", v),
        Act::Fetch(at) => of_place("fetch ", at),
        Act::StoreTree(at) => of_place("store-tree ", at),
        Act::StoreLatch(at) => of_place("store-latch ", at),
        Act::StoreConst(at, v) => of_both("store-const ", at, v),
        Act::Toggle(at) => of_place("toggle ", at),
        Act::CarryTree(at) => of_place("carry-tree ", at),
        Act::CarryLatch(at) => of_place("carry-latch ", at),
        Act::AddTree(at) => of_place("add-tree ", at),
    }
}

fn word(text: &str) -> ArrayString<24>
    requires { length text.now ≤ 12 }
    ensures { result.bytes ≡ text.now }
{
    let mut word = ArrayString::new();
    word.push_str(text);
    word
}

fn of_bit(text: &str, v: bool) -> ArrayString<24>
    requires { length text.now ≤ 13 }
    ensures { result.bytes ≡ text.now ++ flag v }
{
    let mut word = ArrayString::new();
    word.push_str(text);
    word.push_str(digit(v));
    word
}

fn of_place(text: &str, at: u32) -> ArrayString<24>
    requires { length text.now ≤ 12 }
    ensures { result.bytes ≡ text.now ++ decimal at }
{
    let mut digits = Buffer::new();
    let mut word = ArrayString::new();
    word.push_str(text);
    word.push_str(digits.format(at));
    word
}

fn of_both(text: &str, at: u32, v: bool) -> ArrayString<24>
    requires { length text.now ≤ 12 }
    ensures { result.bytes ≡ text.now ++ decimal at ++ codes " " ++ flag v }
{
    let mut digits = Buffer::new();
    let mut word = ArrayString::new();
    word.push_str(text);
    word.push_str(digits.format(at));
    word.push_str(" ");
    word.push_str(digit(v));
    word
}
