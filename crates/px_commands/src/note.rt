//! The line that says why a run did not do its work.
ghost use Rattle.std.specs.Prelude.{◌≡◌, ◌≤◌, length};
ghost use Rattle.px_commands.specs.Notes.{IsTold, kind_word, limit_line, malformed_line, note_of};

use crate::refusal::{Kind, Refusal};
use crate::stop::Stop;
use crate::words::{cause_word, list_word, scene_word};
use arrayvec::ArrayString;
use itoa::Buffer;
use px_io::{Sink, write_whole};
use px_scene::Cause;

/// Writes a line and finishes, whatever comes of it.
pub fn tell<E: Sink>(line: &[u8], notes: &mut E)
    ensures { IsTold line.now (E.state notes.old) (E.state notes.new) }
{
    if let Ok(()) = write_whole(notes, line) {
        let _ = notes.finish();
    }
}

/// The line of a stop.
pub fn line_of(stop: &Stop) -> ArrayString<128>
    ensures { result.bytes ≡ note_of stop.now }
{
    match *stop {
        Stop::Usage => plain(
            "usage: pxplanes [render|colour|tidy|plan|cost|debug|sample N|shadow|tile W H|refine K|list|play]\n",
        ),
        Stop::Refused(Refusal::Malformed { line, cause }) => malformed_line(line, cause),
        Stop::Refused(Refusal::Limit { line, kind, found }) => limit_line(line, kind, found),
        Stop::ReadFault => plain("read fault\n"),
        Stop::WriteFault => plain("write fault\n"),
        Stop::Memory(_) => plain("out of memory\n"),
    }
}

fn plain(text: &str) -> ArrayString<128>
    requires { length text.now ≤ 128 }
    ensures { result.bytes ≡ text.now }
{
    let mut line = ArrayString::new();
    line.push_str(text);
    line
}

#[tactic(auto, unfolding(crate::specs::Notes::malformed_line))]
fn malformed_line(line: u32, cause: Cause) -> ArrayString<128>
    ensures { result.bytes ≡ malformed_line line cause }
{
    let mut digits = Buffer::new();
    let mut text = ArrayString::new();
    text.push_str("malformed line ");
    text.push_str(digits.format(line));
    text.push_str(": ");
    text.push_str(cause_word(cause));
    text.push_str("\n");
    text
}

#[tactic(auto, unfolding(crate::specs::Notes::limit_line))]
fn limit_line(line: u32, kind: Kind, found: i64) -> ArrayString<128>
    ensures { result.bytes ≡ limit_line line kind found }
{
    let mut digits = Buffer::new();
    let mut text = ArrayString::new();
    text.push_str("limit line ");
    text.push_str(digits.format(line));
    text.push_str(": ");
    text.push_str(kind_word(kind));
    text.push_str(" ");
    text.push_str(digits.format(found));
    text.push_str("\n");
    text
}

fn kind_word(kind: Kind) -> &'static str
    ensures word { result.now ≡ kind_word kind }
    ensures short { length result.now ≤ 12 }
{
    match kind {
        Kind::Scene(kind) => scene_word(kind),
        Kind::Lights => "lights",
        Kind::Tiles => "tiles",
        Kind::List(kind) => list_word(kind),
    }
}
