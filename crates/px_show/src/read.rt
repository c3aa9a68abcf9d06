//! Reading a text line by line, until one is bad (docs/SCENES.md, "Lines and words" and "Refusals").
ghost use Rattle.std.specs.Prelude.{◌≡◌, ◌⊎◌, ◌+◌, ◌<◌, ◌≤◌, ◌^◌, ◌++◌, ◌∷◌, [], Bool, IfErr, IfOk, IfSome, IsErrOf, List, None, OnOk, Option, Some, is_some, length, map, ℕ};
ghost use Rattle.px_num.specs.Want.{want};
ghost use Rattle.px_show.specs.Judged.{fault_at, first_bad, refused};
ghost use Rattle.px_show.specs.declared.fault.LineFault.{LineFault};
ghost use Rattle.px_text.specs.LentWords.{now_of};
ghost use Rattle.px_text.specs.Text.{Words, lines_of, words_of, worded};
ghost use Rattle.px_text.specs.declared.text.TheConstants.{MAX_TEXT_BYTES};

use crate::fault::{Cause, LineError, LineFault, TextFault};
use px_text::{Line, lines_of};
use std::alloc::Global;

/// What the lines of a text have said so far.
pub trait Drafting: Drop {
    /// What has a limit in such a text.
    type Kind;
    /// What the whole text says.
    type Whole;

    // why a line is bad behind others
    ghost judge: { Self → List Words → Words → Option (LineFault Self.Kind) };

    // lines, none of them bad, have said this draft
    ghost says: { Self → List Words → Type 0 };

    // whether the last line is the end
    ghost is_whole: { List Words → Bool };

    // what such lines say
    ghost means: { List Words → Self.Whole };

    /// Takes a line in; one without words says nothing.
    fn add_line(&mut self, alloc: Global, line: &Line<'_>) -> Result<(), LineError<Self::Kind>>
        requires { (before : List Words) × says self.old before }
        ensures bad { (before : List Words) → says self.old before → (f : LineFault Self.Kind) →
            IsErrOf result (LineError.Bad f) →
            judge self.old before (now_of line.now.words.items) ≡ Some f }
        ensures good { (before : List Words) → says self.old before →
            OnOk result (judge self.old before (now_of line.now.words.items) ≡ None) }
        ensures says { (before : List Words) → says self.old before →
            OnOk result (says self.new (before ++ now_of line.now.words.items ∷ [])) }
        ensures judges { judge self.new ≡ judge self.old };

    /// What the text says, where its last line is the end.
    fn finish(self) -> Option<Self::Whole>
        requires { (lines : List Words) × says self lines × (length lines ≤ MAX_TEXT_BYTES + 1) }
        ensures ended { (lines : List Words) → says self lines → is_some result ≡ is_whole lines }
        ensures whole { (lines : List Words) → says self lines →
            IfSome result (λ w. w ≡ means lines) };
}

/// Reads a text from the draft that stands before its first line: what it says, or its first bad line,
/// otherwise the missing end, at the last line.
#[tactic(auto, using(px_text::proofs::LineLaws::worded_is))]
pub fn read_text<D: Drafting>(
    alloc: Global,
    text: &[u8],
    draft: D,
) -> Result<D::Whole, TextFault<D::Kind>>
    requires short { length text.now ≤ MAX_TEXT_BYTES }
    requires start { D.says draft [] }
    ensures ok { IfOk result (λ whole.
        (refused (first_bad (D.judge draft) [] (worded text.now)) (D.is_whole (worded text.now))
        (length (lines_of text.now)) ≡ None) × (whole ≡ D.means (worded text.now))) }
    ensures err { IfErr result (λ f. (f ≡ TextFault.Memory want)
        ⊎ (refused (first_bad (D.judge draft) [] (worded text.now)) (D.is_whole (worded text.now))
        (length (lines_of text.now)) ≡ Some f)) }
{
    let lines = lines_of(alloc, text)?;
    let draft = match draft_of(alloc, lines.as_slice(), draft) {
        Ok(draft) => draft,
        Err(fault) => return Err(fault),
    };
    match draft.finish() {
        Some(whole) => Ok(whole),
        None => Err(TextFault::Malformed {
            line: lines.len() as u32,
            cause: Cause::MissingEnd,
        }),
    }
}

/// The draft with all lines taken in, or the first bad one.
fn draft_of<D: Drafting>(
    alloc: Global,
    lines: &[&[u8]],
    mut draft: D,
) -> Result<D, TextFault<D::Kind>>
    requires few { length lines.now < 2 ^ 32 }
    requires start { D.says draft [] }
    ensures good { OnOk result (first_bad (D.judge draft) [] (map (λ l. words_of l.now) lines.now)
        ≡ None) }
    ensures says { IfOk result (λ d. D.says d (map (λ l. words_of l.now) lines.now)) }
    ensures err { IfErr result (λ f. (f ≡ TextFault.Memory want) ⊎ ((ended : Bool) (count : ℕ) →
        refused (first_bad (D.judge draft) [] (map (λ l. words_of l.now) lines.now)) ended count
        ≡ Some f)) }
{
    for (i, bytes) in lines.iter().enumerate() {
        let line = Line::cut(alloc, i as u32 + 1, bytes)?;
        match draft.add_line(alloc, &line) {
            Ok(()) => {}
            Err(LineError::Bad(fault)) => return Err(fault_at(line.number, fault)),
            Err(LineError::Memory(lack)) => return Err(TextFault::Memory(lack)),
        }
    }
    Ok(draft)
}

/// A line's fault, as the text's.
fn fault_at<K>(line: u32, fault: LineFault<K>) -> TextFault<K>
    ensures { result ≡ fault_at line fault }
{
    match fault {
        LineFault::Malformed(cause) => TextFault::Malformed { line, cause },
        LineFault::Limit { kind, found } => TextFault::Limit { line, kind, found },
    }
}
