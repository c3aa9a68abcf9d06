//! Bytes to lines, and lines to answers.
ghost use Rattle.std.specs.Prelude.{◌≡◌, ◌<◌, ◌≤◌, ◌+◌, ◌-◌, ◌^◌, ◌++◌, ℕ, List, IfOk, OnOk, OnErr, length, false, [], ◌∷◌};
ghost use Rattle.px_io.specs.Counts.{HasCause};
ghost use Rattle.px_debug.specs.Moves.{Fits};
ghost use Rattle.px_asked.specs.Lines.{all_lines, whole_lines};
ghost use Rattle.px_debug.specs.Buffers.{short};
ghost use Rattle.px_debug.specs.Servings.{Answered, Broken};
ghost use Rattle.px_debug.specs.Sessions.{Stand, sitting, stand};
ghost use Rattle.px_debug.specs.Turns.{Fed, Gave, Went};

use crate::session::{Going, Session};
use arrayvec::ArrayVec;
use px_asm::Operating;
use px_io::{Failed, Sink};

/// Room for the first bytes of a line: one more than a command may have.
pub(crate) type Line = ArrayVec<u8, 256>;

/// Keeps a byte of a line, as long as there is room.
#[tactic(auto, using(crate::proofs::FeedingLemmas::kept_full, crate::proofs::FeedingLemmas::kept_more))]
fn hold_byte(held: &mut Line, byte: u8)
    ensures { (line : List ℕ) → held.old.items ≡ short line →
        held.new.items ≡ short (line ++ byte ∷ []) }
{
    if held.len() < 256 {
        held.push(byte);
    }
}

/// Has a session answer a line, by its first bytes.
fn answer_line<A: Operating, O: Sink>(
    session: &mut Session<'_>,
    array: &mut A,
    first: &[u8],
    out: &mut O,
) -> Result<Going, Failed>
    requires fits { Fits A.BITS session.old (A.view array.old) }
    requires counted { session.old.lines < 2 ^ 64 - 1 }
    ensures fits { Fits A.BITS session.new (A.view array.new) }
    ensures given { (from : Stand) (lines : List (List ℕ)) (line : List ℕ) → first.now ≡ short line →
        Went Going.More A.BITS from (stand session.old (A.view array.old).work (O.state out.old)) lines →
        Gave result A.BITS from (stand session.new (A.view array.new).work (O.state out.new)) (lines ++ line ∷ []) }
    ensures count { session.new.lines ≡ session.old.lines + 1 }
    ensures cause { HasCause (O.state out.old).faults (O.state out.new).faults result }
{
    session.line(array, first, out)
}

/// A byte: the end of a line has the line answered, and any other is held.
#[tactic(auto, using(crate::proofs::FeedingLemmas::broke_line))]
fn take_byte<A: Operating, O: Sink>(
    session: &mut Session<'_>,
    held: &mut Line,
    array: &mut A,
    byte: u8,
    out: &mut O,
) -> Result<Going, Failed>
    requires fits { Fits A.BITS session.old (A.view array.old) }
    requires counted { session.old.lines < 2 ^ 64 - 1 }
    ensures fits { Fits A.BITS session.new (A.view array.new) }
    ensures ok { (from : Stand) (text : List ℕ) → Fed Going.More A.BITS text from
        (stand session.old (A.view array.old).work (O.state out.old)) held.old.items →
        IfOk result (λ on. Fed on A.BITS (text ++ byte ∷ []) from
        (stand session.new (A.view array.new).work (O.state out.new)) held.new.items) }
    ensures err { (from : Stand) (text : List ℕ) → Fed Going.More A.BITS text from
        (stand session.old (A.view array.old).work (O.state out.old)) held.old.items →
        OnErr result (Broken A.BITS from
        (stand session.new (A.view array.new).work (O.state out.new)) (whole_lines (text ++ byte ∷ []))) }
    ensures count { session.new.lines ≤ session.old.lines + 1 }
    ensures cause { HasCause (O.state out.old).faults (O.state out.new).faults result }
{
    if byte == b'\n' {
        let going = answer_line(session, array, held.as_slice(), out)?;
        held.clear();
        Ok(going)
    } else {
        hold_byte(held, byte);
        Ok(Going::More)
    }
}

/// Has each line answered that the bytes end, up to a `quit`.
#[tactic(auto, using(crate::proofs::FeedingLemmas::one_byte_more))]
pub(crate) fn feed<A: Operating, O: Sink>(
    session: &mut Session<'_>,
    held: &mut Line,
    array: &mut A,
    bytes: &[u8],
    out: &mut O,
) -> Result<Going, Failed>
    requires fits { Fits A.BITS session.old (A.view array.old) }
    requires counted { session.old.lines + length bytes.now < 2 ^ 64 - 1 }
    ensures fits { Fits A.BITS session.new (A.view array.new) }
    ensures ok { (from : Stand) (text : List ℕ) → Fed Going.More A.BITS text from
        (stand session.old (A.view array.old).work (O.state out.old)) held.old.items →
        IfOk result (λ on. Fed on A.BITS (text ++ bytes.now) from
        (stand session.new (A.view array.new).work (O.state out.new)) held.new.items) }
    ensures err { (from : Stand) (text : List ℕ) → Fed Going.More A.BITS text from
        (stand session.old (A.view array.old).work (O.state out.old)) held.old.items →
        OnErr result (Broken A.BITS from
        (stand session.new (A.view array.new).work (O.state out.new)) (whole_lines (text ++ bytes.now))) }
    ensures count { session.new.lines ≤ session.old.lines + length bytes.now }
    ensures cause { HasCause (O.state out.old).faults (O.state out.new).faults result }
{
    for byte in bytes {
        match take_byte(session, held, array, *byte, out)? {
            Going::Quit => return Ok(Going::Quit),
            Going::More => {}
        }
    }
    Ok(Going::More)
}

/// Has the last piece answered, which is a line where it is not empty.
pub(crate) fn finish_line<A: Operating, O: Sink>(
    session: &mut Session<'_>,
    held: &Line,
    array: &mut A,
    out: &mut O,
) -> Result<(), Failed>
    requires fits { Fits A.BITS session.old (A.view array.old) }
    requires counted { session.old.lines < 2 ^ 64 - 1 }
    ensures fits { Fits A.BITS session.new (A.view array.new) }
    ensures ok { (from : Stand) (text : List ℕ) → Fed Going.More A.BITS text from
        (stand session.old (A.view array.old).work (O.state out.old)) held.now.items →
        OnOk result (Answered false from (stand session.new (A.view array.new).work (O.state out.new))
        (sitting A.BITS from.session (all_lines text))) }
    ensures err { (from : Stand) (text : List ℕ) → Fed Going.More A.BITS text from
        (stand session.old (A.view array.old).work (O.state out.old)) held.now.items →
        OnErr result (Broken A.BITS from
        (stand session.new (A.view array.new).work (O.state out.new)) (all_lines text)) }
    ensures cause { HasCause (O.state out.old).faults (O.state out.new).faults result }
{
    match held.as_slice() {
        [] => Ok(()),
        [_, ..] => {
            answer_line(session, array, held.as_slice(), out)?;
            Ok(())
        }
    }
}
