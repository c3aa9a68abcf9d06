//! Reading, and answering what was read before more is asked for.
ghost use Rattle.std.specs.Prelude.{◌≡◌, ◌≢◌, ◌⊎◌, ◌<◌, ◌≤◌, ◌+◌, ◌-◌, ◌^◌, ◌++◌, ℕ, List, Option, [], IfOk, IfErr, OnOk, length, false};
ghost use Rattle.std.specs.Io.KnownBytes.{IsAtEnd};
ghost use Rattle.px_asked.specs.Asks.{Ask};
ghost use Rattle.px_debug.specs.Moves.{Fits, SessionView};
ghost use Rattle.px_debug.specs.Catching.{Begun, Caught, IsOverBy};
ghost use Rattle.px_debug.specs.Prompts.{moment};
ghost use Rattle.px_debug.specs.Servings.{Answered, HasOutCause, HasServed, Lines, Serves, lines_in, seen};
ghost use Rattle.px_debug.specs.Sessions.{Stand, sitting, stand};
ghost use Rattle.px_debug.specs.Turns.{EndsIn, Fed, ending_at};

use crate::feed::{Line, feed, finish_line};
use crate::session::{Going, Session};
use arrayvec::ArrayVec;
use px_asked::Asks;
use px_asm::Operating;
use px_io::Sink;

/// Why no more lines are answered.
#[derive(Clone, Copy)]
pub enum Ending {
    /// A line was `quit`.
    Quit,
    /// The input is at its end, and its last line was answered.
    End,
    /// As many bytes were read as may be, and the lines before the last of them were answered.
    Long,
    /// A read failed; each line before it was answered.
    ReadFault,
    /// A write failed in an answer.
    WriteFault,
}

/// Has each line answered as soon as it is whole, before more is read, up to a `quit` or the end of
/// the input, and then finishes the output (docs/DEBUGGER.md, "Sessions").
///
/// The bytes of `read` were read before. At most `more` bytes are read, in reads of at most 4096, and
/// no line ends with the last of them. A last piece without a line feed is a line; a line is handed on
/// by its first 256 bytes. After a `quit` nothing is read. Takes no memory.
pub fn serve<S: Asks<O>, O: Sink, A: Operating>(
    session: &mut Session<'_>,
    array: &mut A,
    read: &[u8],
    input: &mut S,
    more: usize,
    out: &mut O,
) -> Ending
    requires fits { Fits A.BITS session.old (A.view array.old) }
    requires counted { session.old.lines + length read.now + more < 2 ^ 64 - 1 }
    ensures fits { Fits A.BITS session.new (A.view array.new) }
    ensures serves { Serves result A.BITS read.now more
        (moment session.old (A.view array.old).work (O.state out.old)
        (S.asks input.old) (S.rest input.old) (S.faults input.old))
        (moment session.new (A.view array.new).work (O.state out.new)
        (S.asks input.new) (S.rest input.new) (S.faults input.new)) }
{
    let mut held = ArrayVec::new();
    match feed(session, &mut held, array, read, out) {
        Ok(Going::More) => read_on(session, &mut held, array, input, more, out),
        Ok(Going::Quit) => finish(out, true),
        Err(_) => Ending::WriteFault,
    }
}

/// Finishes the output of a session that is given no line, since the input is at its end.
pub fn finish_unasked<O: Sink>(out: &mut O) -> Ending
    ensures serves { (bits more : ℕ) (session : SessionView) (work : ℕ) (asks : Option (List Ask))
        (rest : Option (List ℕ)) (faults : ℕ) → IsAtEnd rest → 0 < more →
        (serves : Serves result bits [] more (moment session work (O.state out.old) asks rest faults)
        (moment session work (O.state out.new) asks rest faults))
        × (serves.bytes ≡ []) × (serves.prompts.asks ≡ []) }
    ensures told { result ≢ Ending.ReadFault }
{
    finish(out, false)
}

/// Finishes the output at the end of a session, which a `quit` ended or the end of the input.
#[tactic(auto, using(crate::proofs::TurningLemmas::finished_err, crate::proofs::TurningLemmas::finished_ok))]
fn finish<O: Sink>(out: &mut O, quit: bool) -> Ending
    ensures served { (bits : ℕ) (from : Stand) (session : SessionView) (work : ℕ) (lines : Lines) →
        Answered false from (stand session work (O.state out.old)) (sitting bits from.session lines.all) →
        (sitting bits from.session lines.whole).quit ≡ quit →
        HasServed result bits from (stand session work (O.state out.new)) lines }
    ensures cause { HasOutCause result (O.state out.old).faults (O.state out.new).faults }
    ensures result { (result ≡ ending_at quit) ⊎ (result ≡ Ending.WriteFault) }
{
    match out.finish() {
        Ok(()) => { if quit { Ending::Quit } else { Ending::End } }
        Err(_) => Ending::WriteFault,
    }
}

/// Reads on, where some of a line is held.
fn read_on<S: Asks<O>, O: Sink, A: Operating>(
    session: &mut Session<'_>,
    held: &mut Line,
    array: &mut A,
    input: &mut S,
    limit: usize,
    out: &mut O,
) -> Ending
    requires fits { Fits A.BITS session.old (A.view array.old) }
    requires counted { session.old.lines + limit < 2 ^ 64 - 1 }
    ensures fits { Fits A.BITS session.new (A.view array.new) }
    ensures serves { (b : Begun) → Caught A.BITS b limit
        (moment session.old (A.view array.old).work (O.state out.old)
        (S.asks input.old) (S.rest input.old) (S.faults input.old)) held.old.items →
        IsOverBy result A.BITS b (moment session.new (A.view array.new).work (O.state out.new)
        (S.asks input.new) (S.rest input.new) (S.faults input.new)) }
{
    let mut piece = [0; 4096];
    let mut more = limit;
    while more > 0 {
        match read_and_answer(session, held, array, input, &mut piece, more, out) {
            Ok(count) => more -= count,
            Err(ending) => return ending,
        }
    }
    Ending::Long
}

/// One read, and the answers to the lines that it ends.
#[tactic(auto, using(crate::proofs::TurningLemmas::read_is))]
fn read_and_answer<S: Asks<O>, O: Sink, A: Operating>(
    session: &mut Session<'_>,
    held: &mut Line,
    array: &mut A,
    input: &mut S,
    piece: &mut [u8],
    limit: usize,
    out: &mut O,
) -> Result<usize, Ending>
    requires fits { Fits A.BITS session.old (A.view array.old) }
    requires some { 0 < limit }
    requires room { 0 < length piece.old }
    requires counted { session.old.lines + limit < 2 ^ 64 - 1 }
    ensures fits { Fits A.BITS session.new (A.view array.new) }
    ensures count { IfOk result (λ count. (0 < count) × (count < limit)
        × (session.new.lines + (limit - count) < 2 ^ 64 - 1)) }
    ensures caught { (b : Begun) → Caught A.BITS b limit
        (moment session.old (A.view array.old).work (O.state out.old)
        (S.asks input.old) (S.rest input.old) (S.faults input.old)) held.old.items →
        IfOk result (λ count. Caught A.BITS b (limit - count)
        (moment session.new (A.view array.new).work (O.state out.new)
        (S.asks input.new) (S.rest input.new) (S.faults input.new)) held.new.items) }
    ensures serves { (b : Begun) → Caught A.BITS b limit
        (moment session.old (A.view array.old).work (O.state out.old)
        (S.asks input.old) (S.rest input.old) (S.faults input.old)) held.old.items →
        IfErr result (λ ending. IsOverBy ending A.BITS b
        (moment session.new (A.view array.new).work (O.state out.new)
        (S.asks input.new) (S.rest input.new) (S.faults input.new))) }
{
    let room = piece.len().min(limit);
    let Ok(count) = input.ask(out, &mut piece[..room]) else {
        return Err(Ending::ReadFault);
    };
    answer_piece(session, held, array, &piece[..count], limit, out)?;
    Ok(count)
}

/// Has the lines answered that a read ends; no byte is the end of the input, and none counts past `limit - 1`.
#[tactic(auto, using(crate::proofs::FeedingLemmas::broke_more, crate::proofs::FeedingLemmas::fed_all, crate::proofs::TurningLemmas::counted, crate::proofs::TurningLemmas::nothing_counts))]
fn answer_piece<O: Sink, A: Operating>(
    session: &mut Session<'_>,
    held: &mut Line,
    array: &mut A,
    bytes: &[u8],
    limit: usize,
    out: &mut O,
) -> Result<(), Ending>
    requires fits { Fits A.BITS session.old (A.view array.old) }
    requires some { 0 < limit }
    requires bound { length bytes.now ≤ limit }
    requires counted { session.old.lines + limit < 2 ^ 64 - 1 }
    ensures fits { Fits A.BITS session.new (A.view array.new) }
    ensures some { OnOk result ((0 < length bytes.now) × (length bytes.now < limit)) }
    ensures count { OnOk result (session.new.lines ≤ session.old.lines + length bytes.now) }
    ensures fed { (from : Stand) (text : List ℕ) → Fed Going.More A.BITS text from
        (stand session.old (A.view array.old).work (O.state out.old)) held.old.items →
        OnOk result (Fed Going.More A.BITS (text ++ bytes.now) from
        (stand session.new (A.view array.new).work (O.state out.new)) held.new.items) }
    ensures calm { OnOk result ((O.state out.new).faults ≡ (O.state out.old).faults) }
    ensures ended { IfErr result (λ ending. EndsIn ending limit bytes.now) }
    ensures served { (from : Stand) (text : List ℕ) → Fed Going.More A.BITS text from
        (stand session.old (A.view array.old).work (O.state out.old)) held.old.items →
        IfErr result (λ ending. HasServed ending A.BITS from
        (stand session.new (A.view array.new).work (O.state out.new)) (lines_in (text ++ seen limit bytes.now))) }
    ensures cause { IfErr result (λ ending.
        HasOutCause ending (O.state out.old).faults (O.state out.new).faults) }
{
    if bytes.is_empty() {
        return match finish_line(session, held, array, out) {
            Ok(()) => Err(finish(out, false)),
            Err(_) => Err(Ending::WriteFault),
        };
    }
    match feed(
        session,
        held,
        array,
        &bytes[..bytes.len().min(limit - 1)],
        out,
    ) {
        Ok(Going::More) => {
            if bytes.len() < limit {
                Ok(())
            } else {
                Err(Ending::Long)
            }
        }
        Ok(Going::Quit) => Err(finish(out, true)),
        Err(_) => Err(Ending::WriteFault),
    }
}
