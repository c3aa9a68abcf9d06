//! The command `debug`: a session over the scene part of the input, whose command lines are the rest.
ghost use Rattle.std.specs.Prelude.{◌≡◌, ◌≢◌, ◌<◌, ◌≤◌, ◌+◌, ◌^◌, [], ℕ, IfErr, IfOk, IsErrOf, OnErr, OnOk, Err, None, length, true, false};
ghost use Rattle.std.specs.Io.KnownBytes.{IsAtEnd};
ghost use Rattle.px_io.specs.Reports.{ConsumesAtMost};
ghost use Rattle.px_debug.specs.Moves.{Fits};
ghost use Rattle.px_io.specs.declared.reading.ReadError.{ReadError};
ghost use Rattle.px_asked.specs.Listenings.{ListenedTo, Listens};
ghost use Rattle.px_asked.specs.Readings.{TookNoPart};
ghost use Rattle.px_debug.specs.Prompts.{Moment, moment};
ghost use Rattle.px_debug.specs.Servings.{HasOutCause, HasReadCause};
ghost use Rattle.px_debug.specs.Sessions.{session_opened};
ghost use Rattle.px_commands.specs.declared.stop.Stop.{Stop};
ghost use Rattle.px_draw.specs.Askings.{AnswersInTime};
ghost use Rattle.px_draw.specs.Debugs.{PerformsSession};
ghost use Rattle.px_commands.specs.Outcomes.{Outcome, drawable};
ghost use Rattle.px_commands.specs.Ends.{ends};
ghost use Rattle.px_commands.specs.Results.{HasCauses, status_of};
ghost use Rattle.px_draw.specs.Sittings.{IsOpening, IsSceneOf, IsShort, LeavesClosed, Opens, Refuses, Sits, result_of};
ghost use Rattle.px_commands.specs.Stops.{IsReadCause, StopsAt, stopped};

use px_array::Array;
use px_asked::{Asks, Opening, laws_of_parts, read_part};
use px_asm::Operating;
use px_commands::{READ_LIMIT, SceneStop, Stop, open_job, scene_in, too_long};
use px_debug::{Ending, Session, finish_unasked, laws_of_sessions, serve};
use px_io::{ReadError, Sink};
use px_scene::Scene;
use std::alloc::Global;

/// Reads the scene part and judges it as soon as it is whole, and then answers each command line
/// before more is read.
#[tactic(auto, using(crate::proofs::AskingLemmas::answers_listened, crate::proofs::AskingLemmas::answers_unread))]
pub fn debug_input<S: Asks<O>, O: Sink, A: Operating>(
    alloc: Global,
    input: &mut S,
    out: &mut O,
    array: &mut A,
) -> Result<(), Stop>
    requires bits { A.BITS ≤ 256 }
    ensures performs { PerformsSession result A.BITS
        (ends (S.rest input.old) (S.faults input.old) (O.state out.old) (A.view array.old))
        (ends (S.rest input.new) (S.faults input.new) (O.state out.new) (A.view array.new)) }
    ensures causes { HasCauses result (S.faults input.old) (S.faults input.new) (O.state out.old).faults
        (O.state out.new).faults }
    ensures took { ConsumesAtMost (S.rest input.old) (S.rest input.new) READ_LIMIT }
    ensures worded { result ≢ Err Stop.Usage }
    ensures in_time { AnswersInTime A.BITS (S.asks input.old) (S.asks input.new)
        (S.rest input.old) (S.rest input.new) (O.state out.old).written }
{
    laws_of_sessions();
    let opening = open_input(alloc, input, out)?;
    let (scene, read) = scene_of(alloc, &opening)?;
    let mut session = open_session(alloc, &scene, array)?;
    result_of(answer_rest(&mut session, array, &opening, read, input, out))
}

/// Reads the input until its scene part is whole, or to its end or its limit.
#[tactic(auto, using(crate::proofs::PartLemmas::is_opening))]
fn open_input<S: Asks<O>, O: Sink>(
    alloc: Global,
    input: &mut S,
    out: &O,
) -> Result<Opening, ReadError>
    ensures opens { IfOk result (λ o. Opens o (S.rest input.old) (S.rest input.new)) }
    ensures failed { IsErrOf result ReadError.Failed →
        TookNoPart (S.rest input.old) (S.rest input.new) READ_LIMIT }
    ensures most { ConsumesAtMost (S.rest input.old) (S.rest input.new) READ_LIMIT }
    ensures listens { IfOk result (λ o. Listens READ_LIMIT (S.asks input.old) (S.asks input.new)
        (O.state out.now).written o.text.items) }
    ensures listened { OnErr result (ListenedTo READ_LIMIT (S.asks input.old) (S.asks input.new)
        (O.state out.now).written (S.rest input.old) (S.rest input.new)) }
    ensures calm { OnOk result (S.faults input.new ≡ S.faults input.old) }
    ensures cause { IfErr result (λ fault.
        IsReadCause fault (S.faults input.old) (S.faults input.new)) }
{
    laws_of_parts();
    let opening = read_part(alloc, input, out, READ_LIMIT)?;
    Ok(opening)
}

/// The scene of the scene part, and what was read behind that without the byte past the limit.
fn scene_of(alloc: Global, opening: &Opening) -> Result<(Scene, &[u8]), SceneStop>
    requires { IsOpening opening.now }
    ensures ok { IfOk result (λ found. IsSceneOf opening.now found.0 found.1.now) }
    ensures err { (bits : ℕ) → IfErr result (Refuses bits opening.now) }
{
    if is_cut(opening) {
        return Err(SceneStop::Refused(too_long()));
    }
    let counted = &opening.text[..opening.text.len().min(READ_LIMIT - 1)];
    let (part, read) = counted.split_at(opening.part.unwrap_or(counted.len()));
    let scene = scene_in(alloc, part)?;
    Ok((scene, read))
}

/// Whether a scene part is past the limit: it is not whole within it.
fn is_cut(opening: &Opening) -> bool
    requires few { length opening.now.text.items ≤ READ_LIMIT }
    ensures cut { result ≡ true → (opening.now.part ≡ None) × (length opening.now.text.items ≡ READ_LIMIT) }
    ensures short { result ≡ false → IsShort opening.now }
{
    opening.part.is_none() && opening.text.len() == READ_LIMIT
}

/// Opens the array for a scene, and a session on it.
fn open_session<'s, A: Array>(
    alloc: Global,
    scene: &'s Scene,
    array: &mut A,
) -> Result<Session<'s>, SceneStop>
    requires bits { A.BITS ≤ 256 }
    ensures session { IfOk result (λ session. session ≡ session_opened scene.now) }
    ensures fits { IfOk result (λ session. Fits A.BITS session (A.view array.new)) }
    ensures work { OnOk result ((A.view array.new).work ≡ 0) }
    ensures draws { OnOk result ((o : Outcome) → drawable A.BITS scene.now o ≡ o) }
    ensures err { IfErr result (λ stop. StopsAt (drawable A.BITS scene.now) stop) }
    ensures array { IfErr result (λ stop. LeavesClosed (status_of (stopped stop)) A.BITS scene.now
        (A.view array.old) (A.view array.new)) }
{
    let job = open_job(alloc, scene, array)?;
    Session::new(alloc, job, array).map_err(SceneStop::Memory)
}

/// Answers the lines after the scene part, and finishes the output.
fn answer_rest<S: Asks<O>, O: Sink, A: Operating>(
    session: &mut Session<'_>,
    array: &mut A,
    opening: &Opening,
    read: &[u8],
    input: &mut S,
    out: &mut O,
) -> Ending
    requires fits { Fits A.BITS session.old (A.view array.old) }
    requires first { session.old.lines ≡ 0 }
    requires few { length opening.now.text.items ≤ READ_LIMIT }
    requires short { IsShort opening.now }
    requires none { opening.now.part ≡ None → (read.now ≡ []) × IsAtEnd (S.rest input.old) }
    ensures fits { Fits A.BITS session.new (A.view array.new) }
    ensures sits { Sits opening.now result A.BITS read.now
        (moment session.old (A.view array.old).work (O.state out.old)
        (S.asks input.old) (S.rest input.old) (S.faults input.old))
        (moment session.new (A.view array.new).work (O.state out.new)
        (S.asks input.new) (S.rest input.new) (S.faults input.new)) }
{
    match opening.part {
        Some(_) => serve(
            session,
            array,
            read,
            input,
            READ_LIMIT - opening.text.len(),
            out,
        ),
        None => finish_unasked(out),
    }
}

/// What a session comes to that ended so.
fn result_of(ending: Ending) -> Result<(), Stop>
    ensures result { result ≡ result_of ending }
    ensures causes { (input_old input_new out_old out_new : ℕ) → HasReadCause ending input_old input_new →
        HasOutCause ending out_old out_new → HasCauses result input_old input_new out_old out_new }
    ensures worded { result ≢ Err Stop.Usage }
{
    match ending {
        Ending::Quit | Ending::End => Ok(()),
        Ending::Long => Err(Stop::Refused(too_long())),
        Ending::ReadFault => Err(Stop::ReadFault),
        Ending::WriteFault => Err(Stop::WriteFault),
    }
}
