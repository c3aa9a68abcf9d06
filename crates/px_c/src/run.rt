//! `pxplanes_run`: what the program writes for its words, and why it does not.
ghost use Rattle.std.specs.Prelude.{◌≡◌, ◌≤◌, Err, IfErr, IfOk, IfSome, length};
ghost use Rattle.px_text.specs.Text.{words_in};
ghost use Rattle.px_commands.specs.Commands.{HasLawfulNumbers, command_of};
ghost use Rattle.px_commands.specs.Outcomes.{done, output};
ghost use Rattle.px_commands.specs.Results.{Meets};
ghost use Rattle.px_draw.specs.Runs.{commanded};
ghost use Rattle.px_c.specs.Answers.{Answers, TellsAnswer};
ghost use Rattle.px_c.specs.Buffers.{HoldsBytes};
ghost use Rattle.px_c.specs.RunAnswers.{outcome_answer, outcome_of, refusal_answer, run_answer, run_outcome};
ghost use Rattle.px_c.specs.RunStops.{IsCalm, stop_answer};
ghost use Rattle.px_c.specs.declared.status.TheConstants.{OK};

use crate::answer::{Answer, malformed, past_limit, refused};
use crate::ends::{Lent, Output};
use crate::found::{Found, limit_number, nothing};
use crate::room::short_of_images;
use crate::status::{BITS, NO_ROOM, OK, USAGE, WIDE_BITS};
use px_commands::{Command, Refusal, Stop, command_in};
use px_draw::perform;
use px_planes::PlaneArray;
use px_scene::SceneFault;
use std::alloc::Global;

/// Does what a command's words ask with a text, as the program does with its standard input, and writes to the
/// front of `out` what the program writes to its standard output.
///
/// `out` has room for all of it, or more, which stays as it is.
#[tactic(auto, using(crate::proofs::RunLemmas::answers_done, crate::proofs::RunLemmas::answers_stop))]
#[unsafe(no_mangle)]
pub extern "C" fn pxplanes_run(
    alloc: Global,
    text: &[u8],
    words: &[u8],
    out: &mut [u8],
    found: &mut Found,
) -> u32
    ensures answer { TellsAnswer (run_answer text.now words.now (length out.old)) result found.new }
    ensures output { result ≡ OK → HoldsBytes (output (run_outcome text.now words.now)) out.old out.new }
    ensures kept { (result ≡ OK → ⊥) → out.new ≡ out.old }
{
    let command = command_in(words);
    if let Some(answer) = short_of_output(alloc, text, command, out.len()) {
        return answer.report_to(found);
    }
    let bytes = match output_of(alloc, text, command) {
        Ok(bytes) => bytes,
        Err(stop) => return stopped(stop).report_to(found),
    };
    *found = Found {
        room: bytes.len() as u64,
        ..nothing()
    };
    if out.len() < bytes.len() {
        return NO_ROOM;
    }
    let (front, _) = out.split_at_mut(bytes.len());
    front.copy_from_slice(bytes.as_slice());
    OK
}

/// The answer where what a command writes has no room, if that is known before the work, which is then not done.
fn short_of_output(
    alloc: Global,
    text: &[u8],
    command: Option<Command>,
    room: usize,
) -> Option<Answer>
    requires lawful { IfSome command HasLawfulNumbers }
    ensures answer { IfSome result (λ answer.
        Answers (outcome_answer room (outcome_of command text.now)) answer) }
    ensures refused { IfSome result (λ answer. answer.status ≡ OK → ⊥) }
{
    match command {
        Some(Command::Make(work)) => short_of_images(alloc, text, work, room),
        _ => None,
    }
}

/// What a command writes for a text, on an array with as many bits a pixel as it needs.
fn output_of(alloc: Global, text: &[u8], command: Option<Command>) -> Result<Vec<u8>, Stop>
    requires lawful { IfSome command HasLawfulNumbers }
    ensures ok { IfOk result (λ bytes. outcome_of command text.now ≡ done bytes.items) }
    ensures err { IfErr result (λ stop. Meets (Err stop) (outcome_of command text.now)) }
    ensures calm { IfErr result IsCalm }
{
    match command {
        Some(Command::Shadow) => output_on::<WIDE_BITS>(alloc, text, command),
        _ => output_on::<BITS>(alloc, text, command),
    }
}

/// What a command writes for a text, on a new array with N bits a pixel.
#[tactic(auto, using(crate::proofs::RunLemmas::comes_not))]
fn output_on<const N: usize>(
    alloc: Global,
    text: &[u8],
    command: Option<Command>,
) -> Result<Vec<u8>, Stop>
    requires some_bits { 1 ≤ N }
    requires bits { N ≤ 256 }
    requires lawful { IfSome command HasLawfulNumbers }
    ensures ok { IfOk result (λ bytes. commanded command text.now N ≡ done bytes.items) }
    ensures err { IfErr result (λ stop. Meets (Err stop) (commanded command text.now N)) }
    ensures calm { IfErr result IsCalm }
{
    let mut array = PlaneArray::<N>::new(alloc);
    let mut out = Output::new(alloc);
    match perform(alloc, command, &mut Lent::new(text), &mut out, &mut array) {
        Ok(()) => Ok(out.into_bytes()),
        Err(stop) => Err(out.stop_of(stop)),
    }
}

/// The answer where a command does not do its work.
pub(crate) fn stopped(stop: Stop) -> Answer
    requires { IsCalm stop }
    ensures answer { result ≡ stop_answer stop }
    ensures refused { result.status ≡ OK → ⊥ }
{
    match stop {
        Stop::Usage => Answer {
            status: USAGE,
            found: nothing(),
        },
        Stop::Refused(reason) => refused_by(reason),
        Stop::ReadFault | Stop::WriteFault => unreachable!(),
        Stop::Memory(lack) => refused(SceneFault::Memory(lack)),
    }
}

/// The answer to a refusal.
fn refused_by(reason: Refusal) -> Answer
    ensures { result ≡ refusal_answer reason }
{
    match reason {
        Refusal::Malformed { line, cause } => malformed(line, cause),
        Refusal::Limit { line, kind, found } => past_limit(line, limit_number(kind), found),
    }
}
