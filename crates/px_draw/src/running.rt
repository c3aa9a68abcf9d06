//! The program as a function of its words, its input and its outputs.
ghost use Rattle.std.specs.Prelude.{◌≡◌, ◌↔◌, ◌≤◌, Err, IfSome, map, string_bytes, None, Some};
ghost use Rattle.px_commands.specs.declared.stop.Stop.{Stop};
ghost use Rattle.px_commands.specs.declared.status.Status.{Status};
ghost use Rattle.px_commands.specs.Commands.{HasLawfulNumbers, command_of};
ghost use Rattle.px_commands.specs.declared.command.Command.{Command};
ghost use Rattle.px_draw.specs.Askings.{AnswersInTime};
ghost use Rattle.px_commands.specs.Ends.{ends, with_notes};
ghost use Rattle.px_commands.specs.Results.{HasCauses, status_in};
ghost use Rattle.px_draw.specs.Runs.{IsRunOf, Performs, Took};

use crate::debug::debug_input;
use crate::make::make_of_input;
use crate::play::play_input;
use px_asked::Asks;
use px_asm::Operating;
use px_commands::{Command, Status, Stop, command_of, line_of, tell};
use px_io::Sink;
use px_sample::draw_sample;
use px_shadow::shadow_input;
use std::alloc::Global;

/// Does what the words ask with the scene that the input writes (docs/SCENES.md).
///
/// The status and the output are those of the words, of the bytes of the input and of the memory
/// bits of a pixel. A fault of the input or the output is answered only where its count rose in
/// this call, and `Memory` may be answered anywhere. Every status but `Done` writes its line to the
/// notes, whose own faults change neither status nor output.
///
/// `debug` asks for more only when it has answered all lines that are whole (docs/DEBUGGER.md,
/// "Sessions").
///
/// `render`, `colour`, `refine`, `tile`, `shadow`, `sample` and `play` open the array and clock it, and
/// `debug` holds its session on it. Every other command and every refusal leaves it as it was, its
/// slots and its work too; if memory runs out it may be left closed, with a tile drawn, or opened for
/// a session.
#[tactic(auto, using(crate::proofs::RunLemmas::run_done))]
pub fn run<S: Asks<O>, O: Sink, E: Sink, A: Operating>(
    alloc: Global,
    words: &[String],
    input: &mut S,
    out: &mut O,
    notes: &mut E,
    array: &mut A,
) -> Status
    requires some_bits { 1 ≤ A.BITS }
    requires bits { A.BITS ≤ 256 }
    ensures answer { IsRunOf (map string_bytes words.now) A.BITS result
        (with_notes (ends (S.rest input.old) (S.faults input.old) (O.state out.old)
        (A.view array.old)) (E.state notes.old))
        (with_notes (ends (S.rest input.new) (S.faults input.new) (O.state out.new)
        (A.view array.new)) (E.state notes.new)) }
    ensures usage { (result ≡ Status.Usage) ↔ (command_of (map string_bytes words.now) ≡ None) }
    ensures took { Took (command_of (map string_bytes words.now)) result
        (S.rest input.old) (S.rest input.new) }
    ensures in_time { command_of (map string_bytes words.now) ≡ Some Command.Debug →
        AnswersInTime A.BITS (S.asks input.old) (S.asks input.new)
        (S.rest input.old) (S.rest input.new) (O.state out.old).written }
{
    match perform(alloc, command_of(words), input, out, array) {
        Ok(()) => Status::Done,
        Err(stop) => {
            tell(line_of(&stop).as_bytes(), notes);
            stop.status()
        }
    }
}

/// Does a command, as `run` does, and reports its end. Where there is none, that is `Usage`.
#[tactic(auto, using(crate::proofs::RunLemmas::performs_usage, crate::proofs::RunLemmas::performs_sample))]
pub fn perform<S: Asks<O>, O: Sink, A: Operating>(
    alloc: Global,
    command: Option<Command>,
    input: &mut S,
    out: &mut O,
    array: &mut A,
) -> Result<(), Stop>
    requires bits { A.BITS ≤ 256 }
    requires lawful { IfSome command HasLawfulNumbers }
    ensures performs { Performs result command A.BITS
        (ends (S.rest input.old) (S.faults input.old) (O.state out.old) (A.view array.old))
        (ends (S.rest input.new) (S.faults input.new) (O.state out.new) (A.view array.new)) }
    ensures causes { HasCauses result (S.faults input.old) (S.faults input.new) (O.state out.old).faults
        (O.state out.new).faults }
    ensures took { Took command (status_in result) (S.rest input.old) (S.rest input.new) }
    ensures usage { (result ≡ Err Stop.Usage) ↔ (command ≡ None) }
    ensures in_time { command ≡ Some Command.Debug →
        AnswersInTime A.BITS (S.asks input.old) (S.asks input.new)
        (S.rest input.old) (S.rest input.new) (O.state out.old).written }
{
    match command {
        Some(Command::Make(work)) => make_of_input(work, alloc, input, out, array),
        Some(Command::Shadow) => shadow_input(alloc, input, out, array),
        Some(Command::Debug) => debug_input(alloc, input, out, array),
        Some(Command::Sample(n)) => draw_sample(n, alloc, out, array),
        Some(Command::Play) => play_input(alloc, input, out, array),
        None => Err(Stop::Usage),
    }
}
