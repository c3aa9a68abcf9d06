//! pxplanes: reads a scene from standard input, and draws it.
#![tactic(auto)]

ghost use Rattle.std.specs.IoError.{error_kind};
ghost use Rattle.std.specs.Prelude.{◌≡◌, ◌≤◌, ◌∷◌, [], IfErr, IfOk, IsErr, drop, map, string_bytes, take};
ghost use Rattle.std.specs.Process.{exit_status};
ghost use Rattle.std.specs.Vec.Iter.{into_iter_items, into_iter_len};
ghost use Rattle.std.specs.declared.io.ErrorKind.TheVariants.{OutOfMemory};
ghost use Rattle.px_array.specs.Slots.{ArrayView, none_open};
ghost use Rattle.px_draw.specs.Commands.{command_of};
ghost use Rattle.px_draw.specs.Ends.{ends, with_notes};
ghost use Rattle.px_draw.specs.PixelBits.{pixel_bits};
ghost use Rattle.px_draw.specs.Runs.{IsRunOf};
ghost use Rattle.px_draw.specs.Statuses.{code};
ghost use Rattle.px_commands.specs.declared.status.Status.{Status as AnyStatus};

use px_asked::Asks;
use px_commands::{PIXEL_BITS, WIDE_PIXEL_BITS};
use px_draw::needs_wide_pixels;
pub use px_draw::{Status, deliver, run};
use px_io::{Sink, StdSink, StdSource};
use px_num::Memory;
use px_planes::PlaneArray;
use std::alloc::Global;
use std::env::Args;
use std::io::ErrorKind;
use std::process::ExitCode;
use std::{env, io};

/// The code of `Status::Memory`.
const OUT_OF_MEMORY: u8 = 7;

/// Why there are no words.
#[derive(Drop)]
enum NoWords {
    /// Memory was wanted for the list of words and not given.
    Memory(Memory),
    /// It was wanted for the arguments before that.
    Arguments(io::Error),
}

impl From<Memory> for NoWords {
    fn from(lack: Memory) -> Self {
        NoWords::Memory(lack)
    }
}

fn main(rt: HostRuntime) -> ExitCode {
    match words_of(rt.alloc(), env::args(&rt)) {
        Ok(words) => run_on(
            rt.alloc(),
            words.as_slice(),
            &mut StdSource::new(rt.stdin()),
            &mut StdSink::new(rt.stdout()),
            &mut StdSink::new(rt.stderr()),
        ),
        Err(_) => ExitCode::from(OUT_OF_MEMORY),
    }
}

/// Does what the words ask over these streams, on a new array with as many bits a pixel as they want, and ends with the code
/// of the status.
fn run_on<S: Asks<O>, O: Sink, E: Sink>(
    alloc: Global,
    words: &[String],
    input: &mut S,
    out: &mut O,
    notes: &mut E,
) -> ExitCode
    ensures { (status : AnyStatus) × (array : ArrayView) × (exit_status result ≡ code status)
        × IsRunOf (map string_bytes words.now)
        (pixel_bits (command_of (map string_bytes words.now))) status
        (with_notes (ends (S.rest input.old) (S.faults input.old) (O.state out.old)
        none_open) (E.state notes.old))
        (with_notes (ends (S.rest input.new) (S.faults input.new) (O.state out.new)
        array) (E.state notes.new)) }
{
    if needs_wide_pixels(words) {
        run_with::<_, _, _, WIDE_PIXEL_BITS>(alloc, words, input, out, notes)
    } else {
        run_with::<_, _, _, PIXEL_BITS>(alloc, words, input, out, notes)
    }
}

/// Does what the words ask on a new array with N bits a pixel, as many as they need.
fn run_with<S: Asks<O>, O: Sink, E: Sink, const N: usize>(
    alloc: Global,
    words: &[String],
    input: &mut S,
    out: &mut O,
    notes: &mut E,
) -> ExitCode
    requires wanted { N ≡ pixel_bits (command_of (map string_bytes words.now)) }
    requires some_bits { 1 ≤ N }
    requires bits { N ≤ 256 }
    ensures { (status : AnyStatus) × (array : ArrayView) × (exit_status result ≡ code status)
        × IsRunOf (map string_bytes words.now)
        (pixel_bits (command_of (map string_bytes words.now))) status
        (with_notes (ends (S.rest input.old) (S.faults input.old) (O.state out.old)
        none_open) (E.state notes.old))
        (with_notes (ends (S.rest input.new) (S.faults input.new) (O.state out.new)
        array) (E.state notes.new)) }
{
    let mut array = PlaneArray::<N>::new(alloc);
    exit_code(run(alloc, words, input, out, notes, &mut array))
}

/// The code with which the process ends.
fn exit_code(status: Status) -> ExitCode
    ensures { exit_status result ≡ code status }
{
    ExitCode::from(status.code())
}

/// The words behind the program's name, or one empty word where they are no text.
///
/// Without memory for the arguments there are no words.
fn words_of(alloc: Global, arguments: io::Result<Args>) -> Result<Vec<String>, NoWords>
    ensures words { IfOk arguments (λ all. IfOk result (λ words. words.items ≡
        drop 1 (take (into_iter_len all) (into_iter_items all)))) }
    ensures no_text { IfErr arguments (λ error. IfOk result (λ words.
        map string_bytes words.items ≡ [] ∷ [])) }
    ensures memory { IfErr arguments (λ error.
        error_kind error ≡ OutOfMemory → IsErr result) }
{
    match arguments {
        Ok(arguments) => Ok(behind_the_name(alloc, arguments)?),
        Err(error) if error.kind() == ErrorKind::OutOfMemory => Err(NoWords::Arguments(error)),
        Err(_) => Ok(no_text(alloc)?),
    }
}

/// The words behind the program's name, which is the first.
fn behind_the_name(alloc: Global, mut arguments: Args) -> Result<Vec<String>, Memory>
    ensures { IfOk result (λ words. words.items ≡
        drop 1 (take (into_iter_len arguments) (into_iter_items arguments))) }
{
    let mut words = Vec::new(alloc);
    arguments.next();
    while let Some(word) = arguments.next() {
        words.push(word)?;
    }
    Ok(words)
}

/// One empty word, which names no command.
fn no_text(alloc: Global) -> Result<Vec<String>, Memory>
    ensures { IfOk result (λ words. map string_bytes words.items ≡ [] ∷ []) }
{
    let mut words = Vec::new(alloc);
    words.push(String::new(alloc))?;
    Ok(words)
}
