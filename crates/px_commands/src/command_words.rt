//! The words of the command line.
ghost use Rattle.std.specs.Prelude.{◌≡◌, ◌≤◌, IfSome, map, string_bytes};
ghost use Rattle.px_model.specs.declared.limits.TheConstants.{MAX_BLOCKS};
ghost use Rattle.px_text.specs.Text.{words_in};
ghost use Rattle.px_commands.specs.Commands.{
  HasLawfulNumbers,
  IsSide,
  command_of,
  count_in,
  count_to,
  fineness_of,
  needs_wide_pixels,
  of_one,
  of_three,
  of_two,
  refining,
  sampling,
  side_in,
  tiling,
};

use crate::command::{Command, Size, Work};
use px_frame::Fineness;
use px_model::{MAX_BLOCKS, MAX_WIDE_PICTURE_SIZE};
use px_text::{few_words, number_of};

/// The memory bits of a pixel of the array that draws.
pub const PIXEL_BITS: usize = 72;

/// The memory bits of a pixel of the array that finds shadows.
pub const WIDE_PIXEL_BITS: usize = 80;

/// Whether what the words ask needs pixels of `WIDE_PIXEL_BITS`, and not of `PIXEL_BITS` (docs/SCENES.md, "Memory").
pub fn needs_wide_pixels(words: &[String]) -> bool
    ensures { result ≡ needs_wide_pixels (command_of (map string_bytes words.now)) }
{
    match command_of(words) {
        Some(Command::Shadow) => true,
        _ => false,
    }
}

/// The command of these words, where they name one (docs/SCENES.md, "Commands").
///
/// Its numbers are within their limits.
pub fn command_of(words: &[String]) -> Option<Command>
    ensures command { result ≡ command_of (map string_bytes words.now) }
    ensures blocks { IfSome result HasLawfulNumbers }
{
    match words {
        [] => Some(Command::Make(Work::Render)),
        [word] => of_one(word.as_bytes()),
        [word, argument] => of_two(word.as_bytes(), argument.as_bytes()),
        [word, first, second] => of_three(word.as_bytes(), first.as_bytes(), second.as_bytes()),
        [_, _, _, _, ..] => None,
    }
}

/// The command of the words in some bytes, with spaces, tabs and carriage returns between them.
///
/// Its numbers are within their limits, and it takes no memory.
#[tactic(auto, using(crate::proofs::CommandLemmas::none_of_many))]
pub fn command_in(bytes: &[u8]) -> Option<Command>
    ensures command { result ≡ command_of (words_in bytes.now) }
    ensures blocks { IfSome result HasLawfulNumbers }
{
    match few_words(bytes) {
        Some(words) => of_few(words.as_slice()),
        None => None,
    }
}

fn of_few(words: &[&[u8]]) -> Option<Command>
    ensures command { result ≡ command_of (map (λ w. w.now) words.now) }
    ensures blocks { IfSome result HasLawfulNumbers }
{
    match words {
        [] => Some(Command::Make(Work::Render)),
        [word] => of_one(*word),
        [word, argument] => of_two(*word, *argument),
        [word, first, second] => of_three(*word, *first, *second),
        [_, _, _, _, ..] => None,
    }
}

fn of_one(word: &[u8]) -> Option<Command>
    ensures command { result ≡ of_one word.now }
    ensures blocks { IfSome result HasLawfulNumbers }
{
    if word == b"render".as_slice() {
        Some(Command::Make(Work::Render))
    } else if word == b"colour".as_slice() {
        Some(Command::Make(Work::Colour))
    } else if word == b"tidy".as_slice() {
        Some(Command::Make(Work::Tidy))
    } else if word == b"plan".as_slice() {
        Some(Command::Make(Work::Plan))
    } else if word == b"cost".as_slice() {
        Some(Command::Make(Work::Cost))
    } else if word == b"shadow".as_slice() {
        Some(Command::Shadow)
    } else if word == b"debug".as_slice() {
        Some(Command::Debug)
    } else if word == b"list".as_slice() {
        Some(Command::Make(Work::List))
    } else if word == b"play".as_slice() {
        Some(Command::Play)
    } else {
        None
    }
}

fn of_two(word: &[u8], argument: &[u8]) -> Option<Command>
    ensures command { result ≡ of_two word.now argument.now }
    ensures blocks { IfSome result HasLawfulNumbers }
{
    if word == b"sample".as_slice() {
        sampling(count_to(MAX_BLOCKS, count_in(argument)))
    } else if word == b"refine".as_slice() {
        refining(fineness_of(argument))
    } else {
        None
    }
}

fn of_three(word: &[u8], first: &[u8], second: &[u8]) -> Option<Command>
    ensures command { result ≡ of_three word.now first.now second.now }
    ensures blocks { IfSome result HasLawfulNumbers }
{
    if word == b"tile".as_slice() {
        tiling(side_in(first), side_in(second))
    } else {
        None
    }
}

/// The number that a word writes, where it does not begin with 0.
fn count_in(word: &[u8]) -> Option<i64>
    ensures { result ≡ count_in word.now }
{
    match word {
        [] | [b'0', ..] => None,
        [_, ..] => number_of(word),
    }
}

/// A number from 1 to a greatest one.
fn count_to(greatest: u32, number: Option<i64>) -> Option<u32>
    ensures count { result ≡ count_to greatest number }
    ensures within { IfSome result (λ n. (1 ≤ n) × (n ≤ greatest)) }
{
    match number {
        Some(n) if 1 <= n && n <= i64::from(greatest) => Some(n as u32),
        _ => None,
    }
}

/// The sample of so many blocks.
fn sampling(blocks: Option<u32>) -> Option<Command>
    requires { IfSome blocks (λ n. (1 ≤ n) × (n ≤ MAX_BLOCKS)) }
    ensures command { result ≡ sampling blocks }
    ensures blocks { IfSome result HasLawfulNumbers }
{
    match blocks {
        Some(n) => Some(Command::Sample(n)),
        None => None,
    }
}

/// The pixels along a side of a wide picture that a word writes.
fn side_in(word: &[u8]) -> Option<u32>
    ensures side { result ≡ side_in word.now }
    ensures some { IfSome result IsSide }
{
    count_to(MAX_WIDE_PICTURE_SIZE, count_in(word))
}

/// The tiling of a picture so wide and high, where there is one.
fn tiling(width: Option<u32>, height: Option<u32>) -> Option<Command>
    requires width { IfSome width IsSide }
    requires height { IfSome height IsSide }
    ensures command { result ≡ tiling width height }
    ensures blocks { IfSome result HasLawfulNumbers }
{
    match (width, height) {
        (Some(width), Some(height)) => Some(Command::Make(Work::Tile(Size { width, height }))),
        _ => None,
    }
}

fn fineness_of(word: &[u8]) -> Option<Fineness>
    ensures { result ≡ fineness_of word.now }
{
    if word == b"2".as_slice() {
        Some(Fineness::Two)
    } else if word == b"4".as_slice() {
        Some(Fineness::Four)
    } else {
        None
    }
}

/// The refinement of this fineness, where there is one.
fn refining(fineness: Option<Fineness>) -> Option<Command>
    ensures command { result ≡ refining fineness }
    ensures blocks { IfSome result HasLawfulNumbers }
{
    match fineness {
        Some(fineness) => Some(Command::Make(Work::Refine(fineness))),
        None => None,
    }
}
