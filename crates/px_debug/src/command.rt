//! What a command line asks for.
ghost use Rattle.std.specs.Prelude.{◌≡◌, ◌^◌, ◌<◌, IfSome, map};
ghost use Rattle.px_debug.specs.Commands.{
  command_in,
  line_command,
  of_word,
  of_word_and_number,
  of_word_and_numbers,
  plain_number,
};

use px_text::{few_words, size_of};

/// A longer line is none of the commands.
const MOST_BYTES: usize = 255;

/// A number has at most so many digits.
const MOST_DIGITS: usize = 18;

/// What a command line asks for (docs/DEBUGGER.md, "Lines").
#[derive(Clone, Copy)]
pub enum Command {
    /// So many clocks forward.
    Step(u64),
    /// So many times to the end of the operation that runs.
    Macro(u64),
    /// All clocks that are left.
    Run,
    /// Forward to a clock.
    Until(u64),
    /// So many clocks back.
    Back(u64),
    /// Where the session stands.
    At,
    /// The memory and the registers of a pixel, by column and row.
    Pixel(u64, u64),
    /// The keys of a pixel, by column and row.
    Field(u64, u64),
    /// The latches of a node, by level and index.
    Tree(u64, u64),
    /// The last broadcasts.
    Trace,
    /// The end of the session.
    Quit,
    /// A line without words.
    Nothing,
    /// Any other line.
    Unknown,
}

/// What a command line, without its line feed, asks for (docs/DEBUGGER.md, "Lines").
pub fn command_of(line: &[u8]) -> Command
    ensures { result ≡ line_command line.now }
{
    if line.len() > MOST_BYTES {
        return Command::Unknown;
    }
    match few_words(line) {
        Some(words) => command_in(words.as_slice()),
        None => Command::Unknown,
    }
}

fn command_in(words: &[&[u8]]) -> Command
    ensures { result ≡ command_in (map (λ w. w.now) words.now) }
{
    match words {
        [] => Command::Nothing,
        [word] => of_one(*word),
        [word, first] => match number_of(*first) {
            Some(n) => of_two(*word, n),
            None => Command::Unknown,
        },
        [word, first, second] => match (number_of(*first), number_of(*second)) {
            (Some(a), Some(b)) => of_three(*word, a, b),
            _ => Command::Unknown,
        },
        _ => Command::Unknown,
    }
}

/// The number that a word writes: 1 to 18 digits.
fn number_of(word: &[u8]) -> Option<u64>
    ensures value { result ≡ plain_number word.now }
    ensures small { IfSome result (λ n. n < 10 ^ 18) }
{
    if word.len() <= MOST_DIGITS {
        size_of(word)
    } else {
        None
    }
}

fn of_one(word: &[u8]) -> Command
    ensures { result ≡ of_word word.now }
{
    if word == b"run".as_slice() {
        Command::Run
    } else if word == b"at".as_slice() {
        Command::At
    } else if word == b"trace".as_slice() {
        Command::Trace
    } else if word == b"quit".as_slice() {
        Command::Quit
    } else {
        Command::Unknown
    }
}

fn of_two(word: &[u8], n: u64) -> Command
    ensures { result ≡ of_word_and_number word.now n }
{
    if word == b"step".as_slice() {
        Command::Step(n)
    } else if word == b"macro".as_slice() {
        Command::Macro(n)
    } else if word == b"until".as_slice() {
        Command::Until(n)
    } else if word == b"back".as_slice() {
        Command::Back(n)
    } else {
        Command::Unknown
    }
}

fn of_three(word: &[u8], a: u64, b: u64) -> Command
    ensures { result ≡ of_word_and_numbers word.now a b }
{
    if word == b"pixel".as_slice() {
        Command::Pixel(a, b)
    } else if word == b"field".as_slice() {
        Command::Field(a, b)
    } else if word == b"tree".as_slice() {
        Command::Tree(a, b)
    } else {
        Command::Unknown
    }
}
