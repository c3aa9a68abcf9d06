//! Runs over a source and sinks in memory, and over an array that is watched.
ghost use Rattle.std.specs.Prelude.{◌≤◌};

use crate::arrays::{Counts, Watched};
use px_array::{Array, PixelArray};
use px_asked::TellingSource;
use px_asm::Operating;
use px_draw::{Status, run};
use px_io::{MemSink, MemSource};
use std::alloc::Global;
use std::process::Abort;
use std::test::Fail;

/// One pixel, with a front of depth 5 and face 2. (What a test names by a call is not laid out in its proof, as a constant is.)
pub(crate) fn one_solid() -> &'static [u8] {
    "pxscene 1\npicture 1 1\ndepth 4\nsolid a 200 100 50\nfront 0 0 5\nback 0 0 9\nshow a\nend\n".as_bytes()
}

/// What `render` writes of it.
pub(crate) fn two_maps() -> &'static [u8] {
    "P6\n1 1\n255\n\0\0\x05P6\n1 1\n255\n\0\0\x02".as_bytes()
}

/// What a run is given, and which of its calls fail: none does where the number is 0.
#[derive(Clone, Copy)]
pub(crate) struct Given<'a> {
    pub(crate) words: &'a [&'a str],
    pub(crate) scene: &'a [u8],
    /// What comes after the scene, as a session's lines.
    pub(crate) lines: &'a [u8],
    /// How many bytes a read gives at most, and which read fails.
    pub(crate) reads: (usize, u64),
    /// How many bytes the output takes at most, how many of them at once, and which of its calls fails.
    pub(crate) writes: (usize, usize, u64),
    /// How many bytes of notes are taken.
    pub(crate) notes: usize,
}

/// `render` of one solid, by calls that do not fail.
pub(crate) fn render() -> Given<'static> {
    Given {
        words: &[],
        scene: one_solid(),
        lines: b"",
        reads: (4096, 0),
        writes: (4096, 4096, 0),
        notes: 100,
    }
}

/// What a run left: numbers, and bytes of its ends.
#[derive(Drop)]
pub(crate) struct Left {
    pub(crate) status: Status,
    /// Each ask of the input: what the output had taken by then, `<`, the bytes that it gave, and `>`.
    pub(crate) asks: Vec<u8>,
    pub(crate) written: Vec<u8>,
    pub(crate) is_finished: bool,
    pub(crate) notes: Vec<u8>,
    pub(crate) clocks: u64,
    pub(crate) counts: Counts,
}

impl Left {
    /// It ended so, with these notes, and so many clocks were made.
    pub(crate) fn ended(&self, rt: &impl Abort, status: Status, notes: &[u8], clocks: u64) {
        assert_eq!(rt; self.status, status);
        try_bytes(rt, self.notes.as_slice(), notes);
        assert_eq!(rt; self.clocks, clocks);
    }

    /// So many bytes were written, a front of these, and the output was finished or not.
    pub(crate) fn wrote(&self, rt: &impl Abort, front: &[u8], count: usize, is_finished: bool) {
        let written = self.written.as_slice();
        assert_eq!(rt; written.len(), count);
        assert!(rt; front.starts_with(written));
        assert!(rt; self.is_finished == is_finished);
    }
}

/// These bytes are those that are wanted.
pub(crate) fn try_bytes(rt: &impl Abort, found: &[u8], want: &[u8]) {
    assert_eq!(rt; found, want);
}

/// Does what the words ask. (Each end is made by a function of its own, so that few of them are dropped where a call fails.)
pub(crate) fn run_words(alloc: Global, given: &Given<'_>) -> Result<Left, Fail> {
    let words = owned(alloc, given.words)?;
    run_owned(alloc, words.as_slice(), given)
}

fn run_owned(alloc: Global, words: &[String], given: &Given<'_>) -> Result<Left, Fail> {
    let mut input = TellingSource::new(alloc, source_given(alloc, given)?);
    run_over(alloc, words, given, &mut input)
}

fn run_over(
    alloc: Global,
    words: &[String],
    given: &Given<'_>,
    input: &mut TellingSource,
) -> Result<Left, Fail> {
    let (room, piece, failing) = given.writes;
    let mut out = sink_of(alloc, room, piece, failing)?;
    run_into::<72>(alloc, words, given.notes, input, &mut out)
}

fn run_into<const N: usize>(
    alloc: Global,
    words: &[String],
    room: usize,
    input: &mut TellingSource,
    out: &mut MemSink,
) -> Result<Left, Fail>
    requires some_bits { 1 ≤ N }
    requires bits { N ≤ 256 }
{
    let mut notes = sink_of(alloc, room, 5, 0)?;
    let array = PixelArray::<N>::new(alloc);
    run_on(alloc, words, input, out, &mut notes, array)
}

fn run_on<A: Operating + Drop>(
    alloc: Global,
    words: &[String],
    input: &mut TellingSource,
    out: &mut MemSink,
    notes: &mut MemSink,
    array: A,
) -> Result<Left, Fail>
    requires some_bits { 1 ≤ A.BITS }
    requires bits { A.BITS ≤ 256 }
{
    let mut array = Watched::new(array);
    let status = run(alloc, words, input, out, notes, &mut array);
    let clocks = array.clocks();
    let run = Run {
        status,
        clocks,
        counts: array.counts(),
    };
    left_by(alloc, run, input, out, notes.written())
}

/// What a run reports besides its ends.
#[derive(Drop)]
struct Run {
    status: Status,
    clocks: u64,
    counts: Counts,
}

fn left_by(
    alloc: Global,
    run: Run,
    input: &TellingSource,
    out: &MemSink,
    notes: &[u8],
) -> Result<Left, Fail> {
    let asks = asks_of(alloc, input)?;
    let written = out.written().to_vec(alloc)?;
    let notes = notes.to_vec(alloc)?;
    Ok(Left {
        status: run.status,
        asks,
        written,
        is_finished: out.finished(),
        notes,
        clocks: run.clocks,
        counts: run.counts,
    })
}

/// The asks as `Left` has them; nothing where memory for them was wanting.
fn asks_of(alloc: Global, input: &TellingSource) -> Result<Vec<u8>, Fail> {
    let mut all = Vec::new(alloc);
    for note in input.notes().unwrap_or(&[]) {
        all.extend_from_slice(note.told.as_slice())?;
        all.push(b'<')?;
        all.extend_from_slice(note.bytes.as_slice())?;
        all.push(b'>')?;
    }
    Ok(all)
}

fn owned(alloc: Global, words: &[&str]) -> Result<Vec<String>, Fail> {
    let mut owned = Vec::new(alloc);
    for word in words {
        owned.push(String::from_str(alloc, word)?)?;
    }
    Ok(owned)
}

fn source_given(alloc: Global, given: &Given<'_>) -> Result<MemSource, Fail> {
    let mut text = given.scene.to_vec(alloc)?;
    text.extend_from_slice(given.lines)?;
    source_over(alloc, text, given.reads)
}

/// A text, read in pieces of so many bytes by calls of which one fails; none does where it is 0.
pub(crate) fn source_of(
    alloc: Global,
    text: &[u8],
    piece: usize,
    failing: u64,
) -> Result<MemSource, Fail> {
    let text = text.to_vec(alloc)?;
    source_over(alloc, text, (piece, failing))
}

fn source_over(alloc: Global, text: Vec<u8>, reads: (usize, u64)) -> Result<MemSource, Fail> {
    let calls = Vec::from_slice(alloc, &[reads.1])?;
    Ok(MemSource::new(text, reads.0.max(1), calls))
}

/// A sink with so much room, which takes so many bytes at once, and of which one call fails; none does where it is 0.
pub(crate) fn sink_of(
    alloc: Global,
    room: usize,
    piece: usize,
    failing: u64,
) -> Result<MemSink, Fail> {
    let calls = Vec::from_slice(alloc, &[failing])?;
    Ok(MemSink::new(alloc, room, piece.max(1), calls)?)
}
