//! The ends in memory, the calm ones, and those over a reader and a writer of std, through the calls that read and write
//! whole; failures in mid-stream.
use crate::runs::{sink_of, source_of, try_bytes};
use px_io::{
    CalmSink, CalmSource, Failed, MemSink, MemSource, ReadError, Sink, Source, StdSink, StdSource,
    read_whole, write_whole,
};
use std::alloc::Global;
use std::io;
use std::io::BufWriter;
use std::process::Abort;
use std::test::Fail;

/// These bytes are read whole, of which there may be so many.
fn reads<S: Source>(
    rt: &impl Abort,
    alloc: Global,
    input: &mut S,
    limit: usize,
    want: &[u8],
) -> Result<(), Fail> {
    let read = read_whole(alloc, input, limit)?;
    try_bytes(rt, read.as_slice(), want);
    Ok(())
}

/// A read of all fails.
fn fails<S: Source>(rt: &impl Abort, alloc: Global, input: &mut S) {
    let has_failed = matches!(read_whole(alloc, input, 9), Err(ReadError::Failed));
    assert!(rt; has_failed);
}

/// These bytes are written whole, or a write of them fails.
fn writes<O: Sink>(rt: &impl Abort, out: &mut O, bytes: &[u8], want: Result<(), Failed>) {
    assert_eq!(rt; write_whole(out, bytes), want);
}

fn finishes<O: Sink>(rt: &impl Abort, out: &mut O, want: Result<(), Failed>) {
    assert_eq!(rt; out.finish(), want);
}

/// The sink has taken these bytes, and is finished or not.
fn has_taken(rt: &impl Abort, out: &MemSink, bytes: &[u8], is_finished: bool) {
    try_bytes(rt, out.written(), bytes);
    assert!(rt; out.finished() == is_finished);
}

#[test]
fn memory_carries_all_bytes(rt: HostRuntime) -> Result<(), Fail> {
    let alloc = rt.alloc();
    carries(&rt, alloc, &mut source_of(alloc, b"abcdef", 4, 0)?)?;
    takes(&rt, &mut sink_of(alloc, 6, 4, 0)?);
    Ok(())
}

fn carries(rt: &impl Abort, alloc: Global, input: &mut MemSource) -> Result<(), Fail> {
    reads(rt, alloc, input, 5, b"abcde")?;
    reads(rt, alloc, input, 5, b"f")
}

fn takes(rt: &impl Abort, out: &mut MemSink) {
    writes(rt, out, b"abcdef", Ok(()));
    has_taken(rt, out, b"abcdef", false);
    finishes(rt, out, Ok(()));
    has_taken(rt, out, b"abcdef", true);
}

#[test]
fn memory_fails_in_mid_stream(rt: HostRuntime) -> Result<(), Fail> {
    let alloc = rt.alloc();
    gives_the_rest(&rt, alloc, &mut source_of(alloc, b"abcdef", 2, 2)?)?;
    takes_after_a_fault(&rt, &mut sink_of(alloc, 9, 2, 2)?);
    Ok(())
}

fn gives_the_rest(rt: &impl Abort, alloc: Global, input: &mut MemSource) -> Result<(), Fail> {
    fails(rt, alloc, input);
    reads(rt, alloc, input, 9, b"cdef")
}

fn takes_after_a_fault(rt: &impl Abort, out: &mut MemSink) {
    writes(rt, out, b"abcdef", Err(Failed));
    has_taken(rt, out, b"ab", false);
    writes(rt, out, b"xy", Ok(()));
    has_taken(rt, out, b"abxy", false);
}

#[test]
fn no_room_is_left(rt: HostRuntime) -> Result<(), Fail> {
    let mut out = sink_of(rt.alloc(), 0, 1, 0)?;
    writes(&rt, &mut out, b"a", Err(Failed));
    assert_eq!(rt; out.write(b""), Ok(0));
    finishes(&rt, &mut out, Ok(()));
    has_taken(&rt, &out, b"", true);
    Ok(())
}

#[test]
fn calm_ends_never_fail(rt: HostRuntime) -> Result<(), Fail> {
    let alloc = rt.alloc();
    let mut input = CalmSource::new(Vec::from_slice(alloc, b"abcdef")?);
    reads(&rt, alloc, &mut input, 9, b"abcdef")?;
    let mut out = CalmSink::new();
    writes(&rt, &mut out, b"abcdef", Ok(()));
    finishes(&rt, &mut out, Ok(()));
    Ok(())
}

#[test]
fn std_reader_is_a_source(rt: HostRuntime) -> Result<(), Fail> {
    let mut input = StdSource::new(b"abcdef".as_slice());
    reads(&rt, rt.alloc(), &mut input, 9, b"abcdef")
}

/// A reader of four bytes, a byte a read, whose third read fails.
#[derive(Drop)]
struct Flaky {
    reads: u8,
}

impl io::Read for Flaky {
    fn read(&mut self, buf: &mut [u8]) -> io::Result<usize> {
        self.reads = self.reads.saturating_add(1);
        match self.reads {
            3 => Err(io::Error::from(io::ErrorKind::TimedOut)),
            6.. => Ok(0),
            _ => match buf {
                [first, ..] => {
                    *first = b'a';
                    Ok(1)
                }
                [] => Ok(0),
            },
        }
    }
}

#[test]
fn std_reader_fails_once(rt: HostRuntime) -> Result<(), Fail> {
    let mut input = StdSource::new(Flaky { reads: 0 });
    fails(&rt, rt.alloc(), &mut input);
    reads(&rt, rt.alloc(), &mut input, 9, b"aa")
}

#[test]
fn std_writer_is_a_sink(rt: HostRuntime) -> Result<(), Fail> {
    let mut room = [0; 4];
    fill(&rt, rt.alloc(), &mut room)?;
    try_bytes(&rt, &room, b"abcd");
    Ok(())
}

fn fill(rt: &impl Abort, alloc: Global, room: &mut [u8]) -> Result<(), Fail> {
    takes_four(rt, &mut StdSink::new(BufWriter::new(alloc, room)?));
    Ok(())
}

fn takes_four<O: Sink>(rt: &impl Abort, out: &mut O) {
    writes(rt, out, b"abcd", Ok(()));
    finishes(rt, out, Ok(()));
    writes(rt, out, b"e", Ok(()));
    finishes(rt, out, Err(Failed));
}
