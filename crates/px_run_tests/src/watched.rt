//! How much is asked of a source, and how often.
ghost use Rattle.std.specs.Prelude.{◌<◌, Some};

use px_io::{Failed, MemSource, ReadError, Source, read_whole};
use px_num::Memory;
use std::alloc::Global;
use std::test::Fail;

/// A source that keeps how much a read asked for at most, and how many reads came behind the one
/// that ended it.
#[derive(Drop)]
struct Watched {
    inner: MemSource,
    longest: usize,
    has_ended: bool,
    reads_behind: u64,
}

impl Watched {
    fn new(inner: MemSource) -> Watched {
        Watched {
            inner,
            longest: 0,
            has_ended: false,
            reads_behind: 0,
        }
    }
}

impl Source for Watched {
    ghost rest = { λ s. Some s.inner.rest };

    ghost faults = { λ s. s.inner.faults };

    fn read(&mut self, buf: &mut [u8]) -> Result<usize, Failed> {
        if self.has_ended {
            self.reads_behind = self.reads_behind.saturating_add(1);
        }
        self.longest = self.longest.max(buf.len());
        let result = self.inner.read(buf);
        self.has_ended = result.unwrap_or(0) == 0;
        result
    }
}

#[test]
fn reads_are_short_and_end_with_the_input(rt: HostRuntime) -> Result<(), Fail> {
    for (piece, failing, want) in [
        (5000, 0, Ok(9000)),
        (5000, 2, Err(ReadError::Failed)),
        (9000, 1, Err(ReadError::Failed)),
    ] {
        let (read, longest, reads_behind) = watched_read(rt.alloc(), 9000, piece, failing)?;
        assert_eq!(rt; (read, longest, reads_behind), (want, 4096, 0));
    }
    Ok(())
}

/// Reads so many bytes whole, and answers how many came, how much was asked for at most, and how
/// many reads were made behind the last.
fn watched_read(
    alloc: Global,
    length: usize,
    piece: usize,
    failing: u64,
) -> Result<(Result<usize, ReadError>, usize, u64), Memory>
    requires { 0 < piece }
{
    let bytes = vec![in alloc; b'a'; length]?;
    let calls = Vec::from_slice(alloc, &[failing])?;
    let mut input = Watched::new(MemSource::new(bytes, piece, calls));
    let read = read_whole(alloc, &mut input, 20_000).map(|bytes| bytes.len());
    Ok((read, input.longest, input.reads_behind))
}
