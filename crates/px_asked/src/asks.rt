//! Where bytes come from, by a source that notes what a sink had taken each time that it was asked.
ghost use Rattle.std.specs.Prelude.{◌<◌, List, Option, None, length};
ghost use Rattle.std.specs.Io.{ReadsAtMost};
ghost use Rattle.std.specs.Io.KnownBytes.{ReadConsumes};
ghost use Rattle.px_io.specs.Counts.{HasCause};
ghost use Rattle.px_asked.specs.Asks.{Ask, Notes, given};

use px_io::{CalmSource, Failed, MemSource, Sink, Source, StdSource};
use std::io::Read;

/// A source that is asked for bytes in the sight of the sink `O`.
///
/// What a clause says of its asks holds of any such source; most report none.
pub trait Asks<O: Sink>: Source {
    /// Each ask so far, first to last, where the source reports them.
    ghost asks: { Self → Option (List Ask) };

    /// Reads as `read` does, and notes what `out` has taken by then.
    fn ask(&mut self, out: &O, buf: &mut [u8]) -> Result<usize, Failed>
        requires { 0 < length buf.old }
        ensures bound { ReadsAtMost result buf.new }
        ensures bytes { ReadConsumes (Self.rest self.old) (Self.rest self.new) result buf.new }
        ensures cause { HasCause (Self.faults self.old) (Self.faults self.new) result }
        ensures noted { Notes (asks self.old) (asks self.new) (O.state out.now).written
            (given result buf.new) };
}

impl<R: Read, O: Sink> Asks<O> for StdSource<R> {
    ghost asks = { λ _. None };

    fn ask(&mut self, _out: &O, buf: &mut [u8]) -> Result<usize, Failed> {
        self.read(buf)
    }
}

impl<O: Sink> Asks<O> for MemSource {
    ghost asks = { λ _. None };

    fn ask(&mut self, _out: &O, buf: &mut [u8]) -> Result<usize, Failed> {
        self.read(buf)
    }
}

impl<O: Sink> Asks<O> for CalmSource {
    ghost asks = { λ _. None };

    fn ask(&mut self, _out: &O, buf: &mut [u8]) -> Result<usize, Failed> {
        self.read(buf)
    }
}
