//! The trusted edge: readers and writers of std.
ghost use Rattle.std.specs.Prelude.{◌≡◌, ◌<◌, length, IfOk, None, OnErr};
ghost use Rattle.std.specs.Io.{ReadsAtMost, WritesAtMost};
ghost use Rattle.std.specs.Io.KnownBytes.{Keeps, ReadConsumes, WriteAppends};
ghost use Rattle.px_io.specs.Counts.{HasCause, HasWriteCause, one_more};

use crate::failed::counted;
use crate::{Failed, Sink, Source};
use std::io::{Read, Write};
use std::marker::Model;

/// A reader of std as a source: it reports what the reader reports.
#[derive(Drop)]
pub struct StdSource<R> {
    reader: R,
    faults: u64,
}

impl<R> Model for StdSource<R> {
    ghost use Rattle.px_io.specs.Edge.{EdgeView};

    ghost Value = { EdgeView R };

    ghost view = { λ s. record { end = s.reader; faults = s.faults } };
}

impl<R> StdSource<R> {
    pub fn new(reader: R) -> StdSource<R>
        ensures { result ≡ record { end = reader; faults = 0 } }
    {
        StdSource { reader, faults: 0 }
    }
}

impl<R: Read> Source for StdSource<R> {
    ghost rest = { λ s. R.remaining s.end };

    ghost faults = { λ s. s.faults };

    fn read(&mut self, buf: &mut [u8]) -> Result<usize, Failed>
        requires { 0 < length buf.old }
        ensures bound { ReadsAtMost result buf.new }
        ensures bytes { ReadConsumes (R.remaining self.old.end) (R.remaining self.new.end)
            result buf.new }
        ensures cause { HasCause self.old.faults self.new.faults result }
        ensures counts { OnErr result (self.new.faults ≡ one_more self.old.faults) }
    {
        match self.reader.read(buf) {
            Ok(count) => Ok(count),
            Err(_) => Err(counted(&mut self.faults)),
        }
    }
}

/// A writer of std as a sink: it reports what the writer reports, and not whether it is finished.
#[derive(Drop)]
pub struct StdSink<W> {
    writer: W,
    faults: u64,
}

impl<W> Model for StdSink<W> {
    ghost use Rattle.px_io.specs.Edge.{EdgeView};

    ghost Value = { EdgeView W };

    ghost view = { λ s. record { end = s.writer; faults = s.faults } };
}

impl<W> StdSink<W> {
    pub fn new(writer: W) -> StdSink<W>
        ensures { result ≡ record { end = writer; faults = 0 } }
    {
        StdSink { writer, faults: 0 }
    }
}

impl<W: Write> Sink for StdSink<W> {
    ghost state = { λ s. record { written = W.contents s.end; finished = None; faults = s.faults } };

    fn write(&mut self, buf: &[u8]) -> Result<usize, Failed>
        ensures bound { WritesAtMost result buf.now }
        ensures bytes { WriteAppends (W.contents self.old.end) (W.contents self.new.end)
            result buf.now }
        ensures cause { HasWriteCause self.old.faults self.new.faults result buf.now }
        ensures counts { OnErr result (self.new.faults ≡ one_more self.old.faults) }
        ensures stuck { IfOk result (λ n. n ≡ 0 → 0 < length buf.now →
            self.new.faults ≡ one_more self.old.faults) }
    {
        match self.writer.write(buf) {
            Ok(count) => {
                if count == 0 && !buf.is_empty() {
                    counted(&mut self.faults);
                }
                Ok(count)
            }
            Err(_) => Err(counted(&mut self.faults)),
        }
    }

    fn finish(&mut self) -> Result<(), Failed>
        ensures bytes { Keeps (W.contents self.old.end) (W.contents self.new.end) }
        ensures cause { HasCause self.old.faults self.new.faults result }
        ensures counts { OnErr result (self.new.faults ≡ one_more self.old.faults) }
    {
        match self.writer.flush() {
            Ok(()) => Ok(()),
            Err(_) => Err(counted(&mut self.faults)),
        }
    }
}
