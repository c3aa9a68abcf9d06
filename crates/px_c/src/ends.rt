//! The ends of a run in memory: a text that is lent, and an output that grows.
ghost use Rattle.std.specs.Prelude.{◌≡◌, ◌<◌, Err, None, Some, [], length};
ghost use Rattle.px_commands.specs.Outcomes.{Outcome};
ghost use Rattle.px_commands.specs.Results.{HasCauses, Meets};
ghost use Rattle.px_c.specs.RunStops.{IsCalm};

use px_asked::Asks;
use px_commands::Stop;
use px_io::{Failed, Sink, Source};
use px_num::Memory;
use std::alloc::Global;
use std::marker::Model;

/// A source over bytes that are lent. It never fails.
#[derive(Drop)]
pub(crate) struct Lent<'t> {
    rest: &'t [u8],
}

impl<'t> Model for Lent<'t> {
    ghost use Rattle.std.specs.Prelude.{List, ℕ};

    ghost Value = { List ℕ };

    ghost view = { λ l. l.rest.now };
}

impl<'t> Lent<'t> {
    pub(crate) fn new(bytes: &'t [u8]) -> Lent<'t>
        ensures { result ≡ bytes.now }
    {
        Lent { rest: bytes }
    }
}

impl<'t> Source for Lent<'t> {
    ghost rest = { λ l. Some l };

    ghost faults = { λ _. 0 };

    fn read(&mut self, buf: &mut [u8]) -> Result<usize, Failed> {
        let count = buf.len().min(self.rest.len());
        let (front, rest) = self.rest.split_at(count);
        buf[..count].copy_from_slice(front);
        self.rest = rest;
        Ok(count)
    }
}

impl<'t, O: Sink> Asks<O> for Lent<'t> {
    ghost asks = { λ _. None };

    fn ask(&mut self, _out: &O, buf: &mut [u8]) -> Result<usize, Failed> {
        self.read(buf)
    }
}

/// A sink that keeps each piece whole. It fails only where no memory is given for one, and keeps that refusal.
#[derive(Drop)]
pub(crate) struct Output {
    bytes: Vec<u8>,
    faults: u64,
    lack: Option<Memory>,
}

impl Model for Output {
    ghost use Rattle.std.specs.Prelude.{◌<◌, IsSome, None, Some};
    ghost use Rattle.px_io.specs.Reports.{SinkState};

    ghost Value = { SinkState };

    ghost view = { λ o. record { written = Some o.bytes.items; finished = None; faults = o.faults } };

    ghost invariant = { λ o. 0 < o.faults → IsSome o.lack };
}

impl Output {
    pub(crate) fn new(alloc: Global) -> Output
        ensures { result ≡ record { written = Some []; finished = None; faults = 0 } }
    {
        Output {
            bytes: Vec::new(alloc),
            faults: 0,
            lack: None,
        }
    }

    pub(crate) fn into_bytes(self) -> Vec<u8>
        ensures { self.written ≡ Some result.items }
    {
        self.bytes
    }

    /// Why a run over a lent text into this output was stopped: a write failed since memory ran out, and no read did.
    pub(crate) fn stop_of(self, stop: Stop) -> Stop
        requires causes { HasCauses (Err stop) 0 0 0 self.faults }
        ensures calm { IsCalm result }
        ensures meets { (o : Outcome) → Meets (Err stop) o → Meets (Err result) o }
    {
        match stop {
            Stop::Usage => Stop::Usage,
            Stop::Refused(reason) => Stop::Refused(reason),
            Stop::ReadFault => unreachable!(),
            Stop::WriteFault => Stop::Memory(self.lack.unwrap()),
            Stop::Memory(lack) => Stop::Memory(lack),
        }
    }
}

impl Sink for Output {
    ghost state = { λ o. record { written = o.written; finished = None; faults = o.faults } };

    fn write(&mut self, buf: &[u8]) -> Result<usize, Failed> {
        match self.bytes.extend_from_slice(buf) {
            Ok(()) => Ok(buf.len()),
            Err(lack) => {
                self.faults = self.faults.saturating_add(1);
                self.lack = Some(Memory::from(lack));
                Err(Failed)
            }
        }
    }

    fn finish(&mut self) -> Result<(), Failed> {
        Ok(())
    }
}
