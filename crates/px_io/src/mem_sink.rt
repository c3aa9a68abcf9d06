//! A sink over memory, whose calls fail by a list or for lack of room.
ghost use Rattle.std.specs.Prelude.{◌≡◌, ◌<◌, ◌-◌, ◌++◌, ◌↔◌, ◌⊎◌, [], Contains, IsErr, IfOk, OnOk, OnErr, length, min, take, true, false, Some, if◌then◌else◌, nat_lt};
ghost use Rattle.px_io.specs.Counts.{HasCause, HasWriteCause, one_more};

use crate::failed::counted;
use crate::{Failed, Sink};
use px_num::Memory;
use std::alloc::Global;
use std::marker::Model;

/// A sink with room for so many bytes, which takes at most `piece` of them at a time.
///
/// The write and finish calls are counted together from 1. Those whose number is in a list fail,
/// and so does a write of a piece that is not empty where no room is left.
#[derive(Drop)]
pub struct MemSink {
    bytes: Vec<u8>,
    room: usize,
    piece: usize,
    failing: Vec<u64>,
    calls: u64,
    faults: u64,
    finished: bool,
}

impl Model for MemSink {
    ghost use Rattle.std.specs.Prelude.{◌≤◌, ◌<◌, vec_len, vec_capacity};
    ghost use Rattle.px_io.specs.InMemory.{SinkView};

    ghost Value = { SinkView };

    ghost view = { λ s. record {
      written = s.bytes.items;
      room = s.room;
      piece = s.piece;
      failing = s.failing.items;
      calls = s.calls;
      faults = s.faults;
      finished = s.finished;
    } };

    ghost invariant = { λ s.
        (vec_len s.bytes ≤ s.room) × (s.room ≤ vec_capacity s.bytes) × (0 < s.piece) };
}

impl MemSink {
    /// An empty sink, with memory for all of its room; `piece` is at least 1.
    pub fn new(
        alloc: Global,
        room: usize,
        piece: usize,
        failing: Vec<u64>,
    ) -> Result<MemSink, Memory>
        requires { 0 < piece }
        ensures { IfOk result (λ s. s ≡ record {
          written = [];
          room = room;
          piece = piece;
          failing = failing.items;
          calls = 0;
          faults = 0;
          finished = false;
        }) }
    {
        let bytes = Vec::with_capacity(alloc, room)?;
        Ok(MemSink {
            bytes,
            room,
            piece,
            failing,
            calls: 0,
            faults: 0,
            finished: false,
        })
    }

    /// The bytes taken so far.
    pub fn written(&self) -> &[u8]
        ensures { result.now ≡ self.now.written }
    {
        &self.bytes
    }

    pub fn finished(&self) -> bool
        ensures { result ≡ self.now.finished }
    {
        self.finished
    }
}

impl Sink for MemSink {
    ghost state = { λ s. record { written = Some s.written; finished = Some s.finished; faults = s.faults } };

    fn write(&mut self, buf: &[u8]) -> Result<usize, Failed>
        ensures cause { HasWriteCause self.old.faults self.new.faults result buf.now }
        ensures fails { IsErr result ↔ (Contains self.old.failing (one_more self.old.calls)
            ⊎ ((0 < length buf.now) × (length self.old.written ≡ self.old.room))) }
        ensures count { IfOk result (λ n. n ≡ min self.old.piece
            (min (length buf.now) (self.old.room - length self.old.written))) }
        ensures ok { IfOk result (λ n. self.new ≡ record self.old {
          written = self.old.written ++ take n buf.now;
          calls = one_more self.old.calls;
          finished = (if nat_lt 0 n then false else self.old.finished);
        }) }
        ensures err { OnErr result (self.new ≡ record self.old {
          calls = one_more self.old.calls;
          faults = one_more self.old.faults;
        }) }
    {
        self.calls = self.calls.saturating_add(1);
        let left = self.room - self.bytes.len();
        if self.failing.contains(&self.calls) || (left == 0 && !buf.is_empty()) {
            return Err(counted(&mut self.faults));
        }
        let count = self.piece.min(buf.len()).min(left);
        self.bytes.extend_from_slice(&buf[..count]).unwrap();
        if count > 0 {
            self.finished = false;
        }
        Ok(count)
    }

    fn finish(&mut self) -> Result<(), Failed>
        ensures cause { HasCause self.old.faults self.new.faults result }
        ensures fails { IsErr result ↔ Contains self.old.failing (one_more self.old.calls) }
        ensures ok { OnOk result (self.new ≡ record self.old {
          calls = one_more self.old.calls;
          finished = true;
        }) }
        ensures err { OnErr result (self.new ≡ record self.old {
          calls = one_more self.old.calls;
          faults = one_more self.old.faults;
        }) }
    {
        self.calls = self.calls.saturating_add(1);
        if self.failing.contains(&self.calls) {
            return Err(counted(&mut self.faults));
        }
        self.finished = true;
        Ok(())
    }
}
