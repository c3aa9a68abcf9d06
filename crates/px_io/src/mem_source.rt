//! A source over memory, whose calls fail by a list.
ghost use Rattle.std.specs.Prelude.{◌≡◌, ◌<◌, ◌↔◌, Contains, IsErr, IfOk, OnErr, drop, length, min, Some};
ghost use Rattle.std.specs.Io.KnownBytes.{ReadConsumes};
ghost use Rattle.px_io.specs.Counts.{HasCause, one_more};

use crate::failed::counted;
use crate::{CalmSource, Failed, Source};
use std::marker::Model;

/// A source over the bytes of a list, which gives at most `piece` of them at a time.
///
/// The read calls are counted from 1, and those whose number is in a list fail.
#[derive(Drop)]
pub struct MemSource {
    rest: CalmSource,
    piece: usize,
    failing: Vec<u64>,
    calls: u64,
    faults: u64,
}

impl Model for MemSource {
    ghost use Rattle.std.specs.Prelude.{◌<◌};
    ghost use Rattle.px_io.specs.InMemory.{SourceView};

    ghost Value = { SourceView };

    ghost view = { λ s. record {
      rest = s.rest;
      piece = s.piece;
      failing = s.failing.items;
      calls = s.calls;
      faults = s.faults;
    } };

    ghost invariant = { λ s. 0 < s.piece };
}

impl MemSource {
    /// A source of these bytes; `piece` is at least 1.
    pub fn new(bytes: Vec<u8>, piece: usize, failing: Vec<u64>) -> MemSource
        requires { 0 < piece }
        ensures { result ≡ record {
          rest = bytes.items;
          piece = piece;
          failing = failing.items;
          calls = 0;
          faults = 0;
        } }
    {
        MemSource {
            rest: CalmSource::new(bytes),
            piece,
            failing,
            calls: 0,
            faults: 0,
        }
    }
}

impl Source for MemSource {
    ghost rest = { λ s. Some s.rest };

    ghost faults = { λ s. s.faults };

    fn read(&mut self, buf: &mut [u8]) -> Result<usize, Failed>
        requires { 0 < length buf.old }
        ensures bytes { ReadConsumes (Some self.old.rest) (Some self.new.rest) result buf.new }
        ensures cause { HasCause self.old.faults self.new.faults result }
        ensures fails { IsErr result ↔ Contains self.old.failing (one_more self.old.calls) }
        ensures count { IfOk result (λ n.
            n ≡ min self.old.piece (min (length buf.old) (length self.old.rest))) }
        ensures ok { IfOk result (λ n. self.new ≡ record self.old {
          rest = drop n self.old.rest;
          calls = one_more self.old.calls;
        }) }
        ensures err { OnErr result (self.new ≡ record self.old {
          calls = one_more self.old.calls;
          faults = one_more self.old.faults;
        }) }
    {
        self.calls = self.calls.saturating_add(1);
        if self.failing.contains(&self.calls) {
            return Err(counted(&mut self.faults));
        }
        let most = self.piece.min(buf.len());
        self.rest.read(&mut buf[..most])
    }
}
