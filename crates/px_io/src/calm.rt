//! Ends that never fail: a source over bytes, and a sink that forgets what it takes.
ghost use Rattle.std.specs.Prelude.{◌≡◌, ◌<◌, IsOk, IfOk, None, Ok, Some, drop, length, min};
ghost use Rattle.std.specs.Io.KnownBytes.{ReadConsumes};

use crate::{Failed, Sink, Source};
use std::marker::Model;

/// A source over the bytes of a list that never fails.
#[derive(Drop)]
pub struct CalmSource {
    bytes: Vec<u8>,
    at: usize,
}

impl Model for CalmSource {
    ghost use Rattle.std.specs.Prelude.{List, ℕ, drop, ◌≤◌, vec_len};

    ghost Value = { List ℕ };

    ghost view = { λ s. drop s.at s.bytes.items };

    ghost invariant = { λ s. s.at ≤ vec_len s.bytes };
}

impl CalmSource {
    pub fn new(bytes: Vec<u8>) -> CalmSource
        ensures { result ≡ bytes.items }
    {
        CalmSource { bytes, at: 0 }
    }
}

impl Source for CalmSource {
    ghost rest = { λ s. Some s };

    ghost faults = { λ _. 0 };

    fn read(&mut self, buf: &mut [u8]) -> Result<usize, Failed>
        requires { 0 < length buf.old }
        ensures bytes { ReadConsumes (Some self.old) (Some self.new) result buf.new }
        ensures calm { result ≡ Ok (min (length buf.old) (length self.old)) }
        ensures rest { IfOk result (λ n. self.new ≡ drop n self.old) }
    {
        let count = buf.len().min(self.bytes.len() - self.at);
        buf[..count].copy_from_slice(&self.bytes[self.at..self.at + count]);
        self.at += count;
        Ok(count)
    }
}

/// A sink that takes every piece whole, keeps no bytes and never fails.
#[derive(Drop)]
pub struct CalmSink;

impl CalmSink {
    pub fn new() -> CalmSink {
        CalmSink
    }
}

impl Sink for CalmSink {
    ghost state = { λ _. record { written = None; finished = None; faults = 0 } };

    fn write(&mut self, buf: &[u8]) -> Result<usize, Failed>
        ensures { result ≡ Ok (length buf.now) }
    {
        Ok(buf.len())
    }

    fn finish(&mut self) -> Result<(), Failed>
        ensures { IsOk result }
    {
        Ok(())
    }
}
