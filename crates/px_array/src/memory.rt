//! The memory bits of one pixel.
ghost use Rattle.std.specs.Prelude.{◌≡◌, ◌<◌, ◌≤◌, false, length, replicate, slice_set};
ghost use Rattle.px_num.specs.Bits.{bit_at};

use std::marker::Model;

/// The N bits of memory of a pixel, for N from 1 to 256.
#[derive(Clone, Copy)]
pub struct PixelMemory<const N: usize> {
    bits: [bool; N],
}

impl<const N: usize> Model for PixelMemory<N> {
    ghost use Rattle.std.specs.Prelude.{◌≡◌, Bool, List, length};

    ghost Value = { List Bool };

    ghost view = { λ memory. memory.bits };

    ghost invariant = { λ memory. length memory.bits ≡ N };

    ghost inverse = { λ bits. record { bits = bits } };
}

impl<const N: usize> PixelMemory<N> {
    /// All bits 0.
    pub(crate) fn zero() -> PixelMemory<N>
        requires bits { N ≤ 256 }
        ensures { result ≡ replicate N false }
    {
        PixelMemory { bits: [false; N] }
    }

    /// Bit `at`.
    pub fn get(&self, at: u32) -> bool
        requires place { at < N }
        ensures value { result ≡ bit_at self.now at }
        ensures bits { length self.now ≡ N }
    {
        self.bits[at as usize]
    }

    /// Makes bit `at` be `v`.
    pub fn set(&mut self, at: u32, v: bool)
        requires place { at < N }
        ensures value { self.new ≡ slice_set self.old at v }
        ensures bits { length self.old ≡ N }
    {
        self.bits[at as usize] = v;
    }
}
