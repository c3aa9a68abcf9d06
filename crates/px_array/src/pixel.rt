//! One pixel, and what an act does to it.
ghost use Rattle.std.specs.Prelude.{◌≡◌, ◌<◌, ◌≤◌, not};
ghost use Rattle.std.specs.Bool.{OnFalse};
ghost use Rattle.px_num.specs.Bits.{bit_at};
ghost use Rattle.px_array.specs.Acts.{HasPlace, after_act, enabled, stored};
ghost use Rattle.px_array.specs.Pixels.{zero_pixel};

use crate::act::Act;
use crate::memory::PixelMemory;
use px_num::majority;
use std::marker::Model;

/// A pixel: N bits of memory, for N from 1 to 256, and three registers.
#[derive(Clone, Copy)]
pub struct Pixel<const N: usize> {
    pub memory: PixelMemory<N>,
    /// Whether the memory takes what is written.
    pub enable: bool,
    pub carry: bool,
    /// A bit on its way from one place of the memory to another.
    pub latch: bool,
}

impl<const N: usize> Model for Pixel<N> {
    ghost use Rattle.std.specs.Prelude.{◌≤◌};
    ghost use Rattle.px_array.specs.Pixels.{PixelState};

    ghost Value = { PixelState };

    ghost view = { λ p. record {
      memory = p.memory;
      enable = p.enable;
      carry = p.carry;
      latch = p.latch;
    } };

    ghost invariant = { λ p. N ≤ 256 };

    ghost inverse = { λ p. record {
      memory = p.memory;
      enable = p.enable;
      carry = p.carry;
      latch = p.latch;
    } };
}

impl<const N: usize> Pixel<N> {
    /// All bits and registers 0.
    pub fn zero() -> Pixel<N>
        requires bits { N ≤ 256 }
        ensures { result ≡ zero_pixel N }
    {
        Pixel {
            memory: PixelMemory::zero(),
            enable: false,
            carry: false,
            latch: false,
        }
    }

    /// Does one act, where the multiplier tree has the bit `tree_bit` at this pixel.
    pub fn act(&mut self, act: Act, tree_bit: bool)
        requires place { HasPlace N act }
        ensures table { self.new ≡ after_act act tree_bit self.old }
        ensures disabled { OnFalse self.old.enable (self.new.memory ≡ self.old.memory) }
        ensures carry { self.new.carry ≡ (after_act act tree_bit (enabled self.old)).carry }
        ensures latch { self.new.latch ≡ (after_act act tree_bit (enabled self.old)).latch }
    {
        match act {
            Act::Nop => {}
            Act::EnableAll => self.enable = true,
            Act::EnableCarry(v) => self.enable = self.enable && self.carry == v,
            Act::EnableTree(v) => self.enable = self.enable && tree_bit == v,
            Act::EnableBit(at, v) => self.enable = self.enable && self.memory.get(at) == v,
            Act::SetCarry(v) => self.carry = v,
            Act::Fetch(at) => self.latch = self.memory.get(at),
            Act::StoreTree(at) => self.store(at, tree_bit),
            Act::StoreLatch(at) => self.store_latch(at),
            Act::StoreConst(at, v) => self.store(at, v),
            Act::Toggle(at) => self.toggle(at),
            Act::CarryTree(at) => {
                self.carry = majority(!tree_bit, self.memory.get(at), self.carry)
            }
            Act::CarryLatch(at) => {
                self.carry = majority(!self.latch, self.memory.get(at), self.carry)
            }
            Act::AddTree(at) => self.add(at, tree_bit),
        }
    }

    /// Where the pixel is enabled, bit `at` becomes `v`.
    fn store(&mut self, at: u32, v: bool)
        requires place { at < N }
        ensures { self.new ≡ stored at v self.old }
    {
        if self.enable {
            self.memory.set(at, v);
        }
    }

    /// Where the pixel is enabled, bit `at` becomes the latch.
    fn store_latch(&mut self, at: u32)
        requires place { at < N }
        ensures { self.new ≡ stored at self.old.latch self.old }
    {
        let latch = self.latch;
        self.store(at, latch);
    }

    /// Where the pixel is enabled, bit `at` is turned over.
    fn toggle(&mut self, at: u32)
        requires place { at < N }
        ensures { self.new ≡ stored at (not (bit_at self.old.memory at)) self.old }
    {
        let bit = self.memory.get(at);
        self.store(at, !bit);
    }

    /// Adds a bit and the carry to bit `at`.
    fn add(&mut self, at: u32, tree_bit: bool)
        requires place { at < N }
        ensures { self.new ≡ after_act (Act.AddTree at) tree_bit self.old }
    {
        let bit = self.memory.get(at);
        let carry = self.carry;
        self.store(at, tree_bit ^ bit ^ carry);
        self.carry = majority(tree_bit, bit, carry);
    }
}
