//! What an open array is made of, however it keeps its pixels and nodes.
ghost use Rattle.std.specs.Prelude.{◌≡◌, ◌-◌, ◌*◌, ◌^◌, ◌<◌, ◌≤◌, ℕ, IfOk, IsSome, Some};
ghost use Rattle.px_num.specs.Bits.{bit_at};
ghost use Rattle.px_array.specs.Acts.{HasPlace};
ghost use Rattle.px_tree.specs.Nodes.{IsGrid, leaf_bit, node_at};
ghost use Rattle.px_array.specs.Arrays.{Device, HasPixel, IsOpen, levels_of, opened, pixel_of};
ghost use Rattle.px_array.specs.Arrays.{registers_of};
ghost use Rattle.px_array.specs.Clocks.{after_tree_op, clocked};
ghost use Rattle.px_array.specs.Slots.{HasRoom, SlotView, empty_slot};
ghost use Rattle.px_array.specs.Words.{IsMemoryWord};

use crate::micro::{Micro, Registers, TreeOp};
use px_num::Memory;
use px_tree::Tree;
use std::alloc::Global;

/// The pixels of an open array, pixel `(x, y)` at place `x * 2^ny + y`, the tree over them, and the
/// clocks.
pub trait Grid: Sized + Drop {
    /// How many bits of memory a pixel has.
    const BITS: usize;

    /// Room for what a slot keeps of a grid, and whether it keeps anything.
    type Slot: Drop;

    ghost BITS: { ℕ };

    /// The state of every pixel and node, and the clocks.
    ghost device: { Self → Device };

    /// What a slot has room for, and what it keeps.
    ghost held: { Self.Slot → SlotView };

    /// All bits, registers and latches 0.
    fn new(alloc: Global, nx: u32, ny: u32) -> Result<Self, Memory>
        requires bits { BITS ≤ 256 }
        requires grid { IsGrid nx ny }
        ensures { IfOk result (λ grid. device grid ≡ opened BITS nx ny) };

    /// Room for grids of this size, and nothing kept.
    fn new_slot(alloc: Global, nx: u32, ny: u32) -> Result<Self::Slot, Memory>
        requires bits { BITS ≤ 256 }
        requires grid { IsGrid nx ny }
        ensures { IfOk result (λ slot. held slot ≡ empty_slot nx ny) };

    /// One clock: each pixel does the act by its leaf's bit from before the clock, and the tree its
    /// operation.
    fn clock(&mut self, m: Micro)
        requires place { HasPlace BITS m.act }
        requires counted { (device self.old).clocks < 2 ^ 64 - 1 }
        ensures { device self.new ≡ clocked m (device self.old) };

    /// Keeps the state and the clocks in a slot, in place of what it kept.
    fn save(&self, slot: &mut Self::Slot)
        requires room { HasRoom (device self.now) (held slot.old) }
        ensures { held slot.new ≡ record (held slot.old) { kept = Some (device self.now) } };

    /// Takes the state and the clocks that a slot keeps.
    fn restore(&mut self, slot: &Self::Slot)
        requires saved { IsSome (held slot.now).kept }
        requires room { HasRoom (device self.old) (held slot.now) }
        ensures restored { (held slot.now).kept ≡ Some (device self.new) }
        ensures room { HasRoom (device self.new) (held slot.now) };

    /// `(nx, ny)`.
    fn size(&self) -> (u32, u32)
        ensures size { result ≡ ((device self.now).state.tree.nx, (device self.now).state.tree.ny) }
        ensures is_open { IsOpen (device self.now) }
        ensures grid { IsGrid (device self.now).state.tree.nx (device self.now).state.tree.ny };

    /// Bit `at` of the memory of a pixel.
    fn bit(&self, x: u32, y: u32, at: u32) -> bool
        requires pixel { HasPixel (device self.now) x y }
        requires place { at < BITS }
        ensures { result ≡ bit_at (pixel_of (device self.now).state x y).memory at };

    /// Bit `at` of the memories of the 64 pixels from the place `64 * w` on.
    fn word(&self, at: u32, w: usize) -> u64
        requires place { at < BITS }
        requires word { 64 * w < 2 ^ levels_of (device self.now).state.tree }
        ensures { IsMemoryWord (device self.now).state at w result };

    /// The registers of a pixel.
    fn registers(&self, x: u32, y: u32) -> Registers
        requires pixel { HasPixel (device self.now) x y }
        ensures { result ≡ registers_of (pixel_of (device self.now).state x y) };

    /// The output latch of the leaf over a pixel.
    fn tree_bit(&self, x: u32, y: u32) -> bool
        requires pixel { HasPixel (device self.now) x y }
        ensures { result ≡ leaf_bit (device self.now).state.tree x y };

    /// The output and the carry latch of a node of the tree; levels are counted from 1.
    fn node(&self, level: u32, index: u32) -> (bool, bool)
        requires from_one { 1 ≤ level }
        requires in_tree { level ≤ levels_of (device self.now).state.tree }
        requires in_level { index < 2 ^ level }
        ensures output { result.0 ≡ (node_at (device self.now).state.tree level index).output }
        ensures carry { result.1 ≡ (node_at (device self.now).state.tree level index).carry };

    /// The clocks since the array was opened.
    fn clocks(&self) -> u64
        ensures value { result ≡ (device self.now).clocks }
        ensures is_open { IsOpen (device self.now) };
}

/// Makes a tree do its operation.
pub fn move_tree<T: Tree>(tree: &mut T, op: TreeOp)
    ensures { T.state tree.new ≡ after_tree_op op (T.state tree.old) }
{
    match op {
        TreeOp::Hold => {}
        TreeOp::Clear => tree.clear(),
        TreeOp::Feed { a, b, c } => tree.feed(a, b, c),
    }
}
