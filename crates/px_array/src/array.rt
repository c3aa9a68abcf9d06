//! What an array is, however it keeps its pixels and nodes.
ghost use Rattle.std.specs.Prelude.{◌≡◌, ◌-◌, ◌*◌, ◌^◌, ◌<◌, ◌≤◌, ℕ, OnErr, OnOk, length};
ghost use Rattle.px_num.specs.Bits.{bit_at};
ghost use Rattle.px_array.specs.Acts.{HasPlace};
ghost use Rattle.px_tree.specs.Nodes.{IsGrid, leaf_bit, node_at};
ghost use Rattle.px_array.specs.Arrays.{HasPixel, IsClosed, IsOpen, closed, opened};
ghost use Rattle.px_array.specs.Arrays.{levels_of, pixel_of, registers_of};
ghost use Rattle.px_array.specs.Clocks.{clocked};
ghost use Rattle.px_array.specs.Slots.{ArrayView, HasWorked, IsSaved, after_save, no_slots, slot_of};
ghost use Rattle.px_array.specs.Words.{IsMemoryWord};
ghost use Rattle.std.specs.Prelude.{Some};

use crate::micro::{Micro, Registers};
use px_num::Memory;

/// An array of pixels under a multiplier tree, which is clocked (docs/MACHINE.md, "One clock").
///
/// A grid has `2^nx` columns and `2^ny` rows; `x` counts from the left, and `y` from the top.
pub trait Array {
    /// How many bits of memory a pixel has.
    const BITS: usize;

    ghost BITS: { ℕ };

    /// All that is said of an array: the state of every pixel and node with the clocks since it was
    /// opened, what each of the four slots keeps, and the clocks made, also those taken back.
    ghost view: { Self → ArrayView };

    /// Opens an array of which every bit, register and latch is 0, in place of the one before, with
    /// room for its slots.
    ///
    /// After `Memory` no array is open. Whatever the answer, no slot is saved, and the work is 0.
    fn open(&mut self, nx: u32, ny: u32) -> Result<(), Memory>
        requires grid { IsGrid nx ny }
        ensures ok { OnOk result ((view self.new).device ≡ opened BITS nx ny) }
        ensures err { OnErr result ((view self.new).device ≡ closed) }
        ensures slots { (view self.new).slots ≡ no_slots }
        ensures work { (view self.new).work ≡ 0 };

    /// One clock: each pixel does the act by its leaf's bit from before the clock, and the tree its
    /// operation.
    fn clock(&mut self, m: Micro)
        requires is_open { IsOpen (view self.old).device }
        requires place { HasPlace BITS m.act }
        requires counted { (view self.old).device.clocks < 2 ^ 64 - 1 }
        ensures device { (view self.new).device ≡ clocked m (view self.old).device }
        ensures worked { HasWorked 1 (view self.old) (view self.new) };

    /// `(nx, ny)`, or `(0, 0)` where no array is open.
    fn size(&self) -> (u32, u32)
        ensures size { result ≡ ((view self.now).device.state.tree.nx, (view self.now).device.state.tree.ny) }
        ensures closed { IsClosed (view self.now).device → (view self.now).device ≡ closed }
        ensures grid { IsOpen (view self.now).device
            → IsGrid (view self.now).device.state.tree.nx (view self.now).device.state.tree.ny };

    /// Bit `at` of the memory of a pixel.
    fn bit(&self, x: u32, y: u32, at: u32) -> bool
        requires pixel { HasPixel (view self.now).device x y }
        requires place { at < BITS }
        ensures { result ≡ bit_at (pixel_of (view self.now).device.state x y).memory at };

    /// Bit `at` of the memories of 64 pixels.
    ///
    /// Bit `i` is that of the pixel at the place `64 * w + i`, where pixel `(x, y)` stands at the place
    /// `x * 2^ny + y`, and 0 past the last pixel.
    fn word(&self, at: u32, w: usize) -> u64
        requires is_open { IsOpen (view self.now).device }
        requires place { at < BITS }
        requires word { 64 * w < 2 ^ levels_of (view self.now).device.state.tree }
        ensures { IsMemoryWord (view self.now).device.state at w result };

    /// The registers of a pixel.
    fn registers(&self, x: u32, y: u32) -> Registers
        requires pixel { HasPixel (view self.now).device x y }
        ensures { result ≡ registers_of (pixel_of (view self.now).device.state x y) };

    /// The output latch of the leaf over a pixel.
    fn tree_bit(&self, x: u32, y: u32) -> bool
        requires pixel { HasPixel (view self.now).device x y }
        ensures { result ≡ leaf_bit (view self.now).device.state.tree x y };

    /// The output and the carry latch of a node of the tree; levels are counted from 1.
    fn node(&self, level: u32, index: u32) -> (bool, bool)
        requires is_open { IsOpen (view self.now).device }
        requires from_one { 1 ≤ level }
        requires in_tree { level ≤ levels_of (view self.now).device.state.tree }
        requires in_level { index < 2 ^ level }
        ensures output { result.0 ≡ (node_at (view self.now).device.state.tree level index).output }
        ensures carry { result.1 ≡ (node_at (view self.now).device.state.tree level index).carry };

    /// The clocks since the array was opened; 0 where none is open.
    fn clocks(&self) -> u64
        ensures value { result ≡ (view self.now).device.clocks }
        ensures closed { IsClosed (view self.now).device → result ≡ 0 };

    /// Keeps the state and the clocks in a slot, in place of what it kept (docs/MACHINE.md, "Slots and
    /// work").
    fn save(&mut self, slot: u32)
        requires is_open { IsOpen (view self.old).device }
        requires slot { slot < 4 }
        ensures device { (view self.new).device ≡ (view self.old).device }
        ensures slots { (view self.new).slots ≡ after_save slot (view self.old).device (view self.old).slots }
        ensures four { length (view self.old).slots ≡ 4 }
        ensures work { (view self.new).work ≡ (view self.old).work };

    /// Takes the state, every latch and carry of it, and the clocks from a slot that was saved since
    /// the array was opened.
    fn restore(&mut self, slot: u32)
        requires is_open { IsOpen (view self.old).device }
        requires saved { IsSaved (view self.old).slots slot }
        ensures device { slot_of (view self.old).slots slot ≡ Some (view self.new).device }
        ensures slots { (view self.new).slots ≡ (view self.old).slots }
        ensures work { (view self.new).work ≡ (view self.old).work };

    /// The clocks made since the last `open`, also those that `restore` took back; it stops at the
    /// greatest `u64`.
    fn work(&self) -> u64
        ensures { result ≡ (view self.now).work };
}
