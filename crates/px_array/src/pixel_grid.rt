//! The grid that keeps its pixels one by one.
ghost use Rattle.std.specs.Prelude.{◌≡◌, ◌+◌, ◌*◌, ◌^◌, ◌<◌, ◌≤◌, None, Some, if◌then◌else◌, length};
ghost use Rattle.px_array.specs.Acts.{HasPlace};
ghost use Rattle.px_tree.specs.Nodes.{IsGrid, leaf_output};
ghost use Rattle.px_array.specs.Clocks.{acted};
ghost use Rattle.px_array.specs.Words.{memory_bit};

use crate::array_of::ArrayOf;
use crate::grid::{Grid, move_tree};
use crate::micro::{Micro, Registers};
use crate::{Act, Pixel};
use px_num::{Memory, power};
use px_tree::{NodeTree, Tree, leaf_index};
use std::alloc::Global;
use std::marker::Model;

/// An array of pixels of N bits, for N from 1 to 256: a `Pixel` for each pixel, and a `NodeTree`.
pub type PixelArray<const N: usize> = ArrayOf<PixelGrid<N>>;

/// The pixels of an open array, pixel `(x, y)` at place `x * 2^ny + y`, and the tree over them.
#[derive(Drop)]
pub struct PixelGrid<const N: usize> {
    pixels: Vec<Pixel<N>>,
    tree: NodeTree,
    clocks: u64,
}

/// Room for what a slot keeps, and whether it keeps anything.
#[derive(Drop)]
pub struct Slot<const N: usize> {
    grid: PixelGrid<N>,
    is_saved: bool,
}

impl<const N: usize> Model for PixelGrid<N> {
    ghost use Rattle.std.specs.Prelude.{◌≡◌, ◌≤◌, ◌+◌, ◌^◌, length};
    ghost use Rattle.px_tree.specs.Nodes.{IsGrid};
    ghost use Rattle.px_array.specs.Arrays.{Device};

    ghost Value = { Device };

    ghost view = { λ g. record {
      state = record { pixels = g.pixels.items; tree = g.tree };
      clocks = g.clocks;
    } };

    ghost invariant = { λ g. record {
      bits : N ≤ 256;
      grid : IsGrid g.tree.nx g.tree.ny;
      whole : length g.pixels.items ≡ 2 ^ (g.tree.nx + g.tree.ny);
    } };
}

impl<const N: usize> Grid for PixelGrid<N> {
    const BITS: usize = N;

    type Slot = Slot<N>;

    ghost BITS = { N };

    ghost device = { λ grid. grid };

    ghost held = { λ s. record {
      nx = s.grid.state.tree.nx;
      ny = s.grid.state.tree.ny;
      kept = if s.is_saved then Some s.grid else None;
    } };

    fn new(alloc: Global, nx: u32, ny: u32) -> Result<PixelGrid<N>, Memory> {
        let tree = NodeTree::new(alloc, nx, ny)?;
        let pixels = vec![in alloc; Pixel::zero(); power(nx + ny)]?;
        Ok(PixelGrid {
            pixels,
            tree,
            clocks: 0,
        })
    }

    fn new_slot(alloc: Global, nx: u32, ny: u32) -> Result<Slot<N>, Memory> {
        Ok(Slot {
            grid: PixelGrid::new(alloc, nx, ny)?,
            is_saved: false,
        })
    }

    fn clock(&mut self, m: Micro) {
        // The pixels come first, since their leaf bits are those from before the clock.
        act_all(&mut self.pixels, &self.tree, m.act);
        move_tree(&mut self.tree, m.tree);
        self.clocks += 1;
    }

    fn save(&self, slot: &mut Slot<N>) {
        slot.grid.copy_from(self);
        slot.is_saved = true;
    }

    fn restore(&mut self, slot: &Slot<N>) {
        self.copy_from(&slot.grid);
    }

    fn size(&self) -> (u32, u32) {
        self.tree.size()
    }

    fn bit(&self, x: u32, y: u32, at: u32) -> bool {
        let (nx, ny) = self.tree.size();
        self.pixels[leaf_index(nx, ny, x, y)].memory.get(at)
    }

    fn word(&self, at: u32, w: usize) -> u64 {
        let mut word = 0;
        for i in 0..64 {
            if self.bit_of_word(at, w, i) {
                word |= 1 << i;
            }
        }
        word
    }

    fn registers(&self, x: u32, y: u32) -> Registers {
        let (nx, ny) = self.tree.size();
        Registers::of(&self.pixels[leaf_index(nx, ny, x, y)])
    }

    fn tree_bit(&self, x: u32, y: u32) -> bool {
        self.tree.leaf(x, y)
    }

    fn node(&self, level: u32, index: u32) -> (bool, bool) {
        self.tree.node(level, index)
    }

    fn clocks(&self) -> u64 {
        self.clocks
    }
}

impl<const N: usize> PixelGrid<N> {
    /// Takes the state and the clocks of another grid of the same size.
    fn copy_from(&mut self, other: &PixelGrid<N>)
        requires columns { self.old.state.tree.nx ≡ other.now.state.tree.nx }
        requires rows { self.old.state.tree.ny ≡ other.now.state.tree.ny }
        ensures { self.new ≡ other.now }
    {
        self.pixels.copy_from_slice(&other.pixels);
        self.tree.copy_from(&other.tree);
        self.clocks = other.clocks;
    }

    /// Bit `i` of a word.
    fn bit_of_word(&self, at: u32, w: usize, i: usize) -> bool
        requires place { at < N }
        requires word { 64 * w < 2 ^ (self.now.state.tree.nx + self.now.state.tree.ny) }
        requires bit { i < 64 }
        ensures { result ≡ memory_bit self.now.state at (64 * w + i) }
    {
        let pixels = self.pixels.len();
        let place = 64 * w + i;
        place < pixels && self.pixels[place].memory.get(at)
    }
}

/// Makes every pixel do the act, by its leaf's bit.
fn act_all<const N: usize>(pixels: &mut [Pixel<N>], tree: &NodeTree, act: Act)
    requires bits { N ≤ 256 }
    requires place { HasPlace N act }
    requires whole { length pixels.old ≡ 2 ^ (tree.now.nx + tree.now.ny) }
    ensures { pixels.new ≡ acted act tree.now pixels.old }
{
    let (nx, ny) = tree.size();
    for place in 0..pixels.len() {
        let bit = leaf_at(tree, nx + ny, place);
        pixels[place].act(act, bit);
    }
}

/// The output of the leaf over the pixel at a place.
fn leaf_at(tree: &NodeTree, levels: u32, place: usize) -> bool
    requires levels { levels ≡ tree.now.nx + tree.now.ny }
    requires grid { IsGrid tree.now.nx tree.now.ny }
    requires place { place < 2 ^ levels }
    ensures { result ≡ leaf_output tree.now place }
{
    tree.node(levels, place as u32).0
}
