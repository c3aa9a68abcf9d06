//! The grid with 64 pixels in a word.
ghost use Rattle.std.specs.Prelude.{◌≡◌, ◌+◌, ◌^◌, ◌<◌, IfOk, replicate};
ghost use Rattle.std.specs.Bool.{OnTrue};
ghost use Rattle.px_array.specs.Clocks.{acted};
ghost use Rattle.px_array.specs.Acts.{HasPlace};
ghost use Rattle.px_array.specs.Pixels.{zero_pixel};
ghost use Rattle.px_plane_tree.specs.Lent.{IsLatch};
ghost use Rattle.px_planes.specs.Lent.{IsRegister};
ghost use Rattle.px_planes.specs.Operations.{IsCrowd};
ghost use Rattle.px_planes.specs.Pixels.{HasPixels, pixels_in};
ghost use Rattle.px_tree.specs.Nodes.{IsGrid};

use crate::acts::act_planes;
use crate::operating::{is_without_form, operate_planes};
use crate::planes::Planes;
use crate::reach::{Reach, is_crowd, whole};
use crate::shelf::Shelf;
use crate::slot::{Slot, keep_planes, take_planes};
use px_array::{Act, ArrayOf, Grid, Micro, Registers, RowGrid, move_tree};
use px_asm::{OperatingGrid, cycles};
use px_macro::Macro;
use px_num::{Memory, power};
use px_plane_tree::PlaneTree;
use px_rows::full_word;
use px_tree::{Tree, leaf_index};
use std::alloc::Global;
use std::marker::Model;

/// An array of pixels of N bits, for N from 1 to 256: a row of words for each memory bit and each
/// register, and a `PlaneTree`.
pub type PlaneArray<const N: usize> = ArrayOf<PlaneGrid<N>>;

/// The planes of an open array, whose pixel `(x, y)` stands at place `x * 2^ny + y`, and the tree
/// over them. No pixel is enabled outside the words of `reach`.
#[derive(Drop)]
pub struct PlaneGrid<const N: usize> {
    pub(crate) planes: Planes,
    pub(crate) tree: PlaneTree,
    pub(crate) clocks: u64,
    pub(crate) reach: Reach,
}

impl<const N: usize> Model for PlaneGrid<N> {
    ghost use Rattle.std.specs.Prelude.{◌≤◌, ◌+◌, ◌^◌};
    ghost use Rattle.px_array.specs.Arrays.{Device};
    ghost use Rattle.px_planes.specs.Operations.{IsReach};
    ghost use Rattle.px_planes.specs.Pixels.{HasPixels, pixels_in};
    ghost use Rattle.px_tree.specs.Nodes.{IsGrid};

    ghost Value = { Device };

    ghost view = { λ g. record {
      state = record { pixels = pixels_in (2 ^ (g.tree.nx + g.tree.ny)) g.planes; tree = g.tree };
      clocks = g.clocks;
    } };

    ghost invariant = { λ g. record {
      bits : N ≤ 256;
      grid : IsGrid g.tree.nx g.tree.ny;
      pixels : HasPixels N (2 ^ (g.tree.nx + g.tree.ny)) g.planes;
      reach : IsReach g.reach g.planes;
    } };
}

impl<const N: usize> Grid for PlaneGrid<N> {
    const BITS: usize = N;

    type Slot = Slot<N>;

    ghost BITS = { N };

    ghost device = { λ grid. grid };

    ghost held = { λ slot. slot };

    fn new(alloc: Global, nx: u32, ny: u32) -> Result<PlaneGrid<N>, Memory> {
        let tree = PlaneTree::new(alloc, nx, ny)?;
        let planes = zero_planes::<N>(alloc, nx, ny)?;
        let reach = whole(&planes);
        Ok(PlaneGrid {
            planes,
            tree,
            clocks: 0,
            reach,
        })
    }

    fn new_slot(alloc: Global, nx: u32, ny: u32) -> Result<Slot<N>, Memory> {
        let words = (power(nx + ny) + 63) / 64;
        let shelf = Shelf::new(alloc, (N + 3) * words)?;
        let tree = PlaneTree::new(alloc, nx, ny)?;
        Ok(Slot {
            shelf,
            tree,
            clocks: 0,
            is_saved: false,
        })
    }

    fn clock(&mut self, m: Micro) {
        // The pixels come first, since their leaf bits are those from before the clock.
        act_all::<N>(&mut self.planes, &self.tree, m.act);
        self.reach = whole(&self.planes);
        move_tree(&mut self.tree, m.tree);
        self.clocks += 1;
    }

    #[tactic(auto, using(crate::proofs::ShelfLemmas::filled_by, crate::proofs::ShelfLemmas::pixels_kept))]
    fn save(&self, slot: &mut Slot<N>) {
        keep_planes(&mut slot.shelf, &self.planes);
        slot.tree.copy_from(&self.tree);
        slot.clocks = self.clocks;
        slot.is_saved = true;
    }

    #[tactic(auto, using(crate::proofs::ShelfLemmas::saved_flag, crate::proofs::ShelfLemmas::pixels_kept, crate::proofs::ShelfLemmas::pixels_taken))]
    fn restore(&mut self, slot: &Slot<N>) {
        take_planes(&mut self.planes, &slot.shelf);
        self.reach = whole(&self.planes);
        self.tree.copy_from(&slot.tree);
        self.clocks = slot.clocks;
    }

    fn size(&self) -> (u32, u32) {
        self.tree.size()
    }

    fn bit(&self, x: u32, y: u32, at: u32) -> bool {
        let (nx, ny) = self.tree.size();
        self.planes.memory[at as usize].bit(leaf_index(nx, ny, x, y))
    }

    fn word(&self, at: u32, w: usize) -> u64 {
        self.planes.memory[at as usize].word(w)
    }

    #[tactic(auto, using(crate::proofs::GridLemmas::registers_law))]
    fn registers(&self, x: u32, y: u32) -> Registers {
        let (nx, ny) = self.tree.size();
        let place = leaf_index(nx, ny, x, y);
        Registers {
            enable: self.planes.enable.bit(place),
            carry: self.planes.carry.bit(place),
            latch: self.planes.latch.bit(place),
        }
    }

    fn tree_bit(&self, x: u32, y: u32) -> bool {
        self.tree.leaf(x, y)
    }

    fn node(&self, level: u32, index: u32) -> (bool, bool) {
        self.tree.node(level, index)
    }

    fn clocks(&self) -> u64 {
        self.clocks
    }
}

impl<const N: usize> PlaneGrid<N> {
    /// The words of enable, of carry and of the latch, each pixel at its place.
    pub fn register_rows(&self) -> (&[u64], &[u64], &[u64])
        ensures enable { IsRegister self.now.state (λ p. p.enable) result.0.now }
        ensures carry { IsRegister self.now.state (λ p. p.carry) result.1.now }
        ensures latch { IsRegister self.now.state (λ p. p.latch) result.2.now }
    {
        let planes = &self.planes;
        (
            planes.enable.words(),
            planes.carry.words(),
            planes.latch.words(),
        )
    }

    /// The words of the outputs of all nodes, and those of their carries, each node at its place.
    pub fn nodes(&self) -> (&[u64], &[u64])
        ensures outputs { IsLatch self.now.state.tree (λ n. n.output) result.0.now }
        ensures carries { IsLatch self.now.state.tree (λ n. n.carry) result.1.now }
    {
        self.tree.nodes()
    }
}

impl<const N: usize> RowGrid for PlaneGrid<N> {
    fn row(&self, at: u32) -> &[u64] {
        self.planes.memory[at as usize].words()
    }
}

impl<const N: usize> OperatingGrid for PlaneGrid<N> {
    fn try_operate(&mut self, m: &Macro) -> bool {
        if is_faster_by_clocks(&self.planes, self.reach, m) {
            return false;
        }
        let (nx, ny) = self.tree.size();
        self.reach = operate_planes::<N>(&mut self.planes, self.reach, m, nx, ny);
        self.clocks += u64::from(cycles(m, nx, ny));
        true
    }
}

/// Whether the clocks of an operation are faster than the operation at once.
fn is_faster_by_clocks(planes: &Planes, reach: Reach, m: &Macro) -> bool
    ensures { OnTrue result (IsCrowd planes.now) }
{
    is_without_form(m) && is_crowd(planes, reach)
}

/// Rows of 0 for the pixels of a grid.
#[tactic(auto, using(crate::proofs::GridLemmas::whole_words, crate::proofs::GridLemmas::zero_law, crate::proofs::GridLemmas::zero_pixels, px_plane_tree::proofs::LevelLemmas::power_some))]
fn zero_planes<const N: usize>(alloc: Global, nx: u32, ny: u32) -> Result<Planes, Memory>
    requires { IsGrid nx ny }
    ensures zero { IfOk result (λ planes. pixels_in (2 ^ (nx + ny)) planes
        ≡ replicate (2 ^ (nx + ny)) (zero_pixel N)) }
    ensures pixels { IfOk result (λ planes. HasPixels N (2 ^ (nx + ny)) planes) }
{
    let pixels = power(nx + ny);
    let planes = Planes::zero(alloc, N, (pixels + 63) / 64, full_word(pixels))?;
    Ok(planes)
}

/// Makes every pixel do the act, by its leaf's bit.
fn act_all<const N: usize>(planes: &mut Planes, tree: &PlaneTree, act: Act)
    requires place { HasPlace N act }
    requires pixels { HasPixels N (2 ^ (tree.now.nx + tree.now.ny)) planes.old }
    ensures acted { pixels_in (2 ^ (tree.now.nx + tree.now.ny)) planes.new
        ≡ acted act tree.now (pixels_in (2 ^ (tree.now.nx + tree.now.ny)) planes.old) }
    ensures pixels { HasPixels N (2 ^ (tree.now.nx + tree.now.ny)) planes.new }
{
    let (nx, ny) = tree.size();
    act_planes(planes, tree.outputs(nx + ny), act);
}
