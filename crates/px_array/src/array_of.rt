//! The array over a grid.
ghost use Rattle.std.specs.Prelude.{◌≡◌, ◌≤◌};
ghost use Rattle.px_array.specs.Slots.{none_open};

use crate::array::Array;
use crate::grid::Grid;
use crate::micro::{Micro, Registers};
use crate::open_array::OpenArray;
use px_num::Memory;
use std::alloc::Global;
use std::marker::Model;

/// An array whose pixels and nodes are kept as a kind of grid keeps them.
#[derive(Drop)]
pub struct ArrayOf<G: Grid> {
    alloc: Global,
    pub array: Option<OpenArray<G>>,
}

impl<G: Grid> Model for ArrayOf<G> {
    ghost use Rattle.std.specs.Prelude.{◌≤◌, unwrap_or};
    ghost use Rattle.px_array.specs.Slots.{ArrayView, none_open};

    ghost Value = { ArrayView };

    ghost view = { λ a. unwrap_or a.array none_open };

    ghost invariant = { λ array. G.BITS ≤ 256 };
}

impl<G: Grid> ArrayOf<G> {
    /// No array is open, and no memory is taken.
    pub fn new(alloc: Global) -> ArrayOf<G>
        requires bits { G.BITS ≤ 256 }
        ensures { result ≡ none_open }
    {
        ArrayOf { alloc, array: None }
    }
}

impl<G: Grid> Array for ArrayOf<G> {
    const BITS: usize = G::BITS;

    ghost BITS = { G.BITS };

    ghost view = { λ array. array };

    fn open(&mut self, nx: u32, ny: u32) -> Result<(), Memory> {
        // The memory of the array before is given back first.
        self.array = None;
        self.array = Some(OpenArray::new(self.alloc, nx, ny)?);
        Ok(())
    }

    fn clock(&mut self, m: Micro) {
        if let Some(array) = &mut self.array {
            array.clock(m);
        }
    }

    fn size(&self) -> (u32, u32) {
        match &self.array {
            Some(array) => array.grid.size(),
            None => (0, 0),
        }
    }

    fn bit(&self, x: u32, y: u32, at: u32) -> bool {
        match &self.array {
            Some(array) => array.grid.bit(x, y, at),
            None => false,
        }
    }

    fn word(&self, at: u32, w: usize) -> u64 {
        match &self.array {
            Some(array) => array.grid.word(at, w),
            None => 0,
        }
    }

    fn registers(&self, x: u32, y: u32) -> Registers {
        match &self.array {
            Some(array) => array.grid.registers(x, y),
            None => Registers {
                enable: false,
                carry: false,
                latch: false,
            },
        }
    }

    fn tree_bit(&self, x: u32, y: u32) -> bool {
        match &self.array {
            Some(array) => array.grid.tree_bit(x, y),
            None => false,
        }
    }

    fn node(&self, level: u32, index: u32) -> (bool, bool) {
        match &self.array {
            Some(array) => array.grid.node(level, index),
            None => (false, false),
        }
    }

    fn clocks(&self) -> u64 {
        match &self.array {
            Some(array) => array.grid.clocks(),
            None => 0,
        }
    }

    fn save(&mut self, slot: u32) {
        if let Some(array) = &mut self.array {
            array.save(slot);
        }
    }

    fn restore(&mut self, slot: u32) {
        if let Some(array) = &mut self.array {
            array.restore(slot);
        }
    }

    fn work(&self) -> u64 {
        match &self.array {
            Some(array) => array.work,
            None => 0,
        }
    }
}
