//! An open array: what is clocked, and what its slots keep.
ghost use Rattle.std.specs.Prelude.{◌≡◌, ◌-◌, ◌^◌, ◌<◌, ◌≤◌, IfOk, Some, length};
ghost use Rattle.px_array.specs.Arrays.{opened};
ghost use Rattle.px_array.specs.Clocks.{clocked};
ghost use Rattle.px_array.specs.OpenArrays.{AreEmpty};
ghost use Rattle.px_array.specs.Slots.{ArrayView, IsSaved, after_save, no_slots, slot_of, worked};
ghost use Rattle.px_array.specs.Acts.{HasPlace};
ghost use Rattle.px_tree.specs.Nodes.{IsGrid};

use crate::grid::Grid;
use crate::micro::Micro;
use px_num::Memory;
use std::alloc::Global;
use std::marker::Model;

/// How many slots an array has.
const SLOTS: usize = 4;

/// The grid of an open array, the room of its slots, and its work.
#[derive(Drop)]
pub struct OpenArray<G: Grid> {
    pub grid: G,
    slots: Vec<G::Slot>,
    pub work: u64,
}

impl<G: Grid> Model for OpenArray<G> {
    ghost use Rattle.std.specs.Prelude.{◌≡◌, length};
    ghost use Rattle.px_array.specs.OpenArrays.{HaveRoom, kept_by_slots};
    ghost use Rattle.px_array.specs.Slots.{ArrayView};

    ghost Value = { ArrayView };

    ghost view = { λ a. record {
      device = G.device a.grid;
      slots = kept_by_slots G.held a.slots.items;
      work = a.work;
    } };

    ghost invariant = { λ a. record {
      four : length a.slots.items ≡ 4;
      sizes : HaveRoom G.held (G.device a.grid) a.slots.items;
    } };
}

impl<G: Grid> OpenArray<G> {
    /// All bits, registers and latches 0, and no slot saved.
    pub(crate) fn new(alloc: Global, nx: u32, ny: u32) -> Result<OpenArray<G>, Memory>
        requires bits { G.BITS ≤ 256 }
        requires grid { IsGrid nx ny }
        ensures { IfOk result (λ array.
            array ≡ record { device = opened G.BITS nx ny; slots = no_slots; work = 0 }) }
    {
        let grid = G::new(alloc, nx, ny)?;
        let slots = empty_slots::<G>(alloc, nx, ny)?;
        Ok(OpenArray {
            grid,
            slots,
            work: 0,
        })
    }

    pub(crate) fn clock(&mut self, m: Micro)
        requires place { HasPlace G.BITS m.act }
        requires counted { self.old.device.clocks < 2 ^ 64 - 1 }
        ensures { self.new ≡ record self.old {
          device = clocked m self.old.device;
          work = worked 1 self.old.work;
        } }
    {
        self.grid.clock(m);
        self.work = self.work.saturating_add(1);
    }

    pub(crate) fn save(&mut self, slot: u32)
        requires slot { slot < 4 }
        ensures saved { self.new ≡ record self.old {
          slots = after_save slot self.old.device self.old.slots;
        } }
        ensures four { length self.old.slots ≡ 4 }
    {
        self.grid.save(&mut self.slots[slot as usize]);
    }

    pub(crate) fn restore(&mut self, slot: u32)
        requires saved { IsSaved self.old.slots slot }
        ensures device { slot_of self.old.slots slot ≡ Some self.new.device }
        ensures slots { self.new.slots ≡ self.old.slots }
        ensures work { self.new.work ≡ self.old.work }
    {
        self.grid.restore(&self.slots[slot as usize]);
    }
}

/// The room of all slots.
fn empty_slots<G: Grid>(alloc: Global, nx: u32, ny: u32) -> Result<Vec<G::Slot>, Memory>
    requires bits { G.BITS ≤ 256 }
    requires grid { IsGrid nx ny }
    ensures { IfOk result (λ slots. AreEmpty G.held 4 nx ny slots.items) }
{
    let mut slots = Vec::new(alloc);
    for _ in 0..SLOTS {
        slots.push(G::new_slot(alloc, nx, ny)?)?;
    }
    Ok(slots)
}
