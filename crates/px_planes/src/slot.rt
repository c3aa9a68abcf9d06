//! What a slot keeps of a grid of planes.
ghost use Rattle.std.specs.Prelude.{◌≡◌, ◌+◌, ◌*◌, ◌<◌, ◌≤◌, ℕ, [], length, slice_index_or};
ghost use Rattle.px_planes.specs.Pixels.{HasWords};
ghost use Rattle.px_planes.specs.Shelves.{AreShelved, IsShelved};

use crate::planes::Planes;
use crate::shelf::Shelf;
use px_plane_tree::PlaneTree;
use px_rows::Row;
use std::marker::Model;

/// Room for the rows of a grid, its tree and its clocks, and whether it keeps anything.
#[derive(Drop)]
pub struct Slot<const N: usize> {
    pub(crate) shelf: Shelf,
    pub(crate) tree: PlaneTree,
    pub(crate) clocks: u64,
    pub(crate) is_saved: bool,
}

impl<const N: usize> Model for Slot<N> {
    ghost use Rattle.std.specs.Prelude.{◌≡◌, ◌≤◌, ◌+◌, ◌*◌, ◌^◌, true, None, Some, if◌then◌else◌};
    ghost use Rattle.px_rows.specs.Rows.{words_for};
    ghost use Rattle.px_array.specs.Slots.{SlotView};
    ghost use Rattle.px_planes.specs.Shelves.{IsFilled, device_on};
    ghost use Rattle.px_tree.specs.Nodes.{IsGrid};

    ghost Value = { SlotView };

    ghost view = { λ s. record {
      nx = s.tree.nx;
      ny = s.tree.ny;
      kept = if s.is_saved then Some (device_on N s.tree s.shelf.words s.clocks) else None;
    } };

    ghost invariant = { λ s. record {
      bits : N ≤ 256;
      grid : IsGrid s.tree.nx s.tree.ny;
      room : s.shelf.room ≡ (N + 3) * words_for (2 ^ (s.tree.nx + s.tree.ny));
      filled : s.is_saved ≡ true → IsFilled N (2 ^ (s.tree.nx + s.tree.ny)) s.shelf.words;
    } };
}

/// Keeps the rows of planes, one behind another.
pub(crate) fn keep_planes(shelf: &mut Shelf, planes: &Planes)
    requires words { HasWords (length planes.now.enable) planes.now }
    requires room { (length planes.now.memory.items + 3) * length planes.now.enable ≤ shelf.old.room }
    ensures kept { IsShelved (length planes.now.memory.items)
        (length planes.now.enable) planes.now shelf.new.words }
    ensures room { shelf.new.room ≡ shelf.old.room }
{
    shelf.clear();
    push_rows(shelf, &planes.memory, planes.enable.words().len());
    shelf.push(planes.enable.words());
    shelf.push(planes.carry.words());
    shelf.push(planes.latch.words());
}

/// Puts rows of so many words each on an empty shelf.
fn push_rows(shelf: &mut Shelf, rows: &[Row], words: usize)
    requires empty { shelf.old.words ≡ [] }
    requires words { (at : ℕ) → at < length rows.now → length (slice_index_or rows.now at [])
        ≡ words }
    requires room { length rows.now * words ≤ shelf.old.room }
    ensures room { shelf.new.room ≡ shelf.old.room }
    ensures long { length shelf.new.words ≡ length rows.now * words }
    ensures rows { AreShelved words (length rows.now) rows.now shelf.new.words }
{
    for at in 0..rows.len() {
        shelf.push(rows[at].words());
    }
}

/// Takes the rows that were kept.
pub(crate) fn take_planes(planes: &mut Planes, shelf: &Shelf)
    requires words { HasWords (length planes.old.enable) planes.old }
    requires long { length shelf.now.words
        ≡ (length planes.old.memory.items + 3) * length planes.old.enable }
    ensures kept { IsShelved (length planes.old.memory.items)
        (length planes.old.enable) planes.new shelf.now.words }
    ensures words { HasWords (length planes.old.enable) planes.new }
    ensures memory { length planes.new.memory.items ≡ length planes.old.memory.items }
    ensures full { planes.new.full ≡ planes.old.full }
{
    let words = planes.enable.words().len();
    let bits = planes.memory.len();
    take_rows(&mut planes.memory, shelf, words);
    planes.enable.copy(shelf.row(bits, words));
    planes.carry.copy(shelf.row(bits + 1, words));
    planes.latch.copy(shelf.row(bits + 2, words));
}

/// Makes rows of so many words each be the first on a shelf.
fn take_rows(rows: &mut [Row], shelf: &Shelf, words: usize)
    requires words { (at : ℕ) → at < length rows.old → length (slice_index_or rows.old at [])
        ≡ words }
    requires long { length rows.old * words ≤ length shelf.now.words }
    ensures rows { AreShelved words (length rows.old) rows.new shelf.now.words }
    ensures words { (at : ℕ) → at < length rows.old → length (slice_index_or rows.new at [])
        ≡ words }
{
    for at in 0..rows.len() {
        rows[at].copy(shelf.row(at, words));
    }
}
