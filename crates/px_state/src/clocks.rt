//! Clocks of a state where its words stand.
ghost use Rattle.std.specs.Prelude.{◌≡◌, ◌≤◌, ◌<◌, None, Some, IfErr, OnErr, OnOk, length};
ghost use Rattle.px_array.specs.Clocks.{acted, after_clock};
ghost use Rattle.px_array.specs.Arrays.{HasGrid, State};
ghost use Rattle.px_tree.specs.Nodes.{IsGrid};
ghost use Rattle.px_state.specs.Cells.{HoldsNodes, HoldsPixels, HoldsPixelsAndNodes, KeepsOutside, nodes_at, nodes_end};
ghost use Rattle.px_state.specs.Clocking.{AreClocked, first_stray};
ghost use Rattle.px_state.specs.Packing.{memory_place};
ghost use Rattle.px_state.specs.Words.{room_of};

use crate::acting::act_all;
use crate::nodes::{move_nodes, write_leaves};
use crate::packing::{is_micro, micro_in};
use crate::shape::Shape;
use px_array::{Act, Micro};

/// Makes a clock of each micro on the state of `2^nx` by `2^ny` pixels of so many memory bits that is
/// in the words.
///
/// Each micro is packed into a word. The first that is none, or that names a place past the memory, is
/// the error, and then no clock is made.
pub fn make_clocks(
    words: &mut [u64],
    bits: usize,
    nx: u32,
    ny: u32,
    micros: &[u64],
) -> Result<(), usize>
    requires some { 1 ≤ bits }
    requires bits { bits ≤ 256 }
    requires grid { IsGrid nx ny }
    requires room { room_of bits nx ny ≤ length words.old }
    ensures clocked { OnOk result (AreClocked bits nx ny micros.now words.old words.new) }
    ensures all { OnOk result (first_stray bits micros.now ≡ None) }
    ensures stray { IfErr result (λ k. first_stray bits micros.now ≡ Some k) }
    ensures kept { OnErr result (words.new ≡ words.old) }
    ensures length { length words.new ≡ length words.old }
{
    match first_stray(micros, bits) {
        Some(stray) => Err(stray),
        None => {
            clock_all(words, &Shape::of(bits, nx, ny), micros);
            Ok(())
        }
    }
}

/// Makes a clock of each micro, of which each word is one. The plane of leaves is written once after them.
#[tactic(auto, using(crate::proofs::ClockedLemmas::one_more))]
fn clock_all(words: &mut [u64], shape: &Shape, micros: &[u64])
    requires some { 1 ≤ shape.now.bits }
    requires room { nodes_end shape.now ≤ length words.old }
    requires all { first_stray shape.now.bits micros.now ≡ None }
    ensures clocked { AreClocked shape.now.bits shape.now.nx shape.now.ny micros.now words.old words.new }
    ensures length { length words.new ≡ length words.old }
{
    for word in micros {
        clock(words, shape, &micro_in(*word));
    }
    write_leaves(words, shape);
}

/// The first word that is no micro for pixels of so many memory bits.
fn first_stray(micros: &[u64], bits: usize) -> Option<usize>
    ensures { result ≡ first_stray bits micros.now }
{
    micros.iter().position(|word| !is_micro(*word, bits))
}

/// One clock, of which the plane of leaves is not written.
fn clock(words: &mut [u64], shape: &Shape, m: &Micro)
    requires place { memory_place m.now.act < shape.now.bits }
    requires room { nodes_end shape.now ≤ length words.old }
    ensures clocked { (s : State) → HoldsPixelsAndNodes shape.now s words.old
        → HoldsPixelsAndNodes shape.now (after_clock m.now s) words.new }
    ensures kept { KeepsOutside 0 (nodes_end shape.now) words.old words.new }
{
    act_by_nodes(words, shape, &m.act);
    move_nodes(words, shape, m.tree);
}

/// Makes every pixel do an act, by the nodes. Most acts of an operation are `nop`, for which no leaf is written.
fn act_by_nodes(words: &mut [u64], shape: &Shape, act: &Act)
    requires place { memory_place act.now < shape.now.bits }
    requires room { nodes_end shape.now ≤ length words.old }
    ensures pixels { (s : State) → HasGrid shape.now.bits shape.now.nx shape.now.ny s
        → HoldsPixels shape.now s.pixels words.old → HoldsNodes shape.now s.tree words.old
        → HoldsPixels shape.now (acted act.now s.tree s.pixels) words.new }
    ensures kept { KeepsOutside 0 (nodes_at shape.now) words.old words.new }
{
    match act {
        Act::Nop => {}
        _ => act_by_leaves(words, shape, act),
    }
}

/// Writes the plane of leaves, and makes every pixel do an act by them.
fn act_by_leaves(words: &mut [u64], shape: &Shape, act: &Act)
    requires place { memory_place act.now < shape.now.bits }
    requires room { nodes_end shape.now ≤ length words.old }
    ensures pixels { (s : State) → HasGrid shape.now.bits shape.now.nx shape.now.ny s
        → HoldsPixels shape.now s.pixels words.old → HoldsNodes shape.now s.tree words.old
        → HoldsPixels shape.now (acted act.now s.tree s.pixels) words.new }
    ensures kept { KeepsOutside 0 (nodes_at shape.now) words.old words.new }
{
    write_leaves(words, shape);
    act_all(words, shape, act);
}
