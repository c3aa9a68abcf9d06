//! The state of an array as words.
ghost use Rattle.std.specs.Prelude.{◌≡◌, ℕ, ◌+◌, ◌*◌, ◌^◌, ◌<◌, ◌≤◌, length};
ghost use Rattle.px_num.specs.Bits.{bit_at};
ghost use Rattle.px_array.specs.Arrays.{IsOpen};
ghost use Rattle.px_tree.specs.Nodes.{IsGrid};
ghost use Rattle.px_state.specs.Cells.{HasPlane, IsShapeOf, KeepsOutside, pixel_here};
ghost use Rattle.px_state.specs.Words.{BeginsWithState, node_words, plane_words, room_of, row_words};

use crate::nodes::{write_leaves, write_nodes};
use crate::plane::write_plane;
use crate::shape::Shape;
use px_array::{Grid, RowGrid};
use px_num::power;
use px_planes::{PlaneArray, PlaneGrid};

/// How many words a state of an array has: of a grid of `2^nx` by `2^ny` pixels with so many memory
/// bits.
pub fn room_of(bits: usize, nx: u32, ny: u32) -> usize
    requires bits { bits ≤ 256 }
    requires grid { IsGrid nx ny }
    ensures { result ≡ room_of bits nx ny }
{
    (bits + 4) * plane_words(nx, ny) + 2 * node_words(nx, ny)
}

/// How many words a row of a grid of `2^nx` columns has.
pub fn row_words(nx: u32) -> usize
    requires { nx ≤ 9 }
    ensures words { result ≡ row_words nx }
    ensures some { 1 ≤ result }
    ensures few { result ≤ 8 }
{
    power(nx).div_ceil(64)
}

#[tactic(auto, using(crate::proofs::ShapeLemmas::few_words))]
pub(crate) fn plane_words(nx: u32, ny: u32) -> usize
    requires grid { IsGrid nx ny }
    ensures words { result ≡ plane_words nx ny }
    ensures few { result ≤ 2 ^ 12 }
{
    power(ny) * row_words(nx)
}

pub(crate) fn node_words(nx: u32, ny: u32) -> usize
    requires grid { IsGrid nx ny }
    ensures words { result ≡ node_words nx ny }
    ensures few { result ≤ 2 ^ 13 }
{
    power(nx + ny + 1).div_ceil(64)
}

/// Writes the state of an array to the front of a list of words, which has room for it
/// (specs/Words.antt has the order).
pub fn write_words<const N: usize>(array: &PlaneArray<N>, words: &mut [u64])
    requires is_open { IsOpen array.now.device }
    requires bits { N ≤ 256 }
    requires room { room_of N array.now.device.state.tree.nx array.now.device.state.tree.ny ≤ length words.old }
    ensures words { BeginsWithState N array.now.device.state words.old words.new }
    ensures length { length words.new ≡ length words.old }
{
    if let Some(open) = &array.array {
        write_grid(words, &open.grid);
    }
}

/// Writes the state of a grid.
fn write_grid<const N: usize>(words: &mut [u64], grid: &PlaneGrid<N>)
    requires bits { N ≤ 256 }
    requires room { room_of N grid.now.state.tree.nx grid.now.state.tree.ny ≤ length words.old }
    ensures words { BeginsWithState N grid.now.state words.old words.new }
    ensures length { length words.new ≡ length words.old }
{
    let (nx, ny) = grid.size();
    let shape = Shape::of(N, nx, ny);
    let (enable, carry, latch) = grid.register_rows();
    let (outputs, carries) = grid.nodes();
    write_memory(words, &shape, grid);
    write_plane(words, shape.bits * shape.plane, &shape, enable, 0);
    write_plane(words, (shape.bits + 1) * shape.plane, &shape, carry, 0);
    write_plane(words, (shape.bits + 2) * shape.plane, &shape, latch, 0);
    write_nodes(words, &shape, outputs, carries);
    write_leaves(words, &shape);
}

/// Writes the planes of memory.
fn write_memory<const N: usize>(words: &mut [u64], shape: &Shape, grid: &PlaneGrid<N>)
    requires bits { shape.now.bits ≡ N }
    requires size { IsShapeOf shape.now grid.now.state.tree }
    requires room { shape.now.bits * shape.now.plane ≤ length words.old }
    ensures memory { (b : ℕ) → b < shape.now.bits → HasPlane shape.now (b * shape.now.plane)
        (λ x y. bit_at (pixel_here shape.now grid.now.state.pixels x y).memory b) words.new }
    ensures kept { KeepsOutside 0 (shape.now.bits * shape.now.plane) words.old words.new }
{
    for at in 0..shape.bits {
        write_plane(words, at * shape.plane, shape, grid.row(at as u32), 0);
    }
}
