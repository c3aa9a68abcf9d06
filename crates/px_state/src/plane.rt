//! A plane of a state by the columns of an array, 64 by 64 bits at once.
ghost use Rattle.std.specs.Prelude.{◌≡◌, ◌≢◌, ◌≤◌, ◌<◌, ◌+◌, ◌*◌, ◌/◌, ◌%◌, ◌^◌, ℕ, get_or, length};
ghost use Rattle.px_num.specs.Bits.{nat_bit};
ghost use Rattle.px_state.specs.Cells.{HasPlane, KeepsOutside, placed};
ghost use Rattle.px_state.specs.Words.{row_words};

use crate::shape::Shape;
use crate::turning::turned_block;
use crate::words::row_words;
use px_num::power;

/// Writes the plane that begins at word `first`, by a row of columns from its column `from` on.
pub(crate) fn write_plane(words: &mut [u64], first: usize, shape: &Shape, row: &[u64], from: usize)
    requires room { first + shape.now.plane ≤ length words.old }
    requires from { from ≤ 2 ^ 9 }
    requires row { (from + 2 ^ shape.now.nx) * 2 ^ shape.now.ny ≤ 64 * length row.now }
    ensures plane { HasPlane shape.now first (placed shape.now row.now from) words.new }
    ensures kept { KeepsOutside first (first + shape.now.plane) words.old words.new }
{
    let each = row_words(shape.nx);
    for b in 0..row_words(shape.ny) * each {
        let block = turned_block(&block_of(row, shape, from, b / each, b % each));
        put_block(words, first, shape, b, &block);
    }
}

/// The bits of 64 columns from column `64 * c` on, in the rows from row `64 * w` on, a column in each word.
#[tactic(auto, using(px_num::proofs::TruthLaws::power_grows))]
fn block_of(row: &[u64], shape: &Shape, from: usize, w: usize, c: usize) -> [u64; 64]
    requires from { from ≤ 2 ^ 9 }
    requires row { (from + 2 ^ shape.now.nx) * 2 ^ shape.now.ny ≤ 64 * length row.now }
    requires rows { 64 * w < 2 ^ shape.now.ny }
    requires columns { c < row_words shape.now.nx }
    ensures { (i j : ℕ) → i < 64 → j < 64 → 64 * w + j < 2 ^ shape.now.ny
        → nat_bit (get_or result i 0) j ≡ placed shape.now row.now from (64 * c + i) (64 * w + j) }
{
    let mut block = [0; 64];
    for i in 0..64 {
        block[i] = column_word(row, shape, from, w, 64 * c + i);
    }
    block
}

/// The bits of column `x` from row `64 * w` on; past the last column 0.
#[inline(always)]
fn column_word(row: &[u64], shape: &Shape, from: usize, w: usize, x: usize) -> u64
    requires from { from ≤ 2 ^ 9 }
    requires row { (from + 2 ^ shape.now.nx) * 2 ^ shape.now.ny ≤ 64 * length row.now }
    requires rows { 64 * w < 2 ^ shape.now.ny }
    requires column { x < 2 ^ 10 }
    ensures { (j : ℕ) → j < 64 → 64 * w + j < 2 ^ shape.now.ny
        → nat_bit result j ≡ placed shape.now row.now from x (64 * w + j) }
{
    if x < power(shape.nx) {
        let place = (from + x) * power(shape.ny) + 64 * w;
        row[place / 64] >> (place % 64)
    } else {
        0
    }
}

/// Puts block `b` of a plane at its place: of the blocks from left to right, and these from row 0 on.
fn put_block(words: &mut [u64], first: usize, shape: &Shape, b: usize, block: &[u64; 64])
    requires room { first + shape.now.plane ≤ length words.old }
    requires block { 64 * (b / row_words shape.now.nx) < 2 ^ shape.now.ny }
    ensures put { (y : ℕ) → y < 2 ^ shape.now.ny → y / 64 ≡ b / row_words shape.now.nx
        → get_or words.new (first + (y * row_words shape.now.nx + b % row_words shape.now.nx)) 0
        ≡ get_or block.now (y % 64) 0 }
    ensures others { (k : ℕ) → ((y : ℕ) → y < 2 ^ shape.now.ny → y / 64 ≡ b / row_words shape.now.nx
        → k ≢ first + (y * row_words shape.now.nx + b % row_words shape.now.nx))
        → get_or words.new k 0 ≡ get_or words.old k 0 }
    ensures length { length words.new ≡ length words.old }
{
    let each = row_words(shape.nx);
    let start = 64 * (b / each);
    for y in start..power(shape.ny).min(start + 64) {
        words[first + (y * each + b % each)] = block[y % 64];
    }
}
