//! Grids that keep a memory bit of 64 pixels in a word.
ghost use Rattle.std.specs.Prelude.{◌≡◌, ◌<◌, ◌^◌, length};
ghost use Rattle.px_array.specs.Arrays.{IsOpen, levels_of};
ghost use Rattle.px_array.specs.Words.{memory_bit};
ghost use Rattle.px_rows.specs.Rows.{EachBit, words_for};

use crate::array_of::ArrayOf;
use crate::grid::Grid;

/// A grid that has a row of words for each memory bit.
pub trait RowGrid: Grid {
    /// The words of memory bit `at`.
    fn row(&self, at: u32) -> &[u64]
        requires place { at < Self.BITS }
        ensures words { length result.now ≡ words_for (2 ^ levels_of (Self.device self.now).state.tree) }
        ensures bits { EachBit result.now (memory_bit (Self.device self.now).state at) };
}

impl<G: RowGrid> ArrayOf<G> {
    /// The words of memory bit `at`.
    ///
    /// Bit `p mod 64` of word `p div 64` is that of the pixel at place `p`, which is the pixel
    /// `(p div 2^ny, p mod 2^ny)`, and the bits past the last pixel are 0.
    pub fn row(&self, at: u32) -> &[u64]
        requires is_open { IsOpen self.now.device }
        requires place { at < G.BITS }
        ensures words { length result.now ≡ words_for (2 ^ levels_of self.now.device.state.tree) }
        ensures bits { EachBit result.now (memory_bit self.now.device.state at) }
    {
        match &self.array {
            Some(array) => array.grid.row(at),
            None => &[],
        }
    }
}
