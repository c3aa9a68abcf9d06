//! The pixels and what an act does to one; and the array that is clocked: a pixel for each place of a grid, under the multiplier tree.
#![tactic(auto)]

mod act;
mod array;
mod array_of;
mod clocking;
mod grid;
mod memory;
mod micro;
mod open_array;
mod pixel;
mod pixel_grid;
mod row_grid;

pub use act::Act;
pub use array::Array;
pub use array_of::ArrayOf;
pub use clocking::{clock_all, clock_both};
pub use grid::{Grid, move_tree};
pub use memory::PixelMemory;
pub use micro::{Micro, Registers, TreeOp};
pub use open_array::OpenArray;
pub use pixel::Pixel;
pub use pixel_grid::{PixelArray, PixelGrid};
pub use row_grid::RowGrid;
