//! Scenes: convex solids by their planes, an expression over them, and what is seen of it.
#![tactic(auto)]

mod limits;
mod pixels;
mod scene;
mod solid;

pub use limits::{
    MAX_BLOCKS, MAX_CONSTANT, MAX_DEPTH_BITS, MAX_FACES, MAX_FRACTION_BITS, MAX_PICTURE_SIZE,
    MAX_PLANES_OF_A_KIND, MAX_SLOPE, MAX_SOLIDS, MAX_WIDE_PICTURE_SIZE,
};
pub use pixels::Pixels;
pub use scene::{Scene, laws_of_scenes};
pub use solid::{Colour, Face, Solid};
