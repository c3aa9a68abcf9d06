//! The text of a scene, read: what it says or why it is bad.
#![tactic(auto)]

mod draft;
mod figure;
mod limit;
mod line;
mod parse;
mod printed_line;
mod read;
mod write;

pub use line::{Due, Paint, Plane, Tally};
pub use printed_line::{
    put_bytes, put_colour, put_depth, put_head, put_header, put_line, put_picture, put_plane,
    put_side,
};
pub use px_model::{
    Colour, Face, MAX_BLOCKS, MAX_CONSTANT, MAX_DEPTH_BITS, MAX_FACES, MAX_FRACTION_BITS,
    MAX_PICTURE_SIZE, MAX_PLANES_OF_A_KIND, MAX_SLOPE, MAX_SOLIDS, Scene, Solid, laws_of_scenes,
};
pub use px_show::{Cause, LimitKind, SceneFault, expression_law, printed_law};
pub use px_text::{MAX_TEXT_BYTES, written_law};
pub use read::{laws_of_texts, read_scene};
pub use write::{canonical_law, write_scene};
