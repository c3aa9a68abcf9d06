//! Pictures wider than the array: a scene's tiles, and the wide picture that they make up.
#![tactic(auto)]

mod crowd;
mod draw;
mod fault;
mod image;
mod law;
mod render;
mod tile;
mod tiling;

pub use draw::{MAX_TILES, check_tiles, render_tiles};
pub use fault::{TileFault, WideFault};
pub use image::write_wide;
pub use law::laws_of_tiles;
pub use px_model::MAX_WIDE_PICTURE_SIZE;
pub use render::render_tile;
pub use tile::tile_scene;
