//! What the program does with a scene: a run from words and bytes to a status.
#![tactic(auto)]

mod debug;
mod law;
mod list;
mod make;
mod play;
mod refine;
mod running;
mod theorem;
mod tile;

pub use debug::debug_input;
pub use law::laws_of_listed_scenes;
pub use make::make_of_input;
pub use play::play_input;
pub use px_commands::{Status, needs_wide_pixels};
pub use px_frame::deliver;
pub use refine::finer_scene;
pub use running::{perform, run};
pub use theorem::law_of_render;
pub use tile::wide_stop;
