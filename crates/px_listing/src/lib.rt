//! Listings: broadcasts as text, both ways, what an array leaves of them, and the passes of a scene as one.
#![tactic(auto)]

mod draft;
mod judge;
mod keyword;
mod kind;
mod law;
mod limit;
mod line;
mod listing;
mod memory;
mod numbers;
mod passes;
mod piece;
mod playing;
mod read;
mod write;

pub use kind::{kind_number, operands_of};
pub use law::{laws_of_listings, laws_of_playing};
pub use limit::ListKind;
pub use line::Line;
pub use listing::{Listing, MAX_OPERATIONS};
pub use memory::write_memory;
pub use passes::write_passes;
pub use piece::{PIECE_BYTES, Piece, flush, put};
pub use playing::play;
pub use read::{ListFault, read_listing};
pub use write::{macro_line, put_end, put_first_lines, write_listing};
