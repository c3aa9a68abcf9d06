//! The state of a scene or of a listing after so many clocks, as data, and what is broadcast to it.
#![tactic(auto)]

mod acting;
mod broadcast;
mod clocks;
mod fault;
mod feeding;
mod micros;
mod nodes;
mod operation;
mod operations;
mod packing;
mod plane;
mod room;
mod running;
mod shape;
mod state;
mod text;
mod turning;
mod whole;
mod words;

pub use clocks::make_clocks;
pub use fault::StateFault;
pub use operation::Operation;
pub use packing::{law_of_packing, law_of_unpacking, packed};
pub use state::{Course, Next, State};
pub use text::is_listing;
pub use whole::{write_micros, write_operations, write_state};
pub use words::{room_of, row_words, write_words};
