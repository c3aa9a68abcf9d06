//! The operations that are broadcast to all pixels, and what each means on the numbers of one pixel.
#![tactic(auto)]

mod field;
mod limits;
mod operation;

pub use field::{Field, laws_of_fields};
pub use limits::lawful;
pub use operation::{Macro, laws_of_operations};
