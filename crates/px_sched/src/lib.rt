//! The passes: the operations that draw a scene, one at a time.
#![tactic(auto)]

mod cursor;
mod group;
mod layout;
mod literal;
mod passes;
mod step;
mod step_cursor;

pub use cursor::Cursor;
pub use layout::{Layout, NeedBits};
pub use literal::{Literal, literals};
pub use passes::laws_of_passes;
pub use step::{Step, solid_at};
pub use step_cursor::StepCursor;
