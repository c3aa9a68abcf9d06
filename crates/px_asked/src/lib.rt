//! Sources that are asked for bytes in the sight of a sink; and input that is a scene part, and lines behind it.
#![tactic(auto)]

mod asks;
mod end_line;
mod law;
mod part;
mod reading;
mod search;
mod telling;

pub use asks::Asks;
pub use law::laws_of_parts;
pub use part::part_end;
pub use reading::{Opening, read_part};
pub use telling::{Note, TellingSource};
