//! The text of an expression, both ways: what it says or why it is bad, and how it is printed.
#![tactic(auto)]

mod fault;
mod print;
mod read;
mod scene_version;
mod show;
mod sign;
mod stack;
mod token;

pub use fault::{Cause, LimitKind, LineError, LineFault, SceneFault, TextFault, past};
pub use print::put_expression;
pub use read::{Drafting, read_text};
pub use scene_version::Version;
pub use show::{expression_law, printed_law, read_show};
pub use sign::has_difference;
