//! A debugger: it steps through the broadcasts of a scene, forwards and back, and shows the machine; each command line of
//! an input is answered before more is read.
#![tactic(auto)]

mod command;
mod course;
mod feed;
mod law;
mod machine_text;
mod moves;
mod place_text;
mod serving;
mod session;
mod text;
mod trace;

pub use command::{Command, command_of};
pub use law::laws_of_sessions;
pub use machine_text::{field_answer, pixel_answer, tree_answer};
pub use serving::{Ending, finish_unasked, serve};
pub use session::{Going, Session};
pub use text::{Text, number_line, unknown_line};
pub use trace::trace_text;
