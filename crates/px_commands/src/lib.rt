//! What all commands share: their words, their texts, and what a run comes to.
#![tactic(auto)]

mod command;
mod command_words;
mod cost;
mod note;
mod plan;
mod refusal;
mod sample;
mod status;
mod steps;
mod stop;
mod words;

pub use command::{Command, Size, Work};
pub use command_words::{PIXEL_BITS, WIDE_PIXEL_BITS, command_in, command_of, needs_wide_pixels};
pub use cost::cost_text;
pub use note::{line_of, tell};
pub use plan::plan_text;
pub use refusal::{Kind, READ_LIMIT, Refusal, too_long};
pub use sample::four_lines;
pub use status::Status;
pub use steps::{behind, drawing_of, kept_of, open_job, read_text, scene_in, write_finished};
pub use stop::{SceneStop, Stop, past_limit};
pub use words::{cause_word, list_word, scene_word};
