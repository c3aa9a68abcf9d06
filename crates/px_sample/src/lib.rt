//! The sample, the program's own measure of work: its text, and the command `sample`.
#![tactic(auto)]

mod drawing;
mod sample;

pub use drawing::draw_sample;
pub use sample::{laws_of_samples, sample_text};
