//! Texts of lines and words: how they are cut, which words are numbers and names, and how they are written.
#![tactic(auto)]

mod cut;
mod few;
mod line;
mod text;
mod word;
mod written;

pub use cut::{before_comment, is_blank, is_word, without_last_feed};
pub use few::few_words;
pub use line::Line;
pub use text::{MAX_TEXT_BYTES, lines_of, words_of};
pub use word::{is_name, is_name_byte, number_of, size_of};
pub use written::written_law;
