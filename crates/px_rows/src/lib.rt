//! Rows of words, a bit a pixel, and what is done to all bits of a row at once.
#![tactic(auto)]

mod bits;
mod blocks;
mod carries;
mod lanes;
mod row;
mod rows;
mod sides;
mod sums;
mod value_blocks;
mod values;
mod words;

pub use bits::{bit_of_row, part, zero_row};
pub use carries::{Carries, added_bit, bit_of_all};
pub use lanes::{add_constant, constant_words, full_word};
pub use row::Row;
pub use rows::{add_row, choose_row, keep_row, majority_row};
pub use sides::signs;
pub use sums::add_steps_row;
pub use value_blocks::{BLOCK, block_step, block_values};
pub use values::{BITS, add_base, base_of, offset_of, offsets, span, word_values};
pub use words::{all_of, chosen_word, majority_word, turned, xor_word};
