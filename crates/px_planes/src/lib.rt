//! The array that keeps 64 pixels in a word.
#![tactic(auto)]

mod acts;
mod edges;
mod law;
mod operating;
mod plane_grid;
mod planes;
mod reach;
mod row_operations;
mod shelf;
mod slot;
mod strips;
mod word_acts;
mod word_operations;

pub use law::law_of_arrays;
pub use plane_grid::{PlaneArray, PlaneGrid};
pub use px_plane_tree::PlaneTree;
pub use px_rows::{add_row, choose_row, full_word, keep_row, majority_row};
