//! The multiplier tree, which gives each pixel the value of a linear form one bit a clock.
#![tactic(auto)]

mod feeding;
mod lines;
mod node;
mod node_tree;
mod places;
mod tree;
mod tree_bit;

pub use lines::{Lines, lines_at};
pub use node::Node;
pub use node_tree::NodeTree;
pub use places::{leaf_index, leaf_place, node_place};
pub use tree::Tree;
pub use tree_bit::{feed_form, laws_of_feeds, value_bit};
