//! The multiplier tree that keeps 64 nodes in a word.
#![tactic(auto)]

mod doubling;
mod feed;
mod heads;
mod heap;
mod next;
mod pairs;
mod plane_tree;
mod rest;
mod small;

pub use doubling::doubled_pair;
pub use feed::rooted;
pub use plane_tree::PlaneTree;
