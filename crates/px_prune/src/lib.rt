//! Boxes of solids, and the products that can show anything in the picture.
#![tactic(auto)]

mod block;
mod bounds;
mod hull;
mod plan;

pub use bounds::{box_of, boxes_of};
pub use plan::{Plan, laws_of_pruning, plan_of, prune};
pub use px_normal::{CellBox, MAX_PRODUCTS};
