//! Expressions over solids: the tree that is written, kept as nodes in postorder.
#![tactic(auto)]

mod builder;
mod expr;
mod fault;
mod node;
mod surface;

pub use builder::ExprBuilder;
pub use expr::Expr;
pub use fault::ExprFault;
pub use node::{Combination, MAX_LEAVES, MAX_NESTING, MAX_WAITING, Node, Op, Sense, Shape};
pub use surface::{member_law, surface_law};
