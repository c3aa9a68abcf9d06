//! An expression as a sum of products: cells inside some solids and outside others.
#![tactic(auto)]

mod cell_box;
mod count;
mod fault;
mod live;
mod normal;
mod product;
mod set;
mod step;
mod sums;

pub use cell_box::{CellBox, EVERYTHING, narrowed};
pub use count::count_products;
pub use fault::NormalFault;
pub use normal::{laws_of_live_products, laws_of_normal_forms, normalise};
pub use product::{MAX_PRODUCTS, Product, Products};
pub use set::{SolidSet, laws_of_sets};
