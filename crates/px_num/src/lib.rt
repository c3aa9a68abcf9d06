//! Linear forms over a pixel's place, the bits of whole numbers, and the answer if memory runs out.
#![tactic(auto)]

mod bits;
mod linear;
mod memory;

pub use bits::{bit_of, majority, power};
pub use linear::Linear;
pub use memory::Memory;
