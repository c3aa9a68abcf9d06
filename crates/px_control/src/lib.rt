//! Running a scene's broadcasts on an array.
#![tactic(auto)]

mod drawing;
mod fault;
mod job;
mod law;
mod literal;
mod measure;
mod place;
mod program;
mod rates;
mod total;
mod whole;

pub use drawing::{drawing_of, memory_bits};
pub use fault::JobFault;
pub use job::Job;
pub use law::{MAX_LAYOUT_BITS, law_of_grids, law_of_pictures, law_of_sizes};
pub use place::Place;
pub use program::Program;
pub use total::{cost, law_of_clocks};
