//! The microprograms: what is broadcast, clock by clock, to carry out each operation.
#![tactic(auto)]

mod between_fields;
mod law;
mod making;
mod number;
mod of_forms;
mod operating;
mod operations;
mod still;
mod table;

pub use law::law_of_microprograms;
pub use making::{make_micros, make_operation};
pub use number::number_in;
pub use operating::{Operating, OperatingGrid, Renewal, law_of_renewal, renewal_of};
pub use operations::{make_before, make_operations};
pub use table::{cycles, micro_at};
