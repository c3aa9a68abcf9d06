//! Sources and sinks of bytes: the outside of the program, with what its calls promise.
#![tactic(auto)]

mod calm;
mod edge;
mod failed;
mod mem_sink;
mod mem_source;
mod reading;
mod sink;
mod source;
mod writing;

pub use calm::{CalmSink, CalmSource};
pub use edge::{StdSink, StdSource};
pub use failed::Failed;
pub use mem_sink::MemSink;
pub use mem_source::MemSource;
pub use reading::{ReadError, read_whole};
pub use sink::Sink;
pub use source::Source;
pub use writing::write_whole;
