//! Where a job is in the program of its scene.
use px_macro::Macro;
use px_sched::Cursor;

/// Where a job stands before a broadcast, or at the end of its program.
///
/// Plain data: a place may be kept, and a job returned to it.
#[derive(Clone, Copy)]
pub struct Place {
    pub(crate) cursor: Cursor,
    /// How many broadcasts were made.
    pub clock: u64,
    /// The operation that runs, or that comes next, counted from 0.
    pub operation: u64,
    /// Which of its micros is broadcast next, counted from 0.
    pub micro: u32,
    pub current: Option<Macro>,
}
