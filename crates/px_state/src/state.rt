//! Where a text's broadcasts stand.

use px_array::Micro;

/// What is broadcast next.
#[derive(Clone, Copy)]
pub struct Next {
    /// The operation that it belongs to, counted from 0.
    pub operation: u64,
    /// Which of the operation's clocks it is, counted from 0.
    pub cycle: u32,
    pub micro: Micro,
}

/// A grid after so many clocks of what is broadcast to it; its bits are words in a list of their own.
#[derive(Clone, Copy)]
pub struct State {
    /// The exponents of the grid: it has `2^nx` columns and `2^ny` rows.
    pub nx: u32,
    pub ny: u32,
    /// How many memory bits a pixel has.
    pub bits: u32,
    /// How many operations are broadcast, and how many clocks they take.
    pub operations: u64,
    pub clocks: u64,
    /// How many clocks were made.
    pub clock: u64,
    /// The broadcast behind these clocks, if one is left.
    pub next: Option<Next>,
}

/// How many operations a text broadcasts, and how many clocks they take.
#[derive(Clone, Copy)]
pub struct Course {
    pub operations: u64,
    pub clocks: u64,
}
