//! The bit planes of an array: a row for each memory bit and each register.
ghost use Rattle.std.specs.Prelude.{IfOk};
ghost use Rattle.px_planes.specs.Pixels.{IsZero};

use px_num::Memory;
use px_rows::Row;
use std::alloc::Global;

/// The rows. `full` has 1 in each word where a pixel stands.
#[derive(Drop)]
pub struct Planes {
    pub memory: Vec<Row>,
    pub enable: Row,
    pub carry: Row,
    pub latch: Row,
    pub full: u64,
}

impl Planes {
    /// Rows for so many memory bits, all of so many words that are 0.
    pub fn zero(alloc: Global, bits: usize, words: usize, full: u64) -> Result<Planes, Memory>
        ensures { IfOk result (λ planes. IsZero bits words full planes) }
    {
        let mut memory = Vec::new(alloc);
        for _ in 0..bits {
            memory.push(Row::zero(alloc, words)?)?;
        }
        Ok(Planes {
            memory,
            enable: Row::zero(alloc, words)?,
            carry: Row::zero(alloc, words)?,
            latch: Row::zero(alloc, words)?,
            full,
        })
    }
}
