//! What is broadcast in a clock, and what is read of a pixel.
ghost use Rattle.std.specs.Prelude.{◌≡◌, ◌≤◌};
ghost use Rattle.px_array.specs.Arrays.{registers_of};

use crate::{Act, Pixel};

/// What the multiplier tree does in a clock (docs/MACHINE.md, "The multiplier tree").
#[derive(Clone, Copy)]
pub enum TreeOp {
    /// Changes nothing.
    Hold,
    /// Makes every latch 0.
    Clear,
    /// Moves every node by one bit of each line.
    Feed { a: bool, b: bool, c: bool },
}

/// A microinstruction: what is broadcast in one clock (docs/MACHINE.md, "One clock").
#[derive(Clone, Copy)]
pub struct Micro {
    pub tree: TreeOp,
    pub act: Act,
}

/// The registers of a pixel.
#[derive(Clone, Copy, Debug, PartialEq, Eq)]
pub struct Registers {
    pub enable: bool,
    pub carry: bool,
    pub latch: bool,
}

impl Registers {
    pub(crate) fn of<const N: usize>(pixel: &Pixel<N>) -> Registers
        requires bits { N ≤ 256 }
        ensures { result ≡ registers_of pixel.now }
    {
        Registers {
            enable: pixel.enable,
            carry: pixel.carry,
            latch: pixel.latch,
        }
    }
}
