//! Why a scene has no finer scene.
use px_num::Memory;
use thiserror::Error;

/// Why a scene has no finer scene (docs/PICTURE.md, "Refinement").
#[derive(Debug, Drop, Error)]
pub enum FineFault {
    /// The fraction of a depth would have more bits than it may: at most 8, and with the bits of
    /// the depth at most 24.
    #[error("{found} fraction bits")]
    Fraction {
        /// The bits that it would have.
        found: u32,
    },
    /// The picture would be wider or higher than 512 pixels.
    #[error("a picture of {found} pixels, of at most 512")]
    Picture {
        /// Its width, otherwise its height.
        found: u32,
    },
    /// The constant of a plane would be greater than `2^33` in size.
    #[error("a constant of {found}, of at most 8589934592 in size")]
    Coefficient {
        /// The first such constant.
        found: i64,
    },
    /// Memory was wanted and not given.
    #[error("out of memory")]
    Memory(Memory),
}

impl From<Memory> for FineFault {
    ghost use Rattle.std.specs.Prelude.{◌≡◌};
    ghost use Rattle.px_frame.specs.declared.fine_fault.FineFault.{FineFault};
    ghost use Rattle.px_frame.specs.declared.fine_fault.FineFault.TheVariants.{Memory};

    ghost from_gives = { λ lack fault. fault ≡ Memory lack };

    fn from(lack: Memory) -> Self {
        FineFault::Memory(lack)
    }
}
