//! Why a scene cannot be run on an array.
use px_normal::NormalFault;
use px_num::Memory;
use thiserror::Error;

/// Why a scene cannot be run on an array.
#[derive(Debug, Drop, Error)]
pub enum JobFault {
    /// The passes need more memory bits than a pixel of the array has.
    #[error("{need} memory bits a pixel")]
    PixelMemory {
        /// The bits that they need.
        need: u32,
    },
    /// A list of live products that is wanted is too long (docs/SCENES.md, "Limits").
    #[error("{count} products")]
    Products {
        /// How many it has.
        count: u32,
    },
    /// Memory was wanted and not given.
    #[error("out of memory")]
    Memory(Memory),
}

impl From<NormalFault> for JobFault {
    ghost use Rattle.std.specs.Prelude.{◌≡◌};
    ghost use Rattle.px_control.specs.Refusals.{job_fault};

    ghost from_gives = { λ cause fault. fault ≡ job_fault cause };

    fn from(cause: NormalFault) -> Self {
        match cause {
            NormalFault::TooMany { count } => JobFault::Products { count },
            NormalFault::Memory(lack) => JobFault::Memory(lack),
        }
    }
}
