//! Why an expression is not built.
use px_num::Memory;
use std::alloc::AllocError;
use thiserror::Error;

/// Why a leaf or an operator was refused (docs/SCENES.md, "Limits").
#[derive(Debug, Drop, Error)]
pub enum ExprFault {
    /// An expression has at most `MAX_LEAVES` leaves.
    #[error("{found} leaves, of at most 512")]
    Leaves { found: u32 },
    /// An expression is nested at most `MAX_NESTING` deep.
    #[error("nested {found} deep, of at most 64")]
    Nesting { found: u32 },
    #[error("out of memory")]
    Memory(Memory),
}

impl From<AllocError> for ExprFault {
    ghost use Rattle.std.specs.Prelude.{◌≡◌};
    ghost use Rattle.px_expr.specs.declared.fault.ExprFault.{ExprFault};
    ghost use Rattle.px_expr.specs.declared.fault.ExprFault.TheVariants.{Memory};
    ghost use Rattle.px_num.specs.Want.{want};

    ghost from_gives = { λ _ fault. fault ≡ Memory want };

    fn from(refused: AllocError) -> Self {
        ExprFault::Memory(Memory::from(refused))
    }
}
