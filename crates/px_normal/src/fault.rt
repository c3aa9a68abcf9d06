//! Why an expression has no normal form here.
use px_num::Memory;
use thiserror::Error;

/// Why an expression is not made into products (docs/SCENES.md, "Limits").
#[derive(Debug, Drop, Error)]
pub enum NormalFault {
    /// A wanted list of live products has more than `MAX_PRODUCTS`.
    #[error("{count} products, of at most 1024")]
    TooMany { count: u32 },
    #[error("out of memory")]
    Memory(Memory),
}

impl From<Memory> for NormalFault {
    ghost use Rattle.std.specs.Prelude.{◌≡◌};
    ghost use Rattle.px_normal.specs.declared.fault.NormalFault.{NormalFault};
    ghost use Rattle.px_normal.specs.declared.fault.NormalFault.TheVariants.{Memory};

    ghost from_gives = { λ lack fault. fault ≡ Memory lack };

    fn from(lack: Memory) -> Self {
        NormalFault::Memory(lack)
    }
}
