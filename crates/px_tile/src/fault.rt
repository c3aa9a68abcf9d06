//! Why a picture is not drawn tile by tile.
use px_normal::NormalFault;
use px_num::Memory;
use thiserror::Error;

/// Why a scene has no tile at a place.
#[derive(Debug, Drop, Error)]
pub enum TileFault {
    /// A plane's `C` is greater than `2^33` in size at the tile's first pixel.
    #[error("a coefficient of {found}")]
    Coefficient {
        /// The first such `C`.
        found: i64,
    },
    /// Memory was wanted and not given.
    #[error("out of memory")]
    Memory(Memory),
}

/// Why a picture is not drawn tile by tile, in the order in which it is asked.
#[derive(Debug, Drop, Error)]
pub enum WideFault {
    /// There are more than `MAX_TILES` tiles.
    #[error("{found} tiles, of at most 1024")]
    Tiles {
        /// How many there are.
        found: u32,
    },
    /// A plane's `C` is greater than `2^33` in size at the first pixel of a tile.
    #[error("a coefficient of {found}")]
    Coefficient {
        /// The first such `C` of the first such tile.
        found: i64,
    },
    /// The passes need more memory bits than a pixel of the array has.
    #[error("{need} memory bits a pixel")]
    PixelMemory {
        /// The bits that they need.
        need: u32,
    },
    /// A list of live products that is wanted is too long (docs/SCENES.md, "Limits").
    #[error("{count} products")]
    Products {
        /// How many the first such list of the first such tile has.
        count: u32,
    },
    /// Memory was wanted and not given.
    #[error("out of memory")]
    Memory(Memory),
}

impl From<Memory> for TileFault {
    ghost use Rattle.std.specs.Prelude.{◌≡◌};
    ghost use Rattle.px_tile.specs.declared.fault.TileFault.{TileFault};
    ghost use Rattle.px_tile.specs.declared.fault.TileFault.TheVariants.{Memory as NoMemory};

    ghost from_gives = { λ lack fault. fault ≡ NoMemory lack };

    fn from(lack: Memory) -> Self {
        TileFault::Memory(lack)
    }
}

impl From<NormalFault> for WideFault {
    ghost use Rattle.std.specs.Prelude.{◌≡◌};
    ghost use Rattle.px_tile.specs.Refusals.{products_fault};

    ghost from_gives = { λ cause fault. fault ≡ products_fault cause };

    fn from(cause: NormalFault) -> Self {
        match cause {
            NormalFault::TooMany { count } => WideFault::Products { count },
            NormalFault::Memory(lack) => WideFault::Memory(lack),
        }
    }
}

impl From<Memory> for WideFault {
    ghost use Rattle.std.specs.Prelude.{◌≡◌};
    ghost use Rattle.px_tile.specs.declared.fault.WideFault.{WideFault};
    ghost use Rattle.px_tile.specs.declared.fault.WideFault.TheVariants.{Memory as NoMemory};

    ghost from_gives = { λ lack fault. fault ≡ NoMemory lack };

    fn from(lack: Memory) -> Self {
        WideFault::Memory(lack)
    }
}
