//! Why a line of a text is bad, and why a text is refused, by what has a limit in it
//! (docs/SCENES.md, "Causes", "Limits" and "Refusals").
ghost use Rattle.std.specs.Prelude.{◌≡◌};
ghost use Rattle.px_show.specs.Judged.{past};

use px_num::Memory;
use std::fmt::Debug;
use thiserror::Error;

/// Why the words of a line are bad (docs/SCENES.md, "Causes").
#[derive(Clone, Copy, Debug)]
pub enum Cause {
    NotHeader,
    Unexpected,
    WordCount,
    NotNumber,
    BadName,
    SecondName,
    BadExpression,
    UnknownName,
    AfterEnd,
    MissingEnd,
}

/// What has a limit in a scene text (docs/SCENES.md, "Limits").
#[derive(Clone, Copy, Debug)]
pub enum LimitKind {
    Text,
    Picture,
    Depth,
    Colour,
    Coefficient,
    Solids,
    Fronts,
    Backs,
    Sides,
    Faces,
    Leaves,
    Nesting,
    Fraction,
    PixelMemory,
    Products,
}

/// A line's form is bad, otherwise one of its numbers or counts passes a limit.
#[derive(Clone, Copy)]
pub enum LineFault<K> {
    Malformed(Cause),
    Limit { kind: K, found: i64 },
}

/// A line is bad, or memory was wanted and not given.
#[derive(Drop)]
pub enum LineError<K> {
    Bad(LineFault<K>),
    Memory(Memory),
}

/// Why a text is refused (docs/SCENES.md, "Refusals"). The first bad line decides.
#[derive(Debug, Drop, Error)]
#[error_bound(K: Debug)]
pub enum TextFault<K> {
    /// The words of a line are bad, or the text has no `end`.
    #[error("line {line}: {cause:?}")]
    Malformed { line: u32, cause: Cause },
    /// A number or a count passes its limit; the line is 0 for the length of the text.
    #[error("line {line}: {kind:?} {found}")]
    Limit { line: u32, kind: K, found: i64 },
    #[error("out of memory")]
    Memory(Memory),
}

/// Why a text is no scene.
pub type SceneFault = TextFault<LimitKind>;

/// A number past its range.
pub fn past<K: Copy>(kind: K, low: i64, high: i64, found: i64) -> Option<LineFault<K>>
    ensures { result ≡ past kind low high found }
{
    if low <= found && found <= high {
        None
    } else {
        Some(LineFault::Limit { kind, found })
    }
}

impl<K> From<Cause> for LineError<K> {
    ghost use Rattle.std.specs.Prelude.{◌≡◌};
    ghost use Rattle.px_show.specs.declared.fault.LineFault.TheVariants.{Malformed};
    ghost use Rattle.px_show.specs.declared.fault.LineError.TheVariants.{Bad};

    ghost from_gives = { λ cause e. e ≡ Bad (Malformed cause) };

    fn from(cause: Cause) -> Self {
        LineError::Bad(LineFault::Malformed(cause))
    }
}

impl<K> From<Memory> for LineError<K> {
    ghost use Rattle.std.specs.Prelude.{◌≡◌};
    ghost use Rattle.px_show.specs.declared.fault.LineError.TheVariants.{Memory};

    ghost from_gives = { λ lack e. e ≡ Memory lack };

    fn from(lack: Memory) -> Self {
        LineError::Memory(lack)
    }
}

impl<K> From<Memory> for TextFault<K> {
    ghost use Rattle.std.specs.Prelude.{◌≡◌};
    ghost use Rattle.px_show.specs.declared.fault.TextFault.TheVariants.{Memory};

    ghost from_gives = { λ lack e. e ≡ Memory lack };

    fn from(lack: Memory) -> Self {
        TextFault::Memory(lack)
    }
}
