//! The operations, each with its formula.
ghost use Rattle.px_macro.specs.Macros.{IsLawfulInMore, MeaningsJoin, MemoryStaysLong};

use crate::field::Field;
use px_num::Linear;

/// An operation that is broadcast to all pixels (docs/MACHINE.md, "Broadcast operations").
///
/// In the formulas `v` is the value of the linear form at the pixel, and `f` and `g` are the numbers
/// in the first and the second field. A pixel that is not enabled keeps its memory.
#[derive(Clone, Copy, Default)]
pub enum Macro {
    /// `enable = 1`
    ///
    /// Enables every pixel.
    #[default]
    All,
    /// `enable = enable and v >= 0`
    ///
    /// Keeps the pixels on one side of an edge or before a plane.
    KeepSign(Linear),
    /// `enable = enable and memory[at] == b`
    ///
    /// Keeps the pixels with that bit.
    KeepBit(u32, bool),
    /// `f = v mod 2^len`
    ///
    /// Takes the value of the form into a field.
    LoadLinear(Linear, Field),
    /// `enable = enable and v mod 2^len <= f`
    ///
    /// Keeps the pixels at which the value is at most the number in the field.
    KeepAtMost(Linear, Field),
    /// `f = (f + v) mod 2^len`
    ///
    /// Adds the value of the form to a field.
    AddLinear(Linear, Field),
    /// `f = c`
    ///
    /// Takes one number into the field of every enabled pixel.
    LoadConst(Field, u64),
    /// `memory[at] = b`
    ///
    /// Sets or clears a bit.
    SetBit(u32, bool),
    /// `memory[at] = not memory[at]`
    ///
    /// Turns a bit over.
    Toggle(u32),
    /// `g = f`
    ///
    /// Takes the number of the first field into the second.
    Copy(Field, Field),
    /// `enable = enable and f < g`
    ///
    /// Keeps the pixels at which the first field has the lesser number.
    KeepLess(Field, Field),
}

/// What holds of every operation, and of operations one after another.
pub fn laws_of_operations()
    ensures more { IsLawfulInMore }
    ensures size { MemoryStaysLong }
    ensures join { MeaningsJoin }
{}
