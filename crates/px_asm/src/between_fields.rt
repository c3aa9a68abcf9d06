//! The acts of the operations on fields alone, for which the tree stands still.
ghost use Rattle.std.specs.Prelude.{◌≡◌, ◌<◌, ◌+◌, ◌*◌, ◌^◌};
ghost use Rattle.px_num.specs.Bits.{nat_bit};
ghost use Rattle.px_macro.specs.Macros.{AreOfOneLength, IsField};
ghost use Rattle.px_array.specs.declared.act.Act.TheVariants.{StoreConst};
ghost use Rattle.px_asm.specs.Micros.{copy_act as act_of_copy};
ghost use Rattle.px_asm.specs.Micros.{less_act as act_of_less};

use px_array::Act;
use px_macro::Field;
use px_num::bit_of;

/// Stores a bit of the number.
pub(crate) fn constant_act(field: &Field, number: u64, i: u32) -> Act
    requires field { IsField field.now 256 }
    requires number { number < 2 ^ field.now.len }
    requires clock { i < field.now.len }
    ensures { result ≡ StoreConst (field.now.at + i) (nat_bit number i) }
{
    Act::StoreConst(field.at + i, bit_of(number as i64, i))
}

/// Fetches a bit into the latch, or stores it.
pub(crate) fn copy_act(from: &Field, to: &Field, i: u32) -> Act
    requires fields { AreOfOneLength from.now to.now 256 }
    requires clock { i < 2 * from.now.len }
    ensures { result ≡ act_of_copy from.now to.now i }
{
    if i % 2 == 0 {
        Act::Fetch(from.at + i / 2)
    } else {
        Act::StoreLatch(to.at + i / 2)
    }
}

/// Fetches a bit of the second number, or takes it into the carry, which says so far whether the
/// second number is at most the first.
pub(crate) fn less_act(first: &Field, second: &Field, i: u32) -> Act
    requires fields { AreOfOneLength first.now second.now 256 }
    requires clock { i < 2 + 2 * first.now.len }
    ensures { result ≡ act_of_less first.now second.now i }
{
    if i == 0 {
        Act::SetCarry(true)
    } else if i == 1 + 2 * first.len {
        Act::EnableCarry(false)
    } else if i % 2 == 1 {
        Act::Fetch(second.at + (i - 1) / 2)
    } else {
        Act::CarryLatch(first.at + (i - 1) / 2)
    }
}
