//! A run of clocks.
ghost use Rattle.std.specs.Prelude.{◌≡◌, ◌+◌, ◌-◌, ◌^◌, ◌≤◌, length};
ghost use Rattle.px_array.specs.Arrays.{IsOpen};
ghost use Rattle.px_array.specs.Clocks.{HavePlaces, all_clocked};
ghost use Rattle.px_array.specs.Slots.{HasWorked};

use crate::array::Array;
use crate::micro::Micro;

/// A clock for each microinstruction, in their order.
pub fn clock_all<A: Array>(array: &mut A, micros: &[Micro])
    requires is_open { IsOpen (A.view array.old).device }
    requires places { HavePlaces A.BITS micros.now }
    requires counted { (A.view array.old).device.clocks + length micros.now ≤ 2 ^ 64 - 1 }
    ensures device { (A.view array.new).device ≡ all_clocked micros.now (A.view array.old).device }
    ensures worked { HasWorked (length micros.now) (A.view array.old) (A.view array.new) }
{
    for m in micros {
        array.clock(*m);
    }
}

/// The same clocks on two arrays that are one device, however each keeps its pixels: they are one
/// device again.
pub fn clock_both<A: Array, B: Array>(one: &mut A, other: &mut B, micros: &[Micro])
    requires same { (B.view other.old).device ≡ (A.view one.old).device }
    requires is_open { IsOpen (A.view one.old).device }
    requires places { HavePlaces A.BITS micros.now }
    requires other_places { HavePlaces B.BITS micros.now }
    requires counted { (A.view one.old).device.clocks + length micros.now ≤ 2 ^ 64 - 1 }
    ensures same { (B.view other.new).device ≡ (A.view one.new).device }
    ensures device { (A.view one.new).device ≡ all_clocked micros.now (A.view one.old).device }
    ensures one { HasWorked (length micros.now) (A.view one.old) (A.view one.new) }
    ensures other { HasWorked (length micros.now) (B.view other.old) (B.view other.new) }
{
    clock_all(one, micros);
    clock_all(other, micros);
}
