//! Operations that are carried out on an array.
ghost use Rattle.std.specs.Prelude.{◌≡◌, ◌+◌, ◌-◌, ◌^◌, ◌<◌, ◌≤◌, ℕ};
ghost use Rattle.std.specs.List.{between};
ghost use Rattle.px_array.specs.Arrays.{HasGrid, pixel_of};
ghost use Rattle.px_array.specs.Clocks.{all_clocked};
ghost use Rattle.px_array.specs.Slots.{HasWorked};
ghost use Rattle.px_asm.specs.Making.{cycles_on, micros_on};
ghost use Rattle.px_asm.specs.Microprograms.{bits_of};
ghost use Rattle.px_macro.specs.Macros.{IsLawful, after_macro};
ghost use Rattle.px_tree.specs.Nodes.{IsGrid};

use crate::law::law_of_microprograms;
use crate::table::{cycles, micro_at};
use px_array::Array;
use px_macro::Macro;

/// Makes the clocks of an operation from one up to another, counted from 0.
#[tactic(auto, using(crate::proofs::MakingLemmas::one_made))]
pub fn make_micros<A: Array>(array: &mut A, m: &Macro, from: u32, to: u32)
    requires grid { IsGrid (A.view array.old).device.state.tree.nx (A.view array.old).device.state.tree.ny }
    requires lawful { IsLawful m.now 256 }
    requires places { IsLawful m.now A.BITS }
    requires order { from ≤ to }
    requires within { to ≤ cycles_on (A.view array.old).device m.now }
    requires counted { (A.view array.old).device.clocks + (to - from) ≤ 2 ^ 64 - 1 }
    ensures device { (A.view array.new).device
        ≡ all_clocked (between from to (micros_on (A.view array.old).device m.now)) (A.view array.old).device }
    ensures worked { HasWorked (to - from) (A.view array.old) (A.view array.new) }
{
    let (nx, ny) = array.size();
    for i in from..to {
        array.clock(micro_at(m, nx, ny, i));
    }
}

/// Makes all clocks of an operation, which leave its meaning in every pixel (docs/MACHINE.md,
/// "Microprograms").
#[tactic(auto, using(crate::proofs::MakingLemmas::all_of_them, crate::proofs::MakingLemmas::count_of_them))]
pub fn make_operation<A: Array>(array: &mut A, m: &Macro)
    requires grid { IsGrid (A.view array.old).device.state.tree.nx (A.view array.old).device.state.tree.ny }
    requires pixels { HasGrid A.BITS (A.view array.old).device.state.tree.nx
        (A.view array.old).device.state.tree.ny (A.view array.old).device.state }
    requires lawful { IsLawful m.now 256 }
    requires places { IsLawful m.now A.BITS }
    requires counted { (A.view array.old).device.clocks + cycles_on (A.view array.old).device m.now ≤ 2 ^ 64 - 1 }
    ensures device { (A.view array.new).device
        ≡ all_clocked (micros_on (A.view array.old).device m.now) (A.view array.old).device }
    ensures meaning { (x y : ℕ) → x < 2 ^ (A.view array.old).device.state.tree.nx
        → y < 2 ^ (A.view array.old).device.state.tree.ny
        → bits_of (pixel_of (A.view array.new).device.state x y)
        ≡ after_macro m.now x y (bits_of (pixel_of (A.view array.old).device.state x y)) }
    ensures clocks { (A.view array.new).device.clocks
        ≡ (A.view array.old).device.clocks + cycles_on (A.view array.old).device m.now }
    ensures worked { HasWorked (cycles_on (A.view array.old).device m.now)
        (A.view array.old) (A.view array.new) }
{
    let (nx, ny) = array.size();
    law_of_microprograms();
    make_micros(array, m, 0, cycles(m, nx, ny));
}
