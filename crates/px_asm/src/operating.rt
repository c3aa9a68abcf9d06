//! Arrays that make a whole operation at once.
ghost use Rattle.std.specs.Prelude.{◌≡◌, ◌+◌, ◌-◌, ◌^◌, ◌≤◌, IsTrue, false};
ghost use Rattle.px_array.specs.Arrays.{HasGrid};
ghost use Rattle.px_array.specs.Slots.{HasWorked};
ghost use Rattle.px_asm.specs.Making.{cycles_on};
ghost use Rattle.px_asm.specs.Operated.{BecomeTheSame, BecomeTheSameAgain, IsOperated, StayInAgreement, StayKnown, none_known, renewed};
ghost use Rattle.px_macro.specs.Macros.{IsLawful};
ghost use Rattle.px_tree.specs.Nodes.{IsGrid};

use crate::law::law_of_microprograms;
use crate::making::make_operation;
use crate::table::cycles;
use px_array::{Array, ArrayOf, Grid, PixelGrid};
use px_macro::Macro;

/// An array that makes an operation at once: memory and enable of every pixel are as its micros
/// leave them. What it resets of carries, latches and the tree may be anything, and the rest is
/// as it was.
pub trait Operating: Array {
    /// Makes an operation, which counts as its clocks.
    fn operate(&mut self, m: &Macro)
        requires grid { IsGrid (Self.view self.old).device.state.tree.nx
            (Self.view self.old).device.state.tree.ny }
        requires pixels { HasGrid Self.BITS (Self.view self.old).device.state.tree.nx
            (Self.view self.old).device.state.tree.ny (Self.view self.old).device.state }
        requires lawful { IsLawful m.now 256 }
        requires places { IsLawful m.now Self.BITS }
        requires counted { (Self.view self.old).device.clocks
            + cycles_on (Self.view self.old).device m.now ≤ 2 ^ 64 - 1 }
        ensures operated { IsOperated Self.BITS m.now (Self.view self.old).device
            (Self.view self.new).device }
        ensures worked { HasWorked (cycles_on (Self.view self.old).device m.now)
            (Self.view self.old) (Self.view self.new) };
}

/// A grid that may make an operation at once.
pub trait OperatingGrid: Grid {
    /// Makes an operation at once, which counts as its clocks, or leaves it to its clocks where these
    /// are faster, and changes nothing.
    fn try_operate(&mut self, m: &Macro) -> bool
        requires lawful { IsLawful m.now 256 }
        requires places { IsLawful m.now Self.BITS }
        requires counted { (Self.device self.old).clocks + cycles_on (Self.device self.old) m.now ≤ 2 ^ 64 - 1 }
        ensures operated { IsTrue result
            → IsOperated Self.BITS m.now (Self.device self.old) (Self.device self.new) }
        ensures left { result ≡ false → Self.device self.new ≡ Self.device self.old };
}

impl<const N: usize> OperatingGrid for PixelGrid<N> {
    fn try_operate(&mut self, _m: &Macro) -> bool {
        false
    }
}

impl<G: OperatingGrid> Operating for ArrayOf<G> {
    fn operate(&mut self, m: &Macro) {
        if !operate_at_once(self, m) {
            make_operation(self, m);
        }
    }
}

/// Makes an operation at once, or changes nothing.
fn operate_at_once<G: OperatingGrid>(array: &mut ArrayOf<G>, m: &Macro) -> bool
    requires lawful { IsLawful m.now 256 }
    requires places { IsLawful m.now G.BITS }
    requires counted { array.old.device.clocks + cycles_on array.old.device m.now ≤ 2 ^ 64 - 1 }
    ensures operated { IsTrue result → IsOperated G.BITS m.now array.old.device array.new.device }
    ensures worked { IsTrue result → HasWorked (cycles_on array.old.device m.now) array.old array.new }
    ensures left { result ≡ false → array.new ≡ array.old }
{
    let Some(array) = &mut array.array else {
        return false;
    };
    let (nx, ny) = array.grid.size();
    let is_made = array.grid.try_operate(m);
    if is_made {
        array.work = array.work.saturating_add(u64::from(cycles(m, nx, ny)));
    }
    is_made
}

/// Two arrays that agree in memory and enable of every pixel become the same by operations that
/// reset all that is not known to be the same.
#[tactic(auto, using(crate::proofs::OperatedLemmas::become_the_same, crate::proofs::OperatedLemmas::become_the_same_again, crate::proofs::OperatedLemmas::stay_in_agreement, crate::proofs::OperatedLemmas::stay_known))]
pub fn law_of_renewal()
    ensures same { BecomeTheSame }
    ensures agreement { StayInAgreement }
    ensures known { StayKnown }
    ensures again { BecomeTheSameAgain }
{
    law_of_microprograms();
}

/// Which of the tree, the carry and the latch an operation resets.
#[derive(Clone, Copy, Default)]
pub struct Renewal {
    pub tree: bool,
    pub carry: bool,
    pub latch: bool,
}

/// What an operation resets, whatever it was before.
pub fn renewal_of(m: &Macro) -> Renewal
    ensures tree { result.tree ≡ (renewed m.now none_known).tree }
    ensures carry { result.carry ≡ (renewed m.now none_known).carry }
    ensures latch { result.latch ≡ (renewed m.now none_known).latch }
{
    let tree = matches!(
        m,
        Macro::KeepSign(_) | Macro::LoadLinear(..) | Macro::KeepAtMost(..) | Macro::AddLinear(..)
    );
    let carry = matches!(
        m,
        Macro::KeepAtMost(..) | Macro::AddLinear(..) | Macro::KeepLess(..)
    );
    let latch = matches!(m, Macro::Copy(..) | Macro::KeepLess(..));
    Renewal { tree, carry, latch }
}
