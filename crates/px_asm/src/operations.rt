//! Operations that are made one after another, as many of them at once as that shows nowhere.
ghost use Rattle.std.specs.Bool.{OnTrue};
ghost use Rattle.std.specs.Prelude.{◌≡◌, ◌∷◌, ◌++◌, ◌+◌, ◌*◌, ◌≤◌, true, length};
ghost use Rattle.px_array.specs.Arrays.{HasGrid};
ghost use Rattle.px_array.specs.Slots.{HasRun, HasWorked};
ghost use Rattle.px_asm.specs.AtOnce.{IsOvertaken, joined, known_of};
ghost use Rattle.px_asm.specs.Making.{cycles_on};
ghost use Rattle.px_asm.specs.Operated.{all_known, all_renewed, none_known, renewed, untouched};
ghost use Rattle.px_asm.specs.Operations.{CanMake, all_made};

use crate::making::make_operation;
use crate::operating::{Operating, Renewal, law_of_renewal, renewal_of};
use px_macro::Macro;

/// Makes operations, one after another, and leaves what their clocks leave.
pub fn make_operations<A: Operating>(array: &mut A, operations: &[Macro])
    requires can { CanMake A.BITS operations.now (A.view array.old).device }
    ensures device { (A.view array.new).device ≡ all_made operations.now (A.view array.old).device }
    ensures few { (A.view array.new).device.clocks
        ≤ (A.view array.old).device.clocks + 82 * length operations.now }
    ensures run { HasRun (A.view array.old) (A.view array.new) }
{
    make_before(array, operations, &[]);
}

/// Makes operations, one after another, so that those behind them, made as well, leave what the
/// clocks of all leave.
///
/// An operation is made at once if later ones reset all that it does, and otherwise by its
/// clocks.
pub fn make_before<A: Operating>(array: &mut A, operations: &[Macro], behind: &[Macro])
    requires can { CanMake A.BITS (operations.now ++ behind.now) (A.view array.old).device }
    ensures device { all_made behind.now (A.view array.new).device
        ≡ all_made (operations.now ++ behind.now) (A.view array.old).device }
    ensures pixels { HasGrid A.BITS (A.view array.old).device.state.tree.nx
        (A.view array.old).device.state.tree.ny (A.view array.new).device.state }
    ensures few { (A.view array.new).device.clocks
        ≤ (A.view array.old).device.clocks + 82 * length operations.now }
    ensures run { HasRun (A.view array.old) (A.view array.new) }
{
    let again = known_after(Renewal::default(), behind);
    for (i, m) in operations.iter().enumerate() {
        make_one(array, m, &operations[i + 1..], behind, again);
    }
}

/// Makes one operation, at once if the rest and those after it reset all that it does.
fn make_one<A: Operating>(
    array: &mut A,
    m: &Macro,
    rest: &[Macro],
    behind: &[Macro],
    again: Renewal,
)
    requires again { known_of again ≡ all_renewed behind.now none_known }
    requires can { CanMake A.BITS (m.now ∷ (rest.now ++ behind.now)) (A.view array.old).device }
    ensures device { all_made (rest.now ++ behind.now) (A.view array.new).device
        ≡ all_made (m.now ∷ (rest.now ++ behind.now)) (A.view array.old).device }
    ensures pixels { HasGrid A.BITS (A.view array.old).device.state.tree.nx
        (A.view array.old).device.state.tree.ny (A.view array.new).device.state }
    ensures clocks { (A.view array.new).device.clocks
        ≡ (A.view array.old).device.clocks + cycles_on (A.view array.old).device m.now }
    ensures few { cycles_on (A.view array.old).device m.now ≤ 82 }
    ensures worked { HasWorked (cycles_on (A.view array.old).device m.now)
        (A.view array.old) (A.view array.new) }
{
    law_of_renewal();
    if is_overtaken(m, rest, behind, again) {
        array.operate(m);
    } else {
        make_operation(array, m);
    }
}

/// Whether the rest and those after it, which reset so much again, reset all that an operation does.
#[tactic(auto, using(crate::proofs::OperationsLemmas::reset_again))]
fn is_overtaken(m: &Macro, rest: &[Macro], behind: &[Macro], again: Renewal) -> bool
    requires { known_of again ≡ all_renewed behind.now none_known }
    ensures { OnTrue result (IsOvertaken m.now (rest.now ++ behind.now)) }
{
    known_after(left_by(m, again), rest).is_whole()
}

/// What an operation that is made at once leaves as its clocks do, and what is reset again.
fn left_by(m: &Macro, again: Renewal) -> Renewal
    ensures { known_of result ≡ joined (untouched m.now all_known) (known_of again) }
{
    let begun = renewal_of(m);
    Renewal {
        tree: !begun.tree || again.tree,
        carry: !begun.carry || again.carry,
        latch: !begun.latch || again.latch,
    }
}

/// What is known behind the clocks of some operations, where so much was known before.
#[tactic(auto, using(px_num::proofs::Basics::common_steps, crate::proofs::OperationsLemmas::all_stay))]
fn known_after(before: Renewal, operations: &[Macro]) -> Renewal
    ensures { known_of result ≡ all_renewed operations.now (known_of before) }
{
    let mut known = before;
    for m in operations {
        if known.is_whole() {
            return known;
        }
        known = known.after(m);
    }
    known
}

impl Renewal {
    /// Whether it is all three.
    fn is_whole(self) -> bool
        ensures { OnTrue result (known_of self ≡ all_known) }
    {
        self.tree && self.carry && self.latch
    }

    /// What is known behind the clocks of an operation, where so much was known before.
    fn after(self, m: &Macro) -> Renewal
        ensures { known_of result ≡ renewed m.now (known_of self) }
    {
        let begun = renewal_of(m);
        Renewal {
            tree: begun.tree || self.tree,
            carry: begun.carry || self.carry,
            latch: begun.latch || self.latch,
        }
    }
}
