//! Operations that are carried out on an array, one after another.
ghost use Rattle.px_asm.specs.Operations.{CanMake};
ghost use Rattle.px_shadow.specs.Carrying.{CarriesOut};

use px_asm::{Operating, make_operations};
use px_macro::Macro;

/// Makes some operations, one after another, and leaves what their clocks leave.
#[tactic(auto, using(crate::proofs::DeviceLemmas::made_out))]
pub(crate) fn carry_out<A: Operating>(array: &mut A, operations: &[Macro])
    requires { CanMake A.BITS operations.now (A.view array.old).device }
    ensures { CarriesOut operations.now (A.view array.old) (A.view array.new) }
{
    make_operations(array, operations);
}
