//! Clocks in which the tree stands still.
ghost use Rattle.std.specs.Prelude.{◌≡◌};
ghost use Rattle.px_asm.specs.Micros.{still as still_of};

use px_array::{Act, Micro, TreeOp};

pub(crate) fn still(act: Act) -> Micro
    ensures { result ≡ still_of act }
{
    Micro {
        tree: TreeOp::Hold,
        act,
    }
}
