//! The clocks in which a form is fed to the tree, and the acts on the bits of its value.
ghost use Rattle.std.specs.Prelude.{◌≡◌, ◌<◌, ◌≤◌, ◌+◌, ◌==◌, true, false, if◌then◌else◌};
ghost use Rattle.px_macro.specs.Macros.{IsField};
ghost use Rattle.px_array.specs.declared.act.Act.TheVariants.{
  AddTree,
  CarryTree,
  EnableTree,
  Nop,
  SetCarry,
  StoreTree,
};
ghost use Rattle.px_tree.specs.Nodes.{IsGrid};
ghost use Rattle.px_asm.specs.Micros.{act_at};
ghost use Rattle.px_asm.specs.Micros.{tree_at as tree_op_of};

use px_array::{Act, Micro, TreeOp};
use px_macro::Field;
use px_num::Linear;
use px_tree::lines_at;

/// An act in clock `i` of an operation on a form.
pub(crate) fn fed(form: &Linear, nx: u32, ny: u32, i: u32, act: Act) -> Micro
    requires grid { IsGrid nx ny }
    ensures { result ≡ record { tree = tree_op_of form.now nx ny i; act = act } }
{
    Micro {
        tree: tree_at(form, nx, ny, i),
        act,
    }
}

/// What the tree does in clock `i`: first a clear, and then the feeds from 0 on.
fn tree_at(form: &Linear, nx: u32, ny: u32, i: u32) -> TreeOp
    requires grid { IsGrid nx ny }
    ensures { result ≡ tree_op_of form.now nx ny i }
{
    if i == 0 {
        return TreeOp::Clear;
    }
    let lines = lines_at(form, nx, ny, i - 1);
    TreeOp::Feed {
        a: lines.a,
        b: lines.b,
        c: lines.c,
    }
}

/// Keeps the pixels with a 0, once the sign is at the leaves.
pub(crate) fn sign_act(levels: u32, i: u32) -> Act
    requires levels { levels ≤ 18 }
    ensures { result ≡ (if i == 40 + levels then EnableTree false else Nop) }
{
    if i == 40 + levels {
        Act::EnableTree(false)
    } else {
        Act::Nop
    }
}

/// Stores the bit that is at the leaves.
pub(crate) fn load_act(field: &Field, levels: u32, i: u32) -> Act
    requires field { IsField field.now 256 }
    requires levels { levels ≤ 18 }
    requires clock { i < 1 + levels + field.now.len }
    ensures { result ≡ act_at levels Nop (λ t. StoreTree (field.now.at + t)) i }
{
    if i > levels {
        Act::StoreTree(field.at + (i - 1 - levels))
    } else {
        Act::Nop
    }
}

/// Compares the bit that is at the leaves.
///
/// Since the carry begins with 1, it says in the end "at most", and not "less".
pub(crate) fn bound_act(field: &Field, levels: u32, i: u32) -> Act
    requires field { IsField field.now 256 }
    requires levels { levels ≤ 18 }
    requires clock { i < 1 + levels + field.now.len }
    ensures { result ≡ act_at levels (SetCarry true) (λ t. CarryTree (field.now.at + t)) i }
{
    if i == 0 {
        Act::SetCarry(true)
    } else if i > levels {
        Act::CarryTree(field.at + (i - 1 - levels))
    } else {
        Act::Nop
    }
}

/// Adds the bit that is at the leaves.
pub(crate) fn add_act(field: &Field, levels: u32, i: u32) -> Act
    requires field { IsField field.now 256 }
    requires levels { levels ≤ 18 }
    requires clock { i < 1 + levels + field.now.len }
    ensures { result ≡ act_at levels (SetCarry false) (λ t. AddTree (field.now.at + t)) i }
{
    if i == 0 {
        Act::SetCarry(false)
    } else if i > levels {
        Act::AddTree(field.at + (i - 1 - levels))
    } else {
        Act::Nop
    }
}
