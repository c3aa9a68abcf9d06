//! An expression, its nodes and its truth.
ghost use Rattle.std.specs.Prelude.{◌≡◌, ◌<◌, ◌≤◌, ◌+◌, ◌-◌, ◌*◌, ◌∷◌, [], ℕ, All, IfOk, length, reverse, take, slice_index_or};
ghost use Rattle.arrayvec.specs.ArrayVec.{array_vec_len};
ghost use Rattle.px_expr.specs.Tree.{HasLeavesBelow, IsLawfulTree};
ghost use Rattle.px_expr.specs.Cells.{is_member, is_true, truth_of};
ghost use Rattle.px_expr.specs.Shapes.{node_shape, joined, put, CanPlace, IsLeafBelow, sides};
ghost use Rattle.px_expr.specs.Postorder.{nodes_of, trees_after, parent_count};
ghost use Rattle.px_expr.specs.declared.node.Node.{Node as AnyNode};

use crate::{MAX_LEAVES, MAX_WAITING, Node, Op, Shape};
use arrayvec::ArrayVec;
use px_num::Memory;
use std::marker::Model;

/// An expression over solids, of at most `MAX_LEAVES` leaves and `MAX_NESTING` levels of nesting.
/// Contracts see the tree that is written.
#[derive(Drop)]
pub struct Expr {
    pub(crate) nodes: Vec<Node>,
}

impl Model for Expr {
    ghost use Rattle.std.specs.Prelude.{◌≡◌};
    ghost use Rattle.px_expr.specs.Tree.{Tree, IsLawfulTree};
    ghost use Rattle.px_expr.specs.TreeCode.{tree_code};

    ghost Value = { Tree };

    ghost coded = { tree_code };

    ghost use Rattle.px_expr.specs.Postorder.{nodes_of, trees_after};
    ghost use Rattle.px_expr.specs.Waiting.{newest};

    ghost view = { λ expr. newest (trees_after expr.nodes.items) };

    ghost invariant = { λ expr.
        (expr.nodes.items ≡ nodes_of (newest (trees_after expr.nodes.items)))
        × IsLawfulTree (newest (trees_after expr.nodes.items)) };
}

impl Expr {
    /// The nodes in postorder: each stands behind its sides, and the last is the root.
    #[tactic(auto, using(crate::proofs::PostorderLemmas::tree_of_nodes, crate::proofs::PostorderLemmas::can_place, crate::proofs::PostorderLemmas::leaves_below))]
    pub fn nodes(&self) -> &[Node]
        ensures nodes { result.now ≡ nodes_of self.now }
        ensures tree { trees_after result.now ≡ self.now ∷ [] }
        ensures few { length result.now ≤ 2 * MAX_LEAVES - 1 }
        ensures before { (i : ℕ) (any : AnyNode) → i < length result.now →
            All (λ side. side < i) (sides (node_shape (slice_index_or result.now i any))) }
        ensures once { (i : ℕ) → i + 1 < length result.now → parent_count i result.now ≡ 1 }
        ensures places { (i : ℕ) (any : AnyNode) → i < length result.now →
            CanPlace (length (trees_after (take i result.now))) (node_shape (slice_index_or result.now i any)) }
        ensures leaves { (count : ℕ) → HasLeavesBelow count self.now →
            All (λ node. IsLeafBelow count (node_shape node)) result.now }
        ensures lawful { IsLawfulTree self.now }
    {
        self.nodes.as_slice()
    }

    /// The same expression once more.
    pub fn copy(&self) -> Result<Expr, Memory>
        ensures { IfOk result (λ expr. expr ≡ self.now) }
    {
        let nodes = self.nodes.clone()?;
        Ok(Expr { nodes })
    }

    /// Whether a cell is a member, by a truth value for each solid: whether the cell is inside it.
    #[tactic(auto, using(crate::proofs::StackLaws::values_length, crate::proofs::StackLaws::values_more, crate::proofs::StackLaws::values_last))]
    pub fn holds(&self, inside: &[bool]) -> bool
        requires { HasLeavesBelow (length inside.now) self.now }
        ensures { result ≡ is_member (is_true inside.now) self.now }
    {
        let mut stack = ArrayVec::<bool, MAX_WAITING>::new();
        for node in self.nodes() {
            place(&mut stack, node.shape(), inside);
        }
        stack.pop().unwrap()
    }
}

/// Puts the truth of a shape down, in place of its sides' where it has them.
fn place(stack: &mut ArrayVec<bool, MAX_WAITING>, shape: Shape, inside: &[bool])
    requires place { CanPlace (array_vec_len stack.old) shape }
    requires leaf { IsLeafBelow (length inside.now) shape }
    ensures { reverse stack.new.items
        ≡ put (is_true inside.now) truth_of (reverse stack.old.items) shape }
{
    match shape {
        Shape::Leaf(solid) => stack.push(inside[usize::from(solid)]),
        Shape::Join(op, ..) => combine(stack, op),
    }
}

/// The last two become one.
fn combine(stack: &mut ArrayVec<bool, MAX_WAITING>, op: Op)
    requires two { 2 ≤ array_vec_len stack.old }
    requires few { array_vec_len stack.old ≤ MAX_WAITING }
    ensures { reverse stack.new.items ≡ joined truth_of op (reverse stack.old.items) }
{
    let right = stack.pop().unwrap();
    let left = stack.pop().unwrap();
    stack.push(op.truth(left, right));
}
