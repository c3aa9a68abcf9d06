//! The signs of operators, and which of them a version has (docs/SCENES.md, "Expressions").
ghost use Rattle.std.specs.Prelude.{◌≡◌};
ghost use Rattle.std.specs.List.{list_any};
ghost use Rattle.px_show.specs.Versions.{sign_byte, op_of, is_differ, is_sign, has_difference};
ghost use Rattle.px_show.specs.Differences.{has_differ_sign, is_difference};

use crate::scene_version::Version;
use px_expr::{Expr, Node, Op, Shape};

/// The byte of an operator's sign.
pub(crate) fn sign_byte(op: Op) -> u8
    ensures { result ≡ sign_byte op }
{
    match op {
        Op::Union => b'+',
        Op::Meet => b'*',
        Op::Minus => b'-',
        Op::Differ => b'^',
    }
}

/// The operator of whose sign a byte is.
pub(crate) fn op_of(b: u8) -> Option<Op>
    ensures { result ≡ op_of b }
{
    if b == b'+' {
        Some(Op::Union)
    } else if b == b'*' {
        Some(Op::Meet)
    } else if b == b'-' {
        Some(Op::Minus)
    } else if b == b'^' {
        Some(Op::Differ)
    } else {
        None
    }
}

/// Whether a version has an operator's sign.
pub(crate) fn is_sign(version: Version, op: Op) -> bool
    ensures { result ≡ is_sign version op }
{
    !is_differ(op) || version.has_differ()
}

fn is_differ(op: Op) -> bool
    ensures { result ≡ is_differ op }
{
    match op {
        Op::Union | Op::Meet | Op::Minus => false,
        Op::Differ => true,
    }
}

/// Whether a `^` is in an expression, which texts have from version 2 on.
#[tactic(auto, using(crate::proofs::SignLaws::difference_among))]
pub fn has_difference(expr: &Expr) -> bool
    ensures { result ≡ has_difference expr.now }
{
    is_any_difference(expr.nodes())
}

fn is_any_difference(nodes: &[Node]) -> bool
    ensures { result ≡ list_any is_difference nodes.now }
{
    nodes.iter().any(|node| has_differ_sign(node.shape()))
}

fn has_differ_sign(node: Shape) -> bool
    ensures { result ≡ has_differ_sign node }
{
    match node {
        Shape::Leaf(_) => false,
        Shape::Join(op, ..) => is_differ(op),
    }
}
