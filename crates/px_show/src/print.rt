//! Printing an expression, from its last byte to its first.
ghost use Rattle.std.specs.Prelude.{◌≡◌, ◌<◌, ◌++◌, ◌∷◌, OnErr, OnOk, IfOk, All, length, reverse};
ghost use Rattle.px_expr.specs.Tree.{HasLeavesBelow, IsLawfulTree};
ghost use Rattle.px_expr.specs.Shapes.{IsLeafBelow};
ghost use Rattle.px_model.specs.Scenes.{names_of};
ghost use Rattle.px_show.specs.Printed.{printed, named_by};
ghost use Rattle.px_show.specs.Gaps.{
  sign_text,
  gap_text,
  split_gap,
  first_gap,
  other_gaps,
  gaps_before,
  text_of,
};

use crate::sign::sign_byte;
use px_expr::{Expr, Op, Shape};
use px_model::Solid;
use px_num::Memory;
use std::alloc::Global;

/// What stands before a side that waits: a sign, where it is a right side, and opening brackets.
#[derive(Clone, Copy)]
struct Gap {
    sign: Option<Op>,
    opens: u32,
}

/// Appends an expression (docs/SCENES.md, "Canonical text"), with solids by their names.
///
/// After `Memory` the text is as it was.
pub fn put_expression(
    alloc: Global,
    text: &mut Vec<u8>,
    solids: &[Solid],
    expr: &Expr,
) -> Result<(), Memory>
    requires { HasLeavesBelow (length solids.now) expr.now }
    ensures text { OnOk result (text.new.items ≡ text.old.items
        ++ printed (named_by (names_of solids.now) expr.now)) }
    ensures err { OnErr result (text.new.items ≡ text.old.items) }
    ensures lawful { OnOk result (IsLawfulTree expr.now) }
{
    let mut back = printed_back(alloc, solids, expr)?;
    back.as_mut_slice().reverse();
    text.extend_from_slice(back.as_slice())?;
    Ok(())
}

/// The bytes of an expression, the last one first.
fn printed_back(alloc: Global, solids: &[Solid], expr: &Expr) -> Result<Vec<u8>, Memory>
    requires { HasLeavesBelow (length solids.now) expr.now }
    ensures text { IfOk result (λ back. reverse back.items
        ≡ printed (named_by (names_of solids.now) expr.now)) }
    ensures lawful { OnOk result (IsLawfulTree expr.now) }
{
    let mut back = Vec::new(alloc);
    let mut gaps = Vec::new(alloc);
    gaps.push(Gap {
        sign: None,
        opens: 0,
    })?;
    let mut rest = expr.nodes();
    while let Some((node, before)) = rest.split_last() {
        put_node(&mut back, &mut gaps, solids, node.shape())?;
        rest = before;
    }
    Ok(back)
}

/// Puts a node before what is printed, in the last gap.
fn put_node(
    back: &mut Vec<u8>,
    gaps: &mut Vec<Gap>,
    solids: &[Solid],
    node: Shape,
) -> Result<(), Memory>
    requires leaf { IsLeafBelow (length solids.now) node }
    requires some { 0 < length gaps.old.items }
    requires few { All (λ g. g.opens < 1023) (reverse gaps.old.items) }
    ensures gaps { OnOk result (reverse gaps.new.items
        ≡ gaps_before node (reverse gaps.old.items)) }
    ensures text { OnOk result (reverse back.new.items
        ≡ text_of (names_of solids.now) node (reverse gaps.old.items)
        ++ reverse back.old.items) }
{
    match node {
        Shape::Leaf(place) => put_name(back, gaps, solids[usize::from(place)].name()),
        Shape::Join(op, ..) => put_bracket(back, gaps, op),
    }
}

/// A name, and the gap before it.
fn put_name(back: &mut Vec<u8>, gaps: &mut Vec<Gap>, name: &[u8]) -> Result<(), Memory>
    requires { 0 < length gaps.old.items }
    ensures gaps { OnOk result (reverse gaps.new.items ≡ other_gaps (reverse gaps.old.items)) }
    ensures text { OnOk result (reverse back.new.items
        ≡ (first_gap (reverse gaps.old.items) ++ name.now) ++ reverse back.old.items) }
{
    let gap = take_gap(gaps);
    put_back(back, name)?;
    put_gap(back, gap)
}

fn take_gap(gaps: &mut Vec<Gap>) -> Gap
    requires { 0 < length gaps.old.items }
    ensures { reverse gaps.old.items ≡ result ∷ reverse gaps.new.items }
{
    gaps.pop().unwrap()
}

/// A closing bracket; the gap is split into those of the two sides.
fn put_bracket(back: &mut Vec<u8>, gaps: &mut Vec<Gap>, op: Op) -> Result<(), Memory>
    requires some { 0 < length gaps.old.items }
    requires few { All (λ g. g.opens < 1023) (reverse gaps.old.items) }
    ensures gaps { OnOk result (reverse gaps.new.items ≡ split_gap op (reverse gaps.old.items)) }
    ensures text { OnOk result (reverse back.new.items ≡ 41 ∷ reverse back.old.items) }
{
    let gap = take_gap(gaps);
    gaps.push(Gap {
        sign: gap.sign,
        opens: gap.opens + 1,
    })?;
    gaps.push(Gap {
        sign: Some(op),
        opens: 0,
    })?;
    back.push(b')')?;
    Ok(())
}

fn put_gap(back: &mut Vec<u8>, gap: Gap) -> Result<(), Memory>
    ensures { OnOk result (reverse back.new.items ≡ gap_text gap ++ reverse back.old.items) }
{
    for _ in 0..gap.opens {
        back.push(b'(')?;
    }
    put_sign(back, gap.sign)
}

fn put_sign(back: &mut Vec<u8>, sign: Option<Op>) -> Result<(), Memory>
    ensures { OnOk result (reverse back.new.items ≡ sign_text sign ++ reverse back.old.items) }
{
    if let Some(op) = sign {
        put_back(back, &[b' ', sign_byte(op), b' '])?;
    }
    Ok(())
}

/// Puts bytes before what is printed.
fn put_back(back: &mut Vec<u8>, bytes: &[u8]) -> Result<(), Memory>
    ensures { OnOk result (reverse back.new.items ≡ bytes.now ++ reverse back.old.items) }
{
    let mut rest = bytes;
    while let Some((byte, before)) = rest.split_last() {
        back.push(*byte)?;
        rest = before;
    }
    Ok(())
}
