//! The normal form of an expression.
ghost use Rattle.std.specs.Prelude.{◌≡◌, ◌≤◌, ℕ, All, Option, Some, None, length, IfOk};
ghost use Rattle.px_expr.specs.Tree.{Tree, HasLeavesBelow};
ghost use Rattle.px_expr.specs.Cells.{Cell, cell};
ghost use Rattle.px_normal.specs.declared.cell_box.CellBox.{CellBox as AnyBox};
ghost use Rattle.px_normal.specs.Forms.{forms, sum_of_products, HasPlain, HasSolidsBelow};
ghost use Rattle.px_normal.specs.NormalLaw.{IsNormalForm};
ghost use Rattle.px_normal.specs.Live.{boxes_in, live_products};
ghost use Rattle.px_normal.specs.LiveLaw.{LiveLaw};
ghost use Rattle.px_normal.specs.Crowd.{crowd};
ghost use Rattle.px_normal.specs.CrowdLaw.{CrowdLaw};

use crate::cell_box::CellBox;
use crate::step::steps;
use crate::sums::{Sums, build};
use crate::{MAX_PRODUCTS, NormalFault, Product, Products};
use px_expr::Expr;
use std::alloc::Global;

/// The live products of an expression, by the boxes of its solids, repeats included
/// (docs/PICTURE.md, "Live products").
///
/// A solid has its box in `boxes` by its index; one past their end has none. `TooMany` comes where
/// a list that is wanted has more than `MAX_PRODUCTS`, with the length of the first such list. A
/// list is counted before it is kept, so the one that is refused takes no memory.
pub fn normalise(
    alloc: Global,
    expr: &Expr,
    boxes: &[Option<CellBox>],
) -> Result<Products, NormalFault>
    ensures list { IfOk result (λ products.
        products ≡ live_products (boxes_in boxes.now) expr.now) }
    ensures short { IfOk result (λ products. length products ≤ MAX_PRODUCTS) }
    ensures few { IfOk result (λ products. crowd (boxes_in boxes.now) expr.now ≡ None) }
    ensures many { (count : ℕ) → result ≡ Err (NormalFault.TooMany count) →
        crowd (boxes_in boxes.now) expr.now ≡ Some count }
    ensures law { (solid_at : ℕ → Cell) →
        IsNormalForm solid_at (forms expr.now) (cell solid_at expr.now) }
    ensures live { LiveLaw (boxes_in boxes.now) }
    ensures crowd { CrowdLaw (boxes_in boxes.now) }
    ensures plain { All HasPlain (live_products (boxes_in boxes.now) expr.now) }
    ensures known { (count : ℕ) → HasLeavesBelow count expr.now →
        All (HasSolidsBelow count) (live_products (boxes_in boxes.now) expr.now) }
{
    law_of_products(expr, boxes);
    Ok(Products::new(products_of(alloc, expr, boxes)?))
}

/// The live products of an expression, by its steps.
fn products_of(
    alloc: Global,
    expr: &Expr,
    boxes: &[Option<CellBox>],
) -> Result<Vec<Product>, NormalFault>
    ensures list { IfOk result (λ products.
        products.items ≡ live_products (boxes_in boxes.now) expr.now) }
    ensures short { IfOk result (λ products. length products.items ≤ MAX_PRODUCTS) }
    ensures few { IfOk result (λ products. crowd (boxes_in boxes.now) expr.now ≡ None) }
    ensures many { (count : ℕ) → result ≡ Err (NormalFault.TooMany count) →
        crowd (boxes_in boxes.now) expr.now ≡ Some count }
{
    let steps = steps(alloc, expr)?;
    let mut stack = Vec::<Sums>::new(alloc);
    let mut rest = steps.as_slice();
    while let Some((step, before)) = rest.split_last() {
        build(alloc, boxes, &mut stack, *step)?;
        rest = before;
    }
    Ok(stack.pop().unwrap().into_products())
}

/// The laws of live products: how a list is made of its sides' live lists, what live products have
/// and show at a place, and that without a `^` no wanted list is longer than the whole sum.
#[tactic(auto, using(crate::proofs::ShorterLemmas::all_shorter, crate::proofs::ShorterLemmas::never_crowded))]
pub fn laws_of_live_products()
    ensures live { (boxes : ℕ → Option AnyBox) → LiveLaw boxes }
    ensures crowd { (boxes : ℕ → Option AnyBox) → CrowdLaw boxes }
{}

/// What is known of the products of an expression, and of the live ones.
#[tactic(auto, using(crate::proofs::ShorterLemmas::all_shorter, crate::proofs::ShorterLemmas::never_crowded))]
fn law_of_products(expr: &Expr, boxes: &[Option<CellBox>])
    ensures law { (solid_at : ℕ → Cell) →
        IsNormalForm solid_at (forms expr.now) (cell solid_at expr.now) }
    ensures live { LiveLaw (boxes_in boxes.now) }
    ensures crowd { CrowdLaw (boxes_in boxes.now) }
    ensures plain { All HasPlain (live_products (boxes_in boxes.now) expr.now) }
    ensures known { (count : ℕ) → HasLeavesBelow count expr.now →
        All (HasSolidsBelow count) (live_products (boxes_in boxes.now) expr.now) }
{
    laws_of_normal_forms();
    let _ = expr.nodes();
}

/// What is known of the products of every tree over at most 256 solids.
#[tactic(auto, using(crate::proofs::NormalLemmas::all_plain))]
pub fn laws_of_normal_forms()
    ensures law { (tree : Tree) → HasLeavesBelow 256 tree → (solid_at : ℕ → Cell) →
        IsNormalForm solid_at (forms tree) (cell solid_at tree) }
    ensures plain { (tree : Tree) → HasLeavesBelow 256 tree → All HasPlain (sum_of_products tree) }
    ensures known { (count : ℕ) (tree : Tree) → HasLeavesBelow 256 tree →
        HasLeavesBelow count tree → All (HasSolidsBelow count) (sum_of_products tree) }
{}
