//! The products that can show anything.
ghost use Rattle.std.specs.Prelude.{◌≡◌, ◌≤◌, ℕ, false, All, List, Option, Some, None, filter, IfOk, length};
ghost use Rattle.px_normal.specs.Forms.{HasSolidsBelow};
ghost use Rattle.px_normal.specs.Sets.{empty, solids};
ghost use Rattle.px_prune.specs.Kept.{crowd_of, kept_of, kept_products, meets, plan_of, pruned, staying};
ghost use Rattle.px_normal.specs.Live.{boxes_in, is_live, is_void};
ghost use Rattle.px_prune.specs.Bounding.{bounding_box};
ghost use Rattle.px_prune.specs.PruningLaw.{PlainIsKept, PruningLaw};
ghost use Rattle.px_normal.specs.declared.product.Product.{Product};
ghost use Rattle.px_model.specs.Scenes.{SceneView, IsLawfulScene};

use crate::bounds::boxes_of;
use crate::{CellBox, MAX_PRODUCTS};
use px_model::Scene;
use px_normal::{NormalFault, Product, Products, SolidSet, normalise};
use px_num::Memory;
use std::alloc::Global;

/// The products of a scene that can show anything.
#[derive(Drop)]
pub struct Plan {
    pub products: Vec<Product>,
}

/// Keeps the products that can show anything, in their order (docs/PICTURE.md, "Boxes and
/// pruning").
///
/// At most `MAX_PRODUCTS` products. Where they are the live ones of an expression, the same is kept as of the
/// whole list.
pub fn prune(alloc: Global, scene: &Scene, products: &Products) -> Result<Plan, Memory>
    requires few { length products.now ≤ MAX_PRODUCTS }
    ensures kept { IfOk result (λ plan. plan.products.items ≡ kept_of scene.now products.now) }
    ensures fewer { IfOk result (λ plan. length plan.products.items ≤ length products.now) }
    ensures law { IfOk result (λ plan. PruningLaw scene.now products.now plan.products.items) }
{
    let boxes = boxes_of(alloc, scene)?;
    let kept = kept_products(alloc, boxes.as_slice(), products.as_slice())?;
    laws_of_pruning();
    Ok(Plan { products: kept })
}

/// The plan of a scene: what is kept of the sum of products of its expression.
///
/// Only the live products are made. `TooMany` has the length of the first wanted list that is too
/// long (docs/PICTURE.md, "Live products").
pub fn plan_of(alloc: Global, scene: &Scene) -> Result<Plan, NormalFault>
    ensures kept { IfOk result (λ plan. plan.products.items ≡ plan_of scene.now) }
    ensures few { IfOk result (λ plan. length plan.products.items ≤ MAX_PRODUCTS) }
    ensures lawful { IfOk result (λ plan. crowd_of scene.now ≡ None) }
    ensures many { (count : ℕ) → result ≡ Err (NormalFault.TooMany count) →
        crowd_of scene.now ≡ Some count }
{
    laws_of_pruning();
    let boxes = boxes_of(alloc, scene)?;
    let products = normalise(alloc, scene.show(), boxes.as_slice())?;
    let kept = kept_products(alloc, boxes.as_slice(), products.as_slice())?;
    Ok(Plan { products: kept })
}

/// What is kept by the boxes of the solids shows the same as the whole. No product of it has a solid
/// both plain and barred, and its solids are below each count that those of the whole are below. Of
/// the live ones alone the same is kept.
pub fn laws_of_pruning()
    ensures law { (scene : SceneView) → IsLawfulScene scene → (products : List Product)
        → PruningLaw scene products (kept_of scene products) }
    ensures apart { (scene : SceneView) (products : List Product) →
        All (λ product. is_void product ≡ false) (kept_of scene products) }
    ensures plain { PlainIsKept }
    ensures known { (count : ℕ) (scene : SceneView) (products : List Product) →
        All (HasSolidsBelow count) products → All (HasSolidsBelow count) (kept_of scene products) }
    ensures live { (scene : SceneView) (products : List Product) →
        kept_of scene (filter (is_live (bounding_box scene)) products) ≡ kept_of scene products }
{}

fn kept_products(
    alloc: Global,
    boxes: &[Option<CellBox>],
    products: &[Product],
) -> Result<Vec<Product>, Memory>
    ensures kept { IfOk result (λ kept.
        kept.items ≡ kept_products (boxes_in boxes.now) products.now) }
    ensures fewer { IfOk result (λ kept. length kept.items ≤ length products.now) }
{
    let mut kept = Vec::new(alloc);
    for product in products.iter().filter_map(|product| pruned(boxes, product)) {
        kept.push(product)?;
    }
    Ok(kept)
}

/// A product with the barred solids that count, if it can have a cell.
fn pruned(boxes: &[Option<CellBox>], product: &Product) -> Option<Product>
    ensures { result ≡ pruned (boxes_in boxes.now) product.now }
{
    if product.is_void() {
        return None;
    }
    let part = product.common_box(boxes)?;
    if !part.has_cell() {
        return None;
    }
    Some(Product {
        plain: product.plain,
        barred: staying(boxes, part, &product.barred),
    })
}

/// The barred solids that can take a cell from the product's box, or show a back in it.
fn staying(boxes: &[Option<CellBox>], part: CellBox, barred: &SolidSet) -> SolidSet
    ensures { result ≡ staying (boxes_in boxes.now) part barred.now }
{
    let barred = barred.solids();
    barred
        .iter()
        .filter(|q| meets(box_at(boxes, **q), part))
        .fold(no_solid(), |set, q| set.with(*q))
}

fn no_solid() -> SolidSet
    ensures { result ≡ empty }
{
    SolidSet::default()
}

/// Whether a box meets a part, with the cells just behind its last ones.
///
/// A barred solid shows its backs there, where they can tie with a plain solid's front.
fn meets(barred: Option<CellBox>, part: CellBox) -> bool
    ensures { result ≡ meets barred part }
{
    match barred {
        None => false,
        Some(barred) => {
            let behind = CellBox {
                z1: barred.z1.saturating_add(1),
                ..barred
            };
            behind.common_part(&part).has_cell()
        }
    }
}

fn box_at(boxes: &[Option<CellBox>], solid: u8) -> Option<CellBox>
    ensures { result ≡ boxes_in boxes.now solid }
{
    match boxes.get(usize::from(solid)) {
        Some(found) => *found,
        None => None,
    }
}
