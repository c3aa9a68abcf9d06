//! The products that can have a cell.
ghost use Rattle.std.specs.Prelude.{◌≡◌, ◌≤◌, ◌*◌, ◌∷◌, ◌++◌, [], ℕ, Option, None, filter, map, length, slice_index_or, All, OnOk, IfOk};
ghost use Rattle.px_normal.specs.declared.cell_box.CellBox.{CellBox as AnyBox};
ghost use Rattle.px_normal.specs.Sets.{solids};
ghost use Rattle.px_normal.specs.Forms.{both, crossed};
ghost use Rattle.px_normal.specs.Live.{boxes_in, box_of_all, has_some_cell, is_live, is_void};
ghost use Rattle.px_normal.specs.Boxed.{IsBoxed, products_in};

use crate::cell_box::{CellBox, EVERYTHING, narrowed};
use crate::{MAX_PRODUCTS, Product};
use px_num::Memory;
use std::alloc::Global;

impl Product {
    /// Whether a solid is both plain and barred.
    pub fn is_void(&self) -> bool
        ensures { result ≡ is_void self.now }
    {
        self.plain.meets(&self.barred)
    }

    /// The common part of the boxes of the plain solids, if each has one: of none, all cells.
    pub fn common_box(&self, boxes: &[Option<CellBox>]) -> Option<CellBox>
        ensures { result ≡ box_of_all (boxes_in boxes.now) (solids self.now.plain) }
    {
        let plain = self.plain.solids();
        plain.iter().fold(
            Some(EVERYTHING),
            |part, q| narrowed(part, box_at(boxes, *q)),
        )
    }
}

/// A product, and the common part of its plain solids' boxes.
#[derive(Clone, Copy)]
pub(crate) struct Boxed {
    product: Product,
    part: Option<CellBox>,
}

impl Boxed {
    fn new(boxes: &[Option<CellBox>], product: Product) -> Boxed
        ensures product { result.product ≡ product }
        ensures boxed { IsBoxed (boxes_in boxes.now) result }
    {
        Boxed {
            product,
            part: product.common_box(boxes),
        }
    }

    /// Whether the product of both is live, by the parts alone: no box is looked up.
    #[tactic(auto, using(crate::proofs::LiveLemmas::live_by_parts))]
    fn is_live_with(&self, other: &Boxed) -> bool
        ensures { (boxes : ℕ → Option AnyBox) → IsBoxed boxes self.now → IsBoxed boxes other.now →
            result ≡ is_live boxes (both self.now.product other.now.product) }
    {
        !self.product.both(&other.product).is_void()
            & has_some_cell(narrowed(self.part, other.part))
    }
}

/// The products of a list with their boxes.
pub(crate) fn boxed_all(
    alloc: Global,
    boxes: &[Option<CellBox>],
    products: &[Product],
) -> Result<Vec<Boxed>, Memory>
    ensures products { IfOk result (λ list. products_in list.items ≡ products.now) }
    ensures boxed { IfOk result (λ list. All (IsBoxed (boxes_in boxes.now)) list.items) }
{
    let mut list = Vec::new(alloc);
    for product in products {
        list.push(Boxed::new(boxes, *product))?;
    }
    Ok(list)
}

/// Whether a product can have a cell: no solid is both plain and barred, and the boxes of the plain
/// ones have a common cell.
#[tactic(auto, unfolding(crate::specs::Live::is_live))]
pub(crate) fn is_live(boxes: &[Option<CellBox>], product: &Product) -> bool
    ensures { result ≡ is_live (boxes_in boxes.now) product.now }
{
    !product.is_void() && has_some_cell(product.common_box(boxes))
}

fn has_some_cell(part: Option<CellBox>) -> bool
    ensures { result ≡ has_some_cell part }
{
    match part {
        Some(part) => part.has_cell(),
        None => false,
    }
}

fn box_at(boxes: &[Option<CellBox>], solid: u8) -> Option<CellBox>
    ensures { result ≡ slice_index_or boxes.now solid None }
{
    match boxes.get(usize::from(solid)) {
        Some(found) => *found,
        None => None,
    }
}

/// How many products of a list are live.
pub(crate) fn count_live(boxes: &[Option<CellBox>], products: &[Product]) -> u32
    requires { length products.now ≤ MAX_PRODUCTS }
    ensures count { result ≡ length (filter (is_live (boxes_in boxes.now)) products.now) }
    ensures most { result ≤ MAX_PRODUCTS }
{
    let mut count = 0;
    for product in products {
        count += u32::from(is_live(boxes, product));
    }
    count
}

/// How many products of one list, each with each of another, are live: none is kept.
pub(crate) fn count_crossed(
    alloc: Global,
    boxes: &[Option<CellBox>],
    first: &[Product],
    second: &[Product],
) -> Result<u32, Memory>
    requires first { length first.now ≤ MAX_PRODUCTS }
    requires second { length second.now ≤ MAX_PRODUCTS }
    ensures count { IfOk result (λ count.
        count ≡ length (filter (is_live (boxes_in boxes.now)) (crossed first.now second.now))) }
    ensures most { IfOk result (λ count. count ≤ MAX_PRODUCTS * MAX_PRODUCTS) }
{
    let second = boxed_all(alloc, boxes, second)?;
    let mut count = 0;
    for p in first {
        count += count_with(boxes, &Boxed::new(boxes, *p), second.as_slice());
    }
    Ok(count)
}

/// How many products of a list are live together with one more.
fn count_with(boxes: &[Option<CellBox>], p: &Boxed, second: &[Boxed]) -> u32
    requires few { length second.now ≤ MAX_PRODUCTS }
    requires one { IsBoxed (boxes_in boxes.now) p.now }
    requires boxed { All (IsBoxed (boxes_in boxes.now)) second.now }
    ensures count { result ≡ length (filter (is_live (boxes_in boxes.now))
        (map (both p.now.product) (products_in second.now))) }
    ensures most { result ≤ MAX_PRODUCTS }
{
    let mut count = 0;
    for q in second {
        count += u32::from(p.is_live_with(q));
    }
    count
}

/// Adds the live products of a list.
pub(crate) fn push_live(
    list: &mut Vec<Product>,
    boxes: &[Option<CellBox>],
    products: &[Product],
) -> Result<(), Memory>
    ensures { OnOk result (list.new.items
        ≡ list.old.items ++ filter (is_live (boxes_in boxes.now)) products.now) }
{
    for product in products {
        push_one(list, boxes, product)?;
    }
    Ok(())
}

/// Adds the live products of one list, each with each of another.
pub(crate) fn push_crossed(
    alloc: Global,
    list: &mut Vec<Product>,
    boxes: &[Option<CellBox>],
    first: &[Product],
    second: &[Product],
) -> Result<(), Memory>
    ensures { OnOk result (list.new.items ≡ list.old.items
        ++ filter (is_live (boxes_in boxes.now)) (crossed first.now second.now)) }
{
    let second = boxed_all(alloc, boxes, second)?;
    for p in first {
        push_with(list, boxes, &Boxed::new(boxes, *p), second.as_slice())?;
    }
    Ok(())
}

/// Adds the products of a list that are live together with one more.
fn push_with(
    list: &mut Vec<Product>,
    boxes: &[Option<CellBox>],
    p: &Boxed,
    second: &[Boxed],
) -> Result<(), Memory>
    requires one { IsBoxed (boxes_in boxes.now) p.now }
    requires boxed { All (IsBoxed (boxes_in boxes.now)) second.now }
    ensures { OnOk result (list.new.items ≡ list.old.items ++ filter (is_live (boxes_in boxes.now))
        (map (both p.now.product) (products_in second.now))) }
{
    for q in second {
        push_both(list, boxes, p, q)?;
    }
    Ok(())
}

/// Adds the product of both, where it is live.
fn push_both(
    list: &mut Vec<Product>,
    boxes: &[Option<CellBox>],
    p: &Boxed,
    q: &Boxed,
) -> Result<(), Memory>
    requires p { IsBoxed (boxes_in boxes.now) p.now }
    requires q { IsBoxed (boxes_in boxes.now) q.now }
    ensures { OnOk result (list.new.items ≡ list.old.items
        ++ filter (is_live (boxes_in boxes.now)) (both p.now.product q.now.product ∷ [])) }
{
    if p.is_live_with(q) {
        list.push(p.product.both(&q.product))?;
    }
    Ok(())
}

/// Adds a product, where it is live.
fn push_one(
    list: &mut Vec<Product>,
    boxes: &[Option<CellBox>],
    product: &Product,
) -> Result<(), Memory>
    ensures { OnOk result (list.new.items
        ≡ list.old.items ++ filter (is_live (boxes_in boxes.now)) (product.now ∷ [])) }
{
    if is_live(boxes, product) {
        list.push(*product)?;
    }
    Ok(())
}
