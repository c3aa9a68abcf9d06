//! The live products of a node and of its complement.
ghost use Rattle.std.specs.Prelude.{◌≡◌, ◌<◌, ◌≤◌, ◌∷◌, ◌++◌, [], ℕ, Some, None, filter, length, reverse, vec_len, OnOk, OnErr, IfOk};
ghost use Rattle.px_expr.specs.Tree.{leaf};
ghost use Rattle.px_normal.specs.Forms.{forms, combined_forms, sum_in, sum_when};
ghost use Rattle.px_normal.specs.Live.{boxes_in, is_live};
ghost use Rattle.px_normal.specs.Crowd.{both_lists, first_past_limit, wanted_forms, where_wanted};
ghost use Rattle.px_normal.specs.Building.{built, newest_lists, CanBuild};

use crate::cell_box::CellBox;
use crate::live::{count_crossed, count_live, is_live, push_crossed, push_live};
use crate::step::{Step, Wanted};
use crate::{MAX_PRODUCTS, NormalFault, Product};
use px_expr::{Combination, Op, Sense};
use px_num::Memory;
use std::alloc::Global;
use std::marker::Model;

/// The live products of an expression and of its complement, each at most `MAX_PRODUCTS`. A list that is not
/// wanted is empty. Contracts see both lists.
#[derive(Drop)]
pub(crate) struct Sums {
    products: Vec<Product>,
    complement: Vec<Product>,
}

impl Model for Sums {
    ghost use Rattle.std.specs.Prelude.{◌≤◌, length};
    ghost use Rattle.px_normal.specs.Forms.{Forms};
    ghost use Rattle.px_normal.specs.declared.product.TheConstants.{MAX_PRODUCTS};

    ghost Value = { Forms };

    ghost view = { λ sums.
        record { products = sums.products.items; complement = sums.complement.items } };

    ghost invariant = { λ sums.
        (length sums.products.items ≤ MAX_PRODUCTS) × (length sums.complement.items ≤ MAX_PRODUCTS) };
}

/// Makes a step: the lists of a node in place of its sides'.
pub(crate) fn build(
    alloc: Global,
    boxes: &[Option<CellBox>],
    stack: &mut Vec<Sums>,
    step: Step,
) -> Result<(), NormalFault>
    requires { CanBuild (vec_len stack.old) step }
    ensures lists { OnOk result
        (reverse stack.new.items ≡ built (boxes_in boxes.now) (reverse stack.old.items) step) }
    ensures few { OnOk result (first_past_limit (newest_lists (reverse stack.new.items)) ≡ None) }
    ensures many { (count : ℕ) → result ≡ Err (NormalFault.TooMany count) → first_past_limit
        (newest_lists (built (boxes_in boxes.now) (reverse stack.old.items) step)) ≡ Some count }
{
    let sums = sums_of(alloc, boxes, stack, step)?;
    put(stack, sums)?;
    Ok(())
}

fn put(stack: &mut Vec<Sums>, sums: Sums) -> Result<(), Memory>
    ensures { OnOk result (stack.new.items ≡ stack.old.items ++ sums ∷ []) }
{
    stack.push(sums)?;
    Ok(())
}

/// The lists of a step's node. Its two sides' are taken from the stack.
fn sums_of(
    alloc: Global,
    boxes: &[Option<CellBox>],
    stack: &mut Vec<Sums>,
    step: Step,
) -> Result<Sums, NormalFault>
    requires { CanBuild (vec_len stack.old) step }
    ensures lists { IfOk result (λ sums. sums ∷ reverse stack.new.items
        ≡ built (boxes_in boxes.now) (reverse stack.old.items) step) }
    ensures few { IfOk result (λ sums. first_past_limit (both_lists sums) ≡ None) }
    ensures many { (count : ℕ) → result ≡ Err (NormalFault.TooMany count) → first_past_limit
        (newest_lists (built (boxes_in boxes.now) (reverse stack.old.items) step)) ≡ Some count }
{
    match step {
        Step::Leaf(solid, wanted) => Ok(Sums::of_solid(alloc, boxes, solid, wanted)?),
        Step::Join(op, wanted) => {
            let right = stack.pop().unwrap();
            let left = stack.pop().unwrap();
            Ok(Sums::of_sides(alloc, boxes, op, wanted, &left, &right)?)
        }
    }
}

impl Sums {
    /// The products alone.
    pub(crate) fn into_products(self) -> Vec<Product>
        ensures list { result.items ≡ self.products }
        ensures few { length result.items ≤ MAX_PRODUCTS }
    {
        let Sums {
            products,
            complement: _,
        } = self;
        products
    }

    fn products(&self) -> &[Product]
        ensures list { result.now ≡ self.now.products }
        ensures few { length result.now ≤ MAX_PRODUCTS }
    {
        self.products.as_slice()
    }

    fn complement(&self) -> &[Product]
        ensures list { result.now ≡ self.now.complement }
        ensures few { length result.now ≤ MAX_PRODUCTS }
    {
        self.complement.as_slice()
    }

    /// The products of a side in its sense.
    fn in_sense(&self, sense: Sense) -> &[Product]
        ensures list { result.now ≡ sum_in sense self.now }
        ensures few { length result.now ≤ MAX_PRODUCTS }
    {
        match sense {
            Sense::Plain => self.products(),
            Sense::Complement => self.complement(),
        }
    }

    /// The lists of a solid.
    fn of_solid(
        alloc: Global,
        boxes: &[Option<CellBox>],
        solid: u8,
        wanted: Wanted,
    ) -> Result<Sums, Memory>
        ensures lists { IfOk result (λ sums.
            sums ≡ wanted_forms (boxes_in boxes.now) wanted (forms (leaf solid))) }
        ensures few { IfOk result (λ sums. first_past_limit (both_lists sums) ≡ None) }
    {
        Ok(Sums {
            products: one_live(alloc, boxes, Product::plain_one(solid), wanted.products)?,
            complement: one_live(alloc, boxes, Product::barred_one(solid), wanted.complement)?,
        })
    }

    /// The lists of a node by those of its sides.
    fn of_sides(
        alloc: Global,
        boxes: &[Option<CellBox>],
        op: Op,
        wanted: Wanted,
        left: &Sums,
        right: &Sums,
    ) -> Result<Sums, NormalFault>
        ensures lists { IfOk result (λ sums.
            sums ≡ wanted_forms (boxes_in boxes.now) wanted (combined_forms op left.now right.now)) }
        ensures few { IfOk result (λ sums. first_past_limit (both_lists sums) ≡ None) }
        ensures many { (count : ℕ) → result ≡ Err (NormalFault.TooMany count) →
            first_past_limit (both_lists
            (wanted_forms (boxes_in boxes.now) wanted (combined_forms op left.now right.now)))
            ≡ Some count }
    {
        let own = op.combination();
        let others = own.complement();
        Ok(Sums {
            products: list_of(alloc, boxes, own, wanted.products, left, right)?,
            complement: list_of(alloc, boxes, others, wanted.complement, left, right)?,
        })
    }
}

/// A product, where it is wanted and live.
fn one_live(
    alloc: Global,
    boxes: &[Option<CellBox>],
    product: Product,
    wanted: bool,
) -> Result<Vec<Product>, Memory>
    ensures list { IfOk result (λ list. list.items
        ≡ where_wanted wanted (filter (is_live (boxes_in boxes.now)) (product ∷ []))) }
    ensures few { IfOk result (λ list. length list.items ≤ MAX_PRODUCTS) }
{
    let mut list = Vec::new(alloc);
    if wanted && is_live(boxes, &product) {
        list.push(product)?;
    }
    Ok(list)
}

/// The live products that a combination makes of those of two sides, where they are wanted.
fn list_of(
    alloc: Global,
    boxes: &[Option<CellBox>],
    combination: Combination,
    wanted: bool,
    left: &Sums,
    right: &Sums,
) -> Result<Vec<Product>, NormalFault>
    ensures list { IfOk result (λ list. list.items ≡ where_wanted wanted
        (filter (is_live (boxes_in boxes.now)) (sum_when combination left.now right.now))) }
    ensures few { IfOk result (λ list. length list.items ≤ MAX_PRODUCTS) }
    ensures many { (count : ℕ) → result ≡ Err (NormalFault.TooMany count) → first_past_limit
        (where_wanted wanted
        (filter (is_live (boxes_in boxes.now)) (sum_when combination left.now right.now))
        ∷ []) ≡ Some count }
{
    if !wanted {
        return Ok(Vec::new(alloc));
    }
    check_limit(count_of(alloc, boxes, combination, left, right)?)?;
    Ok(live_of(alloc, boxes, combination, left, right)?)
}

/// How many live products a combination makes of those of two sides: none is kept.
fn count_of(
    alloc: Global,
    boxes: &[Option<CellBox>],
    combination: Combination,
    left: &Sums,
    right: &Sums,
) -> Result<u32, Memory>
    ensures count { IfOk result (λ count. count ≡ length
        (filter (is_live (boxes_in boxes.now)) (sum_when combination left.now right.now))) }
{
    match combination {
        Combination::Both(first, second) => {
            count_crossed(alloc, boxes, left.in_sense(first), right.in_sense(second))
        }
        Combination::Either(first, second) => {
            Ok(count_live(boxes, left.in_sense(first)) + count_live(boxes, right.in_sense(second)))
        }
        Combination::EitherWay(sense) => {
            let own = right.in_sense(sense);
            let others = right.in_sense(sense.opposite());
            let count = count_crossed(alloc, boxes, left.products(), own)?;
            Ok(count + count_crossed(alloc, boxes, left.complement(), others)?)
        }
    }
}

/// The live products that a combination makes of those of two sides.
fn live_of(
    alloc: Global,
    boxes: &[Option<CellBox>],
    combination: Combination,
    left: &Sums,
    right: &Sums,
) -> Result<Vec<Product>, Memory>
    ensures { IfOk result (λ list. list.items
        ≡ filter (is_live (boxes_in boxes.now)) (sum_when combination left.now right.now)) }
{
    let mut list = Vec::new(alloc);
    match combination {
        Combination::Both(first, second) => {
            let others = right.in_sense(second);
            push_crossed(alloc, &mut list, boxes, left.in_sense(first), others)?;
        }
        Combination::Either(first, second) => {
            push_live(&mut list, boxes, left.in_sense(first))?;
            push_live(&mut list, boxes, right.in_sense(second))?;
        }
        Combination::EitherWay(sense) => {
            let own = right.in_sense(sense);
            let others = right.in_sense(sense.opposite());
            push_crossed(alloc, &mut list, boxes, left.products(), own)?;
            push_crossed(alloc, &mut list, boxes, left.complement(), others)?;
        }
    }
    Ok(list)
}

/// Whether a list can have so many products.
fn check_limit(count: u32) -> Result<(), NormalFault>
    ensures ok { OnOk result (count ≤ MAX_PRODUCTS) }
    ensures err { OnErr result (MAX_PRODUCTS < count) }
    ensures many { MAX_PRODUCTS < count → result ≡ Err (NormalFault.TooMany count) }
{
    if count > MAX_PRODUCTS {
        return Err(NormalFault::TooMany { count });
    }
    Ok(())
}
