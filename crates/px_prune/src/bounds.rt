//! The least box of a solid's cells.
ghost use Rattle.std.specs.Prelude.{
  ◌≡◌,
  ◌<◌,
  ◌≤◌,
  ◌^◌,
  ◌*◌,
  ◌≤ℤ◌,
  ◌<ℤ◌,
  ◌&&◌,
  ℕ,
  Bool,
  true,
  false,
  nat_le,
  nat_lt,
  pos,
  length,
  All,
  map,
  fold,
  Option,
  None,
  IfOk,
};
ghost use Rattle.std.specs.Int.{int_max, int_min};
ghost use Rattle.std.specs.List.{list_all};
ghost use Rattle.std.specs.Int.Signed.{le_z, lt_z};
ghost use Rattle.px_model.specs.Scenes.{IsPlane, IsLawfulScene};
ghost use Rattle.px_model.specs.Cells.{cell_of, depths, is_inside};
ghost use Rattle.px_model.specs.declared.limits.TheConstants.{MAX_PICTURE_SIZE};
ghost use Rattle.px_num.specs.Forms.{IsInHalfRange, value_at};
ghost use Rattle.px_prune.specs.Blocks.{
  IsReachOf,
  IsShutAt,
  greatest_in,
  has_pixel,
  in_block,
  least_in,
  with_block,
};
ghost use Rattle.px_normal.specs.Live.{boxes_in};
ghost use Rattle.px_prune.specs.Bounding.{bounding_box, IsBoundingBox, IsBoxOf};

use crate::CellBox;
use crate::block::Block;
use crate::hull::{hull, is_covered};
use px_model::{Face, Scene, Solid};
use px_num::{Linear, Memory, power};
use std::alloc::Global;

/// The least box that holds all cells of a solid at the pixels of the picture, or none where the
/// solid has no cell there (docs/PICTURE.md, "Live products").
pub fn box_of(scene: &Scene, solid: usize) -> Option<CellBox>
    requires { solid < length scene.now.solids }
    ensures least { IsBoundingBox scene.now solid result }
    ensures joined { result ≡ bounding_box scene.now solid }
{
    let picture = Block::of_picture(scene.width(), scene.height());
    let solid = &scene.solids()[solid];
    grown(None, solid, scene.far(), scene.fraction_bits(), &picture)
}

/// The boxes of the solids of a scene, in their order.
pub fn boxes_of(alloc: Global, scene: &Scene) -> Result<Vec<Option<CellBox>>, Memory>
    ensures boxes { IfOk result (λ boxes. (solid : ℕ)
        → IsBoundingBox scene.now solid (boxes_in boxes.items solid)) }
    ensures all { IfOk result (λ boxes. boxes_in boxes.items ≡ bounding_box scene.now) }
    ensures count { IfOk result (λ boxes. length boxes.items ≡ length scene.now.solids) }
    ensures lawful { IsLawfulScene scene.now }
{
    let mut boxes = Vec::new(alloc);
    for solid in 0..scene.solids().len() {
        boxes.push(box_of(scene, solid))?;
    }
    Ok(boxes)
}

/// The least box of some cells, whose box is `found`, and of a solid's cells in a block.
///
/// Where the cells that the solid can have in the block lie in `found`, or one of its fronts is nowhere before one of its
/// backs, its pixels are passed over.
fn grown(
    found: Option<CellBox>,
    solid: &Solid,
    far: u32,
    fraction_bits: u32,
    block: &Block,
) -> Option<CellBox>
    requires fraction { fraction_bits ≤ 8 }
    requires far { far < 2 ^ 24 }
    ensures { (cells : ℕ → ℕ → ℕ → Bool) → IsBoxOf cells found
        → IsBoxOf (with_block cells (is_inside solid.now (depths far fraction_bits)) block.now) result }
{
    let reach = reach(solid, far, fraction_bits, block);
    if is_covered(reach, found) {
        return found;
    }
    if block.is_pixel() {
        return hull(found, reach);
    }
    if block.is_wide() && is_shut(solid, far, fraction_bits, block) {
        return found;
    }
    let (first, second) = block.parts(found);
    let half_grown = grown(found, solid, far, fraction_bits, &first);
    grown(half_grown, solid, far, fraction_bits, &second)
}

/// A box that holds a solid's cells in a block, and is their least box where that is one pixel.
fn reach(solid: &Solid, far: u32, fraction_bits: u32, block: &Block) -> Option<CellBox>
    requires fraction { fraction_bits ≤ 8 }
    requires far { far < 2 ^ 24 }
    ensures { IsReachOf (is_inside solid.now (depths far fraction_bits)) block.now result }
{
    if !sides_reach(solid.sides(), block) {
        return None;
    }
    let first = first_depth(solid.fronts(), fraction_bits, block);
    let end = end_depth(solid.backs(), far, fraction_bits, block);
    if first >= end {
        return None;
    }
    Some(CellBox {
        x0: block.x0,
        x1: block.x1,
        y0: block.y0,
        y1: block.y1,
        z0: first as u32,
        z1: end as u32 - 1,
    })
}

/// Whether a solid has no cell in a block since a front of it leaves no room there before a back: those two are tried that
/// are nearest to it at the block's first pixel.
fn is_shut(solid: &Solid, far: u32, fraction_bits: u32, block: &Block) -> bool
    requires fraction { fraction_bits ≤ 8 }
    requires far { far < 2 ^ 24 }
    ensures { result ≡ true → (x y z : ℕ) →
        in_block (is_inside solid.now (depths far fraction_bits)) block.now x y z ≡ false }
{
    let front = furthest_front(solid.fronts(), block);
    let back = nearest_back(solid.backs(), end_value(far, fraction_bits), block);
    leaves_none(&front, &back, fraction_bits, block)
}

/// Whether a front leaves no room for a cell before a back in a block, where that is seen at a corner, or the block is small.
fn leaves_none(front: &Linear, back: &Linear, fraction_bits: u32, block: &Block) -> bool
    requires front { IsInHalfRange front.now }
    requires back { IsInHalfRange back.now }
    requires fraction { fraction_bits ≤ 8 }
    ensures { (x y : ℕ) → result ≡ true → has_pixel block.now x y ≡ true
        → IsShutAt front.now back.now fraction_bits x y }
{
    if block.greatest(&back.minus(front)) <= 0 {
        return true;
    }
    block.is_small() && !is_room(front, back, fraction_bits, block)
}

/// Whether a front leaves room for a cell before a back at some pixel of a block.
fn is_room(front: &Linear, back: &Linear, fraction_bits: u32, block: &Block) -> bool
    requires front { IsInHalfRange front.now }
    requires back { IsInHalfRange back.now }
    requires fraction { fraction_bits ≤ 8 }
    ensures { (x y : ℕ) → result ≡ false → has_pixel block.now x y ≡ true
        → IsShutAt front.now back.now fraction_bits x y }
{
    for y in block.y0..block.y1 + 1 {
        for x in block.x0..block.x1 + 1 {
            if is_room_at(front, back, fraction_bits, x, y) {
                return true;
            }
        }
    }
    false
}

/// Whether a front leaves room for a cell before a back at a pixel.
fn is_room_at(front: &Linear, back: &Linear, fraction_bits: u32, x: u32, y: u32) -> bool
    requires front { IsInHalfRange front.now }
    requires back { IsInHalfRange back.now }
    requires fraction { fraction_bits ≤ 8 }
    requires x { x < MAX_PICTURE_SIZE }
    requires y { y < MAX_PICTURE_SIZE }
    ensures { result ≡ false → IsShutAt front.now back.now fraction_bits x y }
{
    cell_at(front, fraction_bits, x, y) < cell_at(back, fraction_bits, x, y)
}

/// The first cell at a pixel that is not before a form's value.
fn cell_at(form: &Linear, fraction_bits: u32, x: u32, y: u32) -> u64
    requires range { IsInHalfRange form.now }
    requires fraction { fraction_bits ≤ 8 }
    requires x { x < MAX_PICTURE_SIZE }
    requires y { y < MAX_PICTURE_SIZE }
    ensures { (far : ℕ) → result ≡ cell_of (depths far fraction_bits) (value_at form.now x y) }
{
    cell_of(form.value(x, y), fraction_bits)
}

/// The plane of the front that is furthest at the first pixel of a block, the near face among them.
fn furthest_front(fronts: &[Face], block: &Block) -> Linear
    requires { All (λ f. IsPlane f.plane) fronts.now }
    ensures range { IsInHalfRange result }
    ensures before { (x y value : ℕ) → list_all (λ f. le_z (value_at f.plane x y) (pos value)) fronts.now ≡ true
        → value_at result x y ≤ℤ pos value }
{
    let mut found = Linear::default();
    for face in fronts {
        if found.value(block.x0, block.y0) < face.plane.value(block.x0, block.y0) {
            found = face.plane;
        }
    }
    found
}

/// The plane of the back that is nearest at the first pixel of a block, the far limit among them.
fn nearest_back(backs: &[Face], end: u64, block: &Block) -> Linear
    requires planes { All (λ f. IsPlane f.plane) backs.now }
    requires small { end < 2 ^ 32 }
    ensures range { IsInHalfRange result }
    ensures behind { (x y value : ℕ) → value < end
        → list_all (λ f. lt_z (pos value) (value_at f.plane x y)) backs.now ≡ true → pos value <ℤ value_at result x y }
{
    let mut found = Linear {
        a: 0,
        b: 0,
        c: end as i64,
    };
    for face in backs {
        if face.plane.value(block.x0, block.y0) < found.value(block.x0, block.y0) {
            found = face.plane;
        }
    }
    found
}

/// Whether each side holds somewhere in a block.
fn sides_reach(sides: &[Linear], block: &Block) -> bool
    requires { All IsPlane sides.now }
    ensures { result ≡ list_all (λ side. le_z (pos 0) (greatest_in block.now side)) sides.now }
{
    sides.iter().all(|side| block.greatest(side) >= 0)
}

/// The first depth that each front, the near face among them, is at or before somewhere in a block.
fn first_depth(fronts: &[Face], fraction_bits: u32, block: &Block) -> u64
    requires planes { All (λ f. IsPlane f.plane) fronts.now }
    requires fraction { fraction_bits ≤ 8 }
    ensures { (z : ℕ) → list_all (λ f. le_z (least_in block.now f.plane) (pos (z * 2 ^ fraction_bits))) fronts.now
        ≡ nat_le result z }
{
    cell_of(greatest_front(fronts, block), fraction_bits)
}

/// The first cell whose value is at least this.
fn cell_of(value: i64, fraction_bits: u32) -> u64
    requires value { value <ℤ pos (2 ^ 39) }
    requires fraction { fraction_bits ≤ 8 }
    ensures { (far : ℕ) → result ≡ cell_of (depths far fraction_bits) value }
{
    (value.max(0) as u64 + (power(fraction_bits) as u64 - 1)) >> fraction_bits
}

/// The first depth from which some back, the far limit among them, is passed all over a block.
fn end_depth(backs: &[Face], far: u32, fraction_bits: u32, block: &Block) -> u64
    requires planes { All (λ f. IsPlane f.plane) backs.now }
    requires fraction { fraction_bits ≤ 8 }
    requires far { far < 2 ^ 24 }
    ensures depth { (z : ℕ) →
        (nat_lt (z * 2 ^ fraction_bits) (far * 2 ^ fraction_bits)
        && list_all (λ f. lt_z (pos (z * 2 ^ fraction_bits)) (greatest_in block.now f.plane)) backs.now)
        ≡ nat_lt z result }
    ensures far { result ≤ far }
{
    let least = least_back(backs, end_value(far, fraction_bits), block);
    cell_of(least, fraction_bits)
}

/// The value of the far limit.
fn end_value(far: u32, fraction_bits: u32) -> u64
    requires fraction { fraction_bits ≤ 8 }
    requires far { far < 2 ^ 24 }
    ensures value { result ≡ far * 2 ^ fraction_bits }
    ensures small { result < 2 ^ 32 }
{
    u64::from(far) * power(fraction_bits) as u64
}

/// The greatest of the near face's value, which is 0, and the least values of the fronts in a block.
fn greatest_front(fronts: &[Face], block: &Block) -> i64
    requires { All (λ f. IsPlane f.plane) fronts.now }
    ensures value { result ≡
        fold int_max (pos 0) (map (λ f. least_in block.now f.plane) fronts.now) }
    ensures low { pos 0 ≤ℤ result }
    ensures high { result <ℤ pos (2 ^ 39) }
{
    let mut greatest = 0;
    for face in fronts {
        greatest = block.least(&face.plane).max(greatest);
    }
    greatest
}

/// The least of the far limit's value and the greatest values of the backs in a block.
fn least_back(backs: &[Face], end: u64, block: &Block) -> i64
    requires planes { All (λ f. IsPlane f.plane) backs.now }
    requires small { end < 2 ^ 32 }
    ensures value { result ≡
        fold int_min (pos end) (map (λ f. greatest_in block.now f.plane) backs.now) }
    ensures high { result ≤ℤ pos end }
{
    let mut least = end as i64;
    for face in backs {
        least = block.greatest(&face.plane).min(least);
    }
    least
}
