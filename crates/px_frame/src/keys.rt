//! The numbers that a pixel stores as key B.
ghost use Rattle.std.specs.Prelude.{◌≡◌, ◌+◌, ◌^◌, ◌<◌, ◌≤◌};
ghost use Rattle.px_array.specs.Arrays.{HasPixel, pixel_of};
ghost use Rattle.px_macro.specs.Fields.{number_in};
ghost use Rattle.px_sched.specs.Layouts.{need_of};
ghost use Rattle.px_frame.specs.Stored.{stored_depth, stored_face};

use px_array::Array;
use px_asm::number_in;
use px_macro::Field;
use px_sched::Layout;

/// The depth, without its fraction, and the face number that the pixel (x, y) stores in key B, each
/// below `2^24` (docs/PASSES.md, "Layout").
pub fn stored<A: Array>(array: &A, layout: &Layout, x: u32, y: u32) -> (u32, u32)
    requires pixel { HasPixel (A.view array.now).device x y }
    requires room { need_of layout.now ≤ A.BITS }
    ensures depth { result.0 ≡ stored_depth layout.now (A.view array.now).device.state x y }
    ensures face { result.1 ≡ stored_face layout.now (A.view array.now).device.state x y }
    ensures small { (result.0 < 2 ^ 24) × (result.1 < 2 ^ 24) }
{
    let depth = short_number(array, layout.b_depth(), x, y);
    let face = short_number(array, layout.b_number(), x, y);
    (depth, face)
}

/// The number in a field of at most 24 bits of the memory of the pixel (x, y).
#[tactic(auto, using(px_num::proofs::Basics::pow_mono))]
fn short_number<A: Array>(array: &A, field: Field, x: u32, y: u32) -> u32
    requires pixel { HasPixel (A.view array.now).device x y }
    requires room { field.at + field.len ≤ A.BITS }
    requires low { field.at ≤ 48 }
    requires few { field.len ≤ 24 }
    ensures number { result ≡ number_in field (pixel_of (A.view array.now).device.state x y).memory }
    ensures small { result < 2 ^ 24 }
{
    number_in(array, field, x, y) as u32
}
