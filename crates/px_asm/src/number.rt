//! The number that a pixel has in a field of its memory.
ghost use Rattle.std.specs.Prelude.{◌≡◌, ◌+◌, ◌^◌, ◌<◌, ◌≤◌, if◌then◌else◌};
ghost use Rattle.px_array.specs.Arrays.{HasPixel, pixel_of};
ghost use Rattle.px_macro.specs.Fields.{number_in};

use px_array::Array;
use px_macro::Field;

/// The number in a field of at most 40 bits of the memory of the pixel (x, y), whose lowest bit is
/// the field's first (docs/MACHINE.md, "Broadcast operations").
pub fn number_in<A: Array>(array: &A, field: Field, x: u32, y: u32) -> u64
    requires pixel { HasPixel (A.view array.now).device x y }
    requires room { field.at + field.len ≤ A.BITS }
    requires places { field.at + field.len < 2 ^ 32 }
    requires few { field.len ≤ 40 }
    ensures number { result ≡ number_in field (pixel_of (A.view array.now).device.state x y).memory }
    ensures small { result < 2 ^ field.len }
{
    let mut number = 0;
    for t in 0..field.len {
        number += bit_value(array.bit(x, y, field.at + t), t);
    }
    number
}

/// What bit `t` of a number counts.
fn bit_value(bit: bool, t: u32) -> u64
    requires { t < 40 }
    ensures { result ≡ (if bit then 2 ^ t else 0) }
{
    if bit { 1 << t } else { 0 }
}
