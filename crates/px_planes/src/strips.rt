//! `AddLinear`, made at once where most pixels are enabled: bit by bit, in a strip of words.
ghost use Rattle.std.specs.Prelude.{◌≡◌, ℕ, ◌<◌, ◌≤◌, ◌+◌, ◌*◌, ◌/◌, ◌%◌, ◌^◌, length, slice_index};
ghost use Rattle.px_rows.specs.Lanes.{AreBlockValues};
ghost use Rattle.px_macro.specs.Macros.{IsField};
ghost use Rattle.px_macro.specs.declared.operation.Macro.TheVariants.{AddLinear};
ghost use Rattle.px_num.specs.Bits.{bit_at, majority, nat_bit, xor};
ghost use Rattle.px_num.specs.Forms.{IsInTreeRange};
ghost use Rattle.px_array.specs.Acts.{stored};
ghost use Rattle.px_planes.specs.Operations.{IsDone, IsStripDone, IsWorkedIn};
ghost use Rattle.px_planes.specs.Pixels.{HasWords, pixel_in};
ghost use Rattle.px_rows.specs.Rows.{EachBit, row_bit};
ghost use Rattle.px_rows.specs.Sums.{value_in, value_on};

use crate::planes::Planes;
use px_macro::{Field, laws_of_fields};
use px_num::{Linear, bit_of};
use px_rows::{block_step, block_values};

/// The words of a strip: so few that what they carry stays available from bit to bit.
pub(crate) const STRIP: usize = 512;

/// `f = (f + v) mod 2^len`, in rows of whole strips
pub(crate) fn add_in_strips(planes: &mut Planes, form: &Linear, field: &Field, ny: u32)
    requires words { HasWords (length planes.old.enable) planes.old }
    requires range { IsInTreeRange form.now }
    requires field { IsField field.now (length planes.old.memory.items) }
    requires rows { ny ≤ 9 }
    requires grid { 64 * length planes.old.enable ≤ 2 ^ (9 + ny) }
    requires strips { length planes.old.enable % 512 ≡ 0 }
    ensures { IsDone (AddLinear form.now field.now) ny (length planes.old.enable) planes.old planes.new }
{
    let mut room = [[0; 8]; 40];
    let values = &mut room[..field.len as usize];
    block_values(form, ny, values);
    for strip in 0..planes.enable.words().len() / STRIP {
        add_to_strip(planes, form, field, values, strip, ny);
    }
}

/// `f = (f + v) mod 2^len` in one strip. The values are those of the block that it begins with, and become those of
/// the block after it.
fn add_to_strip(
    planes: &mut Planes,
    form: &Linear,
    field: &Field,
    values: &mut [[u64; 8]],
    strip: usize,
    ny: u32,
)
    requires words { HasWords (length planes.old.enable) planes.old }
    requires range { IsInTreeRange form.now }
    requires field { IsField field.now (length planes.old.memory.items) }
    requires rows { ny ≤ 9 }
    requires long { length values.old ≡ field.now.len }
    requires values { AreBlockValues form.now ny (64 * strip) field.now.len values.old }
    requires strip { 512 * strip + 512 ≤ length planes.old.enable }
    ensures done { IsStripDone (AddLinear form.now field.now) ny strip (length planes.old.enable) planes.old
        planes.new }
    ensures values { AreBlockValues form.now ny (64 * (strip + 1)) field.now.len values.new }
    ensures long { length values.new ≡ length values.old }
{
    laws_of_fields();
    let step = block_step(form, ny);
    let mut first = [0; STRIP];
    let mut second = [0; STRIP];
    for t in 0..values.len() {
        let at = field.at as usize + t;
        let bit = bit_of(step, t as u32);
        add_bit(
            planes,
            at,
            strip,
            &mut first,
            &mut second,
            &mut values[t],
            bit,
        );
    }
}

/// Adds one bit of the values to a bit of the memory.
fn add_bit(
    planes: &mut Planes,
    at: usize,
    strip: usize,
    first: &mut [u64],
    second: &mut [u64],
    value: &mut [u64; 8],
    step: bool,
)
    requires words { HasWords (length planes.old.enable) planes.old }
    requires place { at < length planes.old.memory.items }
    requires strip { 512 * strip + 512 ≤ length planes.old.enable }
    requires first { length first.old ≡ 512 }
    requires second { length second.old ≡ 512 }
    ensures worked { IsWorkedIn 32768 strip (length planes.old.enable) (λ p x. stored at
        (xor (value_on value.old step first.old (p % 32768))
        (xor (bit_at (pixel_in planes.old p).memory at) (row_bit second.old (p % 32768)))) x)
        planes.old planes.new }
    ensures value { (i : ℕ) → i < 512 → nat_bit (slice_index value.new (i / 64)) (i % 64)
        ≡ value_in value.old step first.old 64 i }
    ensures first { EachBit first.new (λ p. majority (value_on value.old step first.old p) step
        (row_bit first.old p)) }
    ensures second { (p : ℕ) → p < 64 * length planes.old.enable → p / 32768 ≡ strip
        → row_bit second.new (p % 32768) ≡ majority (value_on value.old step first.old (p % 32768))
        (bit_at (pixel_in planes.old p).memory at) (row_bit second.old (p % 32768)) }
    ensures first_words { length first.new ≡ 512 }
    ensures second_words { length second.new ≡ 512 }
{
    let mask = planes.enable.words();
    planes.memory[at].add_steps(STRIP * strip, first, second, value, step, mask);
}
