//! Operations, made at once in the 64 pixels of one word.
ghost use Rattle.std.specs.Prelude.{◌≡◌, ℕ, ℤ, ◌<◌, ◌≤◌, ◌+◌, ◌*◌, ◌/◌, ◌%◌, ◌^◌, length, nat_le};
ghost use Rattle.px_rows.specs.Lanes.{HasValue};
ghost use Rattle.px_macro.specs.Fields.{number_in};
ghost use Rattle.px_macro.specs.Macros.{AreOfOneLength, IsField};
ghost use Rattle.px_macro.specs.declared.operation.Macro.TheVariants.{
  AddLinear,
  Copy,
  KeepAtMost,
  KeepLess,
  LoadConst,
  LoadLinear,
};
ghost use Rattle.px_num.specs.Bits.{modulo, nat_bit};
ghost use Rattle.px_planes.specs.Operations.{AreValues, IsWordDone};
ghost use Rattle.px_planes.specs.Pixels.{HasWords, pixel_in};

use crate::planes::Planes;
use crate::word_acts::{keep_word, memory_word, put_word, read_words, store_words};
use px_macro::{Field, laws_of_fields};
use px_num::Linear;
use px_rows::{
    Carries, added_bit, all_of, base_of, bit_of_all, constant_words, majority_word, turned,
    word_values,
};

/// The values of a form in each word of a grid with `2^ny` rows.
#[derive(Clone, Copy)]
pub struct Values<'a> {
    pub form: &'a Linear,
    /// What is added in each lane to the value at the first pixel of its word.
    pub offsets: &'a [u64],
    pub ny: u32,
}

/// Where the values are at most the number in a field.
#[inline(always)]
#[tactic(auto, using(px_num::proofs::AdderLaws::flipped, px_num::proofs::AdderLaws::flipped_bit, px_asm::proofs::ComparingLemmas::carry_is_at_most))]
fn at_most(planes: &Planes, field: &Field, w: usize, values: &[u64]) -> u64
    requires words { HasWords (length planes.now.enable) planes.now }
    requires room { field.now.at + field.now.len ≤ length planes.now.memory.items }
    requires long { length values.now ≡ field.now.len }
    requires word { w < length planes.now.enable }
    ensures { (p : ℕ) (u : ℤ) → p < 64 * length planes.now.enable → p / 64 ≡ w
        → HasValue values.now (p % 64) u → nat_bit result (p % 64)
        ≡ nat_le (modulo u field.now.len) (number_in field.now (pixel_in planes.now p).memory) }
{
    laws_of_fields();
    let mut most = all_of(true);
    for t in 0..values.len() {
        let bit = memory_word(planes, field.at as usize + t, w);
        most = majority_word(turned(values[t]), bit, most);
    }
    most
}

/// `f = c`
pub(crate) fn load_const(planes: &mut Planes, field: &Field, number: u64, w: usize, ny: u32)
    requires words { HasWords (length planes.old.enable) planes.old }
    requires field { IsField field.now (length planes.old.memory.items) }
    requires number { number < 2 ^ field.now.len }
    requires word { w < length planes.old.enable }
    ensures { IsWordDone (LoadConst field.now number) ny w (length planes.old.enable) planes.old
        planes.new }
{
    let mut room = [0; 40];
    let values = &mut room[..field.len as usize];
    constant_words(number, values);
    store_words(planes, field.at, w, values);
}

/// `g = f`
pub(crate) fn copy(planes: &mut Planes, from: &Field, to: &Field, w: usize, ny: u32)
    requires words { HasWords (length planes.old.enable) planes.old }
    requires fields { AreOfOneLength from.now to.now (length planes.old.memory.items) }
    requires word { w < length planes.old.enable }
    ensures { IsWordDone (Copy from.now to.now) ny w (length planes.old.enable) planes.old planes.new }
{
    laws_of_fields();
    let mut room = [0; 40];
    let values = &mut room[..from.len as usize];
    read_words(planes, from.at, w, values);
    store_words(planes, to.at, w, values);
}

/// `enable = enable and f < g`
pub(crate) fn keep_less(planes: &mut Planes, first: &Field, second: &Field, w: usize, ny: u32)
    requires words { HasWords (length planes.old.enable) planes.old }
    requires fields { AreOfOneLength first.now second.now (length planes.old.memory.items) }
    requires word { w < length planes.old.enable }
    ensures { IsWordDone (KeepLess first.now second.now) ny w (length planes.old.enable) planes.old
        planes.new }
{
    laws_of_fields();
    let mut room = [0; 40];
    let values = &mut room[..second.len as usize];
    read_words(planes, second.at, w, values);
    let most = at_most(planes, first, w, values);
    keep_word(planes, w, turned(most));
}

/// `f = v mod 2^len`
#[inline(always)]
pub(crate) fn load_linear(planes: &mut Planes, values: Values, field: &Field, w: usize)
    requires words { HasWords (length planes.old.enable) planes.old }
    requires values { AreValues values field.now.len (length planes.old.enable) }
    requires field { IsField field.now (length planes.old.memory.items) }
    requires word { w < length planes.old.enable }
    ensures { IsWordDone (LoadLinear values.entry.form.now field.now) values.entry.ny w
        (length planes.old.enable) planes.old planes.new }
{
    let mut room = [0; 40];
    let words = &mut room[..field.len as usize];
    word_values(values.form, values.ny, w, values.offsets, words);
    store_words(planes, field.at, w, words);
}

/// `enable = enable and v mod 2^len <= f`
#[inline(always)]
pub(crate) fn keep_at_most(planes: &mut Planes, values: Values, field: &Field, w: usize)
    requires words { HasWords (length planes.old.enable) planes.old }
    requires values { AreValues values field.now.len (length planes.old.enable) }
    requires field { IsField field.now (length planes.old.memory.items) }
    requires word { w < length planes.old.enable }
    ensures { IsWordDone (KeepAtMost values.entry.form.now field.now) values.entry.ny w
        (length planes.old.enable) planes.old planes.new }
{
    let mut room = [0; 40];
    let words = &mut room[..field.len as usize];
    word_values(values.form, values.ny, w, values.offsets, words);
    let most = at_most(planes, field, w, words);
    keep_word(planes, w, most);
}

/// `f = (f + v) mod 2^len`
#[inline(always)]
pub(crate) fn add_linear(planes: &mut Planes, values: Values, field: &Field, w: usize)
    requires words { HasWords (length planes.old.enable) planes.old }
    requires values { AreValues values field.now.len (length planes.old.enable) }
    requires field { IsField field.now (length planes.old.memory.items) }
    requires word { w < length planes.old.enable }
    ensures { IsWordDone (AddLinear values.entry.form.now field.now) values.entry.ny w
        (length planes.old.enable) planes.old planes.new }
{
    laws_of_fields();
    let base = base_of(values.form, values.ny, w);
    let mut carries = Carries {
        first: 0,
        second: 0,
    };
    for t in 0..values.offsets.len() {
        let at = field.at as usize + t;
        let held = memory_word(planes, at, w);
        let sum = added_bit(&mut carries, values.offsets[t], bit_of_all(base, t), held);
        put_word(planes, at, w, sum);
    }
}
