//! The numbers of an operation, as they are written and as they are read.
ghost use Rattle.std.specs.Prelude.{◌≡◌, ◌<◌, ◌≤◌, ◌^◌, pos, [], ◌∷◌, length, None};
ghost use Rattle.px_macro.specs.Macros.{IsField};
ghost use Rattle.px_num.specs.Forms.{IsInTreeRange};
ghost use Rattle.px_scene.specs.Lines.{plane_of, size_of};
ghost use Rattle.px_listing.specs.Kinds.{bit_number, field_of, is_set};
ghost use Rattle.px_listing.specs.Limits.{end_past, field_past, form_past, value_past};

use arrayvec::ArrayVec;
use px_macro::Field;
use px_num::Linear;

/// The numbers of an operation.
pub(crate) type Numbers = ArrayVec<i64, 5>;

/// The coefficients of a form, and a field.
pub(crate) fn with_field(form: &Linear, field: &Field) -> Numbers
    ensures { result.items ≡ form.now.a ∷ form.now.b ∷ form.now.c ∷ pos field.now.at ∷ pos field.now.len ∷ [] }
{
    gathered(&[
        form.a,
        form.b,
        form.c,
        i64::from(field.at),
        i64::from(field.len),
    ])
}

/// A field, and one number behind it.
pub(crate) fn behind_field(field: &Field, number: i64) -> Numbers
    ensures { result.items ≡ pos field.now.at ∷ pos field.now.len ∷ number ∷ [] }
{
    gathered(&[i64::from(field.at), i64::from(field.len), number])
}

pub(crate) fn gathered(numbers: &[i64]) -> Numbers
    requires few { length numbers.now ≤ 5 }
    ensures { result.items ≡ numbers.now }
{
    let mut all = ArrayVec::new();
    all.try_extend_from_slice(numbers).unwrap();
    all
}

pub(crate) fn bit_number(v: bool) -> i64
    ensures { result ≡ bit_number v }
{
    if v { 1 } else { 0 }
}

pub(crate) fn plane_of(a: &i64, b: &i64, c: &i64) -> Linear
    requires good { form_past a.now b.now c.now ≡ None }
    ensures value { result ≡ plane_of a.now b.now c.now }
    ensures range { IsInTreeRange result }
{
    Linear {
        a: *a,
        b: *b,
        c: *c,
    }
}

pub(crate) fn field_of(bits: u32, at: &i64, len: &i64) -> Field
    requires bits { bits ≤ 256 }
    requires good { field_past bits at.now len.now ≡ None }
    ensures value { result ≡ field_of at.now len.now }
    ensures field { IsField result bits }
{
    Field {
        at: *at as u32,
        len: *len as u32,
    }
}

pub(crate) fn place_of(bits: u32, at: &i64) -> u32
    requires bits { bits ≤ 256 }
    requires good { end_past bits at.now (pos 1) ≡ None }
    ensures value { result ≡ size_of at.now }
    ensures within { result < bits }
{
    *at as u32
}

pub(crate) fn constant_of(len: &i64, number: &i64) -> u64
    requires good { value_past len.now number.now ≡ None }
    ensures value { result ≡ size_of number.now }
    ensures small { result < 2 ^ size_of len.now }
{
    *number as u64
}

pub(crate) fn bit_of(v: &i64) -> bool
    ensures { result ≡ is_set v.now }
{
    1 <= *v
}
