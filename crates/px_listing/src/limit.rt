//! The limits of a line's numbers.
ghost use Rattle.std.specs.Prelude.{◌≡◌, ◌≤◌, ◌^◌, ◌-◌, ◌+ℤ◌, ◌≤ℤ◌, pos, All, None};
ghost use lib.Signed.{le_z};
ghost use Rattle.px_scene.specs.Lines.{size_of};
ghost use Rattle.px_num.specs.Forms.{IsWithin};
ghost use Rattle.px_show.specs.Judged.{past};
ghost use Rattle.px_listing.specs.Drafts.{AreSmall, told_by};
ghost use Rattle.px_listing.specs.declared.limit.ListKind.TheVariants as Kind;
ghost use Rattle.px_listing.specs.Limits.{
  end_past,
  field_past,
  fields_past,
  form_past,
  grid_past,
  overlap,
  listing_limit_of,
  shape_past,
  value_past,
};

use crate::judge::Entry;
use crate::kind::Shape;
use px_num::power;
use px_show::{LineFault, past};

/// What has a limit in a listing (docs/LISTINGS.md, "Limits").
#[derive(Clone, Copy, Debug)]
pub enum ListKind {
    Grid,
    Coefficient,
    Length,
    Place,
    Value,
    Overlap,
}

/// The first limit that a line of good form passes, where it passes one, in pixels of so many
/// memory bits (docs/LISTINGS.md, "Limits").
pub(crate) fn limit_of(bits: u32, entry: &Entry) -> Option<LineFault<ListKind>>
    requires bits { bits ≤ 256 }
    requires small { AreSmall (told_by entry.now) }
    ensures { result ≡ listing_limit_of bits (told_by entry.now) }
{
    match entry {
        Entry::Grid { nx, ny } => grid_past(*nx, *ny),
        Entry::Operation(kind, numbers) => shape_past(bits, kind.shape(), numbers.as_slice()),
        Entry::Opening | Entry::Closing => None,
    }
}

fn shape_past(bits: u32, shape: Shape, numbers: &[i64]) -> Option<LineFault<ListKind>>
    requires bits { bits ≤ 256 }
    requires small { All (IsWithin (10 ^ 18)) numbers.now }
    ensures { result ≡ shape_past bits shape numbers.now }
{
    match (shape, numbers) {
        (Shape::Form, [a, b, c]) => form_past(a, b, c),
        (Shape::Place, [at]) => end_past(bits, at, &1),
        (Shape::Bit, [at, v]) => end_past(bits, at, &1).or(past(ListKind::Value, 0, 1, *v)),
        (Shape::FormAndField, [a, b, c, at, len]) => {
            form_past(a, b, c).or(field_past(bits, at, len))
        }
        (Shape::Constant, [at, len, number]) => match field_past(bits, at, len) {
            None => value_past(len, number),
            past => past,
        },
        (Shape::FieldsApart, [at, len, to]) => match fields_past(bits, at, len, to) {
            None => overlap(at, len, to),
            past => past,
        },
        (Shape::Fields, [at, len, to]) => fields_past(bits, at, len, to),
        _ => None,
    }
}

fn grid_past(nx: i64, ny: i64) -> Option<LineFault<ListKind>>
    ensures { result ≡ grid_past nx ny }
{
    past(ListKind::Grid, 1, 9, nx).or(past(ListKind::Grid, 1, 9, ny))
}

fn form_past(a: &i64, b: &i64, c: &i64) -> Option<LineFault<ListKind>>
    ensures { result ≡ form_past a.now b.now c.now }
{
    past(ListKind::Coefficient, -134217728, 134217728, *a)
        .or(past(ListKind::Coefficient, -134217728, 134217728, *b))
        .or(past(ListKind::Coefficient, -274877906944, 274877906944, *c))
}

/// A place that is negative, or with so many bits from it on past the memory.
fn end_past(bits: u32, at: &i64, len: &i64) -> Option<LineFault<ListKind>>
    requires bits { bits ≤ 256 }
    requires small { IsWithin (10 ^ 18) at.now }
    requires low { pos 1 ≤ℤ len.now }
    requires high { len.now ≤ℤ pos 40 }
    ensures { result ≡ end_past bits at.now len.now }
{
    let end = *at + *len;
    if *at < 0 {
        Some(LineFault::Limit {
            kind: ListKind::Place,
            found: *at,
        })
    } else if end > i64::from(bits) {
        Some(LineFault::Limit {
            kind: ListKind::Place,
            found: end,
        })
    } else {
        None
    }
}

/// The length first, and then the place.
fn field_past(bits: u32, at: &i64, len: &i64) -> Option<LineFault<ListKind>>
    requires bits { bits ≤ 256 }
    requires small { IsWithin (10 ^ 18) at.now }
    ensures { result ≡ field_past bits at.now len.now }
{
    match past(ListKind::Length, 1, 40, *len) {
        None => end_past(bits, at, len),
        past => past,
    }
}

/// A constant that has more bits than its field.
fn value_past(len: &i64, number: &i64) -> Option<LineFault<ListKind>>
    requires good { past Kind.Length (pos 1) (pos 40) len.now ≡ None }
    ensures { result ≡ value_past len.now number.now }
{
    past(ListKind::Value, 0, greatest(len), *number)
}

/// The greatest number of so many bits.
fn greatest(len: &i64) -> i64
    requires good { past Kind.Length (pos 1) (pos 40) len.now ≡ None }
    ensures { result ≡ pos (2 ^ size_of len.now - 1) }
{
    power(length_of(len)) as i64 - 1
}

fn length_of(len: &i64) -> u32
    requires good { past Kind.Length (pos 1) (pos 40) len.now ≡ None }
    ensures value { result ≡ size_of len.now }
    ensures few { result ≤ 40 }
{
    *len as u32
}

/// The two fields of one length.
fn fields_past(bits: u32, at: &i64, len: &i64, to: &i64) -> Option<LineFault<ListKind>>
    requires bits { bits ≤ 256 }
    requires first { IsWithin (10 ^ 18) at.now }
    requires second { IsWithin (10 ^ 18) to.now }
    ensures { result ≡ fields_past bits at.now len.now to.now }
{
    match field_past(bits, at, len) {
        None => end_past(bits, to, len),
        past => past,
    }
}

/// Two fields that share a bit.
fn overlap(at: &i64, len: &i64, to: &i64) -> Option<LineFault<ListKind>>
    requires first { IsWithin (10 ^ 18) at.now }
    requires second { IsWithin (10 ^ 18) to.now }
    requires length { IsWithin 40 len.now }
    ensures { result ≡ overlap at.now len.now to.now }
{
    if is_behind(at, len, to) || is_behind(to, len, at) {
        None
    } else {
        Some(LineFault::Limit {
            kind: ListKind::Overlap,
            found: *to,
        })
    }
}

/// Whether a field ends before another place.
fn is_behind(at: &i64, len: &i64, to: &i64) -> bool
    requires at { IsWithin (10 ^ 18) at.now }
    requires length { IsWithin 40 len.now }
    ensures { result ≡ le_z (at.now +ℤ len.now) to.now }
{
    *at + *len <= *to
}
