//! Which operations a machine of so many memory bits can carry out.
ghost use Rattle.std.specs.Prelude.{◌≤◌, ◌<◌, ◌+◌, ◌-◌, ◌^◌};
ghost use Rattle.std.specs.Bool.{Decides};
ghost use Rattle.px_num.specs.Forms.{IsInTreeRange, IsWithin};
ghost use Rattle.px_macro.specs.Macros.{AreApart, AreOfOneLength, IsField, IsLawful};

use crate::field::Field;
use crate::operation::Macro;
use px_num::{Linear, power};

/// Whether pixels of so many memory bits can carry an operation out: every form is in the tree's
/// range, every field has 1 to 40 bits and ends within the memory, as does every single bit, and a
/// constant fits its field. The fields of `Copy` have one length and no common bit, and those of
/// `KeepLess` one length.
pub fn lawful(m: &Macro, bits: u32) -> bool
    ensures { Decides result (IsLawful m.now bits) }
{
    match m {
        Macro::All => true,
        Macro::KeepSign(form) => is_in_tree_range(form),
        Macro::KeepBit(at, _) | Macro::SetBit(at, _) | Macro::Toggle(at) => *at < bits,
        Macro::LoadLinear(form, field)
        | Macro::KeepAtMost(form, field)
        | Macro::AddLinear(form, field) => is_in_tree_range(form) && is_field(field, bits),
        Macro::LoadConst(field, number) => is_field(field, bits) && has_room(field, *number),
        Macro::Copy(from, to) => are_of_one_length(from, to, bits) && are_apart(from, to),
        Macro::KeepLess(first, second) => are_of_one_length(first, second, bits),
    }
}

/// The coefficients are those that the multiplier tree takes.
fn is_in_tree_range(form: &Linear) -> bool
    ensures { Decides result (IsInTreeRange form.now) }
{
    is_within(form.a, 1 << 27) && is_within(form.b, 1 << 27) && is_within(form.c, 1 << 38)
}

/// `-most <= v <= most`.
fn is_within(v: i64, most: u64) -> bool
    ensures { Decides result (IsWithin most v) }
{
    v.unsigned_abs() <= most
}

fn is_field(field: &Field, bits: u32) -> bool
    ensures { Decides result (IsField field.now bits) }
{
    1 <= field.len && field.len <= 40 && field.at <= bits && field.len <= bits - field.at
}

/// The number has no more bits than the field.
fn has_room(field: &Field, number: u64) -> bool
    requires { field.now.len ≤ 40 }
    ensures { Decides result (number < 2 ^ field.now.len) }
{
    number < power(field.len) as u64
}

fn are_of_one_length(first: &Field, second: &Field, bits: u32) -> bool
    ensures { Decides result (AreOfOneLength first.now second.now bits) }
{
    is_field(first, bits) && is_field(second, bits) && first.len == second.len
}

/// The fields have no common bit. Both end within the memory.
fn are_apart(first: &Field, second: &Field) -> bool
    requires first { first.now.at + first.now.len ≤ 2 ^ 32 - 1 }
    requires second { second.now.at + second.now.len ≤ 2 ^ 32 - 1 }
    ensures { Decides result (AreApart first.now second.now) }
{
    first.at + first.len <= second.at || second.at + second.len <= first.at
}
