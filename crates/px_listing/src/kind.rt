//! The operations by their lines: the word of each, its numbers, and what they write. One that is added
//! has a line in each table here; everything else of a line follows from them.
ghost use Rattle.std.specs.Prelude.{◌≡◌, ◌≤◌, IfSome, None, length};
ghost use Rattle.std.specs.Str.{bytes_eq};
ghost use Rattle.px_macro.specs.Macros.{IsLawful};
ghost use Rattle.px_listing.specs.Kinds.{kind_named, kind_of, number_count, operands_of, operation_kind, operation_with};
ghost use Rattle.px_listing.specs.Kinds.{shape_of, word_of};
ghost use Rattle.px_listing.specs.Limits.{shape_past};

use crate::numbers::{
    behind_field, bit_number, bit_of, constant_of, field_of, gathered, place_of, plane_of,
    with_field,
};
use arrayvec::ArrayVec;
use px_macro::Macro;

/// An operation, whatever its numbers are.
#[derive(Clone, Copy)]
pub(crate) enum Kind {
    All,
    KeepSign,
    KeepBit,
    LoadLinear,
    KeepAtMost,
    AddLinear,
    LoadConst,
    SetBit,
    Toggle,
    Copy,
    KeepLess,
}

/// What the numbers of an operation write.
#[derive(Clone, Copy)]
pub(crate) enum Shape {
    Nothing,
    /// The coefficients of a form.
    Form,
    /// The place of a bit.
    Place,
    /// The place of a bit, and its value.
    Bit,
    /// The coefficients of a form, and the place and the length of a field.
    FormAndField,
    /// The place and the length of a field, and a number for it.
    Constant,
    /// The place and the length of a field, and the place of another of that length, which shares no bit
    /// with it.
    FieldsApart,
    /// The place and the length of a field, and the place of another of that length.
    Fields,
}

impl Kind {
    /// Which one an operation is.
    pub(crate) fn of(m: &Macro) -> Kind
        ensures { result ≡ kind_of m.now }
    {
        match m {
            Macro::All => Kind::All,
            Macro::KeepSign(_) => Kind::KeepSign,
            Macro::KeepBit(..) => Kind::KeepBit,
            Macro::LoadLinear(..) => Kind::LoadLinear,
            Macro::KeepAtMost(..) => Kind::KeepAtMost,
            Macro::AddLinear(..) => Kind::AddLinear,
            Macro::LoadConst(..) => Kind::LoadConst,
            Macro::SetBit(..) => Kind::SetBit,
            Macro::Toggle(_) => Kind::Toggle,
            Macro::Copy(..) => Kind::Copy,
            Macro::KeepLess(..) => Kind::KeepLess,
        }
    }

    /// The one whose line begins with a word.
    pub(crate) fn named(word: &[u8]) -> Option<Kind>
        ensures { result ≡ kind_named word.now }
    {
        if Kind::All.begins(word) {
            Some(Kind::All)
        } else if Kind::KeepSign.begins(word) {
            Some(Kind::KeepSign)
        } else if Kind::KeepBit.begins(word) {
            Some(Kind::KeepBit)
        } else if Kind::LoadLinear.begins(word) {
            Some(Kind::LoadLinear)
        } else if Kind::KeepAtMost.begins(word) {
            Some(Kind::KeepAtMost)
        } else if Kind::AddLinear.begins(word) {
            Some(Kind::AddLinear)
        } else if Kind::LoadConst.begins(word) {
            Some(Kind::LoadConst)
        } else if Kind::SetBit.begins(word) {
            Some(Kind::SetBit)
        } else if Kind::Toggle.begins(word) {
            Some(Kind::Toggle)
        } else if Kind::Copy.begins(word) {
            Some(Kind::Copy)
        } else if Kind::KeepLess.begins(word) {
            Some(Kind::KeepLess)
        } else {
            None
        }
    }

    /// Whether its line begins with the word.
    fn begins(self, word: &[u8]) -> bool
        ensures { result ≡ bytes_eq word.now (word_of self) }
    {
        word == self.word().as_bytes()
    }

    /// The word that its line begins with (docs/LISTINGS.md, "Operations").
    pub(crate) fn word(self) -> &'static str
        ensures word { result.now ≡ word_of self }
        ensures short { length result.now ≤ 12 }
    {
        match self {
            Kind::All => "all",
            Kind::KeepSign => "keep-sign",
            Kind::KeepBit => "keep-bit",
            Kind::LoadLinear => "load-linear",
            Kind::KeepAtMost => "keep-at-most",
            Kind::AddLinear => "add-linear",
            Kind::LoadConst => "load-const",
            Kind::SetBit => "set-bit",
            Kind::Toggle => "toggle",
            Kind::Copy => "copy",
            Kind::KeepLess => "keep-less",
        }
    }

    /// What its numbers write.
    pub(crate) fn shape(self) -> Shape
        ensures { result ≡ shape_of self }
    {
        match self {
            Kind::All => Shape::Nothing,
            Kind::KeepSign => Shape::Form,
            Kind::KeepBit | Kind::SetBit => Shape::Bit,
            Kind::LoadLinear | Kind::KeepAtMost | Kind::AddLinear => Shape::FormAndField,
            Kind::LoadConst => Shape::Constant,
            Kind::Toggle => Shape::Place,
            Kind::Copy => Shape::FieldsApart,
            Kind::KeepLess => Shape::Fields,
        }
    }
}

impl Shape {
    /// How many numbers write it.
    pub(crate) fn count(self) -> usize
        ensures count { result ≡ number_count self }
        ensures few { result ≤ 5 }
    {
        match self {
            Shape::Nothing => 0,
            Shape::Place => 1,
            Shape::Bit => 2,
            Shape::Form | Shape::Constant | Shape::FieldsApart | Shape::Fields => 3,
            Shape::FormAndField => 5,
        }
    }
}

/// Which operation it is, counted from 1 (docs/MACHINE.md, "Broadcast operations").
pub fn kind_number(m: &Macro) -> u32
    ensures { result ≡ operation_kind m.now }
{
    Kind::of(m) as u32 + 1
}

/// The numbers of an operation, in the order of its line (docs/LISTINGS.md, "Operations").
pub fn operands_of(m: &Macro) -> ArrayVec<i64, 5>
    requires lawful { IsLawful m.now 256 }
    ensures { result.items ≡ operands_of m.now }
{
    match m {
        Macro::All => gathered(&[]),
        Macro::KeepSign(form) => gathered(&[form.a, form.b, form.c]),
        Macro::KeepBit(at, v) | Macro::SetBit(at, v) => gathered(&[i64::from(*at), bit_number(*v)]),
        Macro::LoadLinear(form, field)
        | Macro::KeepAtMost(form, field)
        | Macro::AddLinear(form, field) => with_field(form, field),
        Macro::LoadConst(field, number) => behind_field(field, *number as i64),
        Macro::Toggle(at) => gathered(&[i64::from(*at)]),
        Macro::Copy(from, to) => behind_field(from, i64::from(to.at)),
        Macro::KeepLess(first, second) => behind_field(first, i64::from(second.at)),
    }
}

/// The operation of a line whose numbers pass no limit.
pub(crate) fn operation_with(bits: u32, kind: Kind, numbers: &[i64]) -> Option<Macro>
    requires bits { bits ≤ 256 }
    requires good { shape_past bits (shape_of kind) numbers.now ≡ None }
    ensures value { result ≡ operation_with kind numbers.now }
    ensures lawful { IfSome result (λ m. IsLawful m bits) }
{
    match (kind, numbers) {
        (Kind::All, []) => Some(Macro::All),
        (Kind::KeepSign, [a, b, c]) => Some(Macro::KeepSign(plane_of(a, b, c))),
        (Kind::KeepBit, [at, v]) => Some(Macro::KeepBit(place_of(bits, at), bit_of(v))),
        (Kind::LoadLinear, [a, b, c, at, len]) => Some(Macro::LoadLinear(
            plane_of(a, b, c),
            field_of(bits, at, len),
        )),
        (Kind::KeepAtMost, [a, b, c, at, len]) => Some(Macro::KeepAtMost(
            plane_of(a, b, c),
            field_of(bits, at, len),
        )),
        (Kind::AddLinear, [a, b, c, at, len]) => Some(Macro::AddLinear(
            plane_of(a, b, c),
            field_of(bits, at, len),
        )),
        (Kind::LoadConst, [at, len, number]) => Some(Macro::LoadConst(
            field_of(bits, at, len),
            constant_of(len, number),
        )),
        (Kind::SetBit, [at, v]) => Some(Macro::SetBit(place_of(bits, at), bit_of(v))),
        (Kind::Toggle, [at]) => Some(Macro::Toggle(place_of(bits, at))),
        (Kind::Copy, [at, len, to]) => Some(Macro::Copy(
            field_of(bits, at, len),
            field_of(bits, to, len),
        )),
        (Kind::KeepLess, [at, len, to]) => Some(Macro::KeepLess(
            field_of(bits, at, len),
            field_of(bits, to, len),
        )),
        _ => None,
    }
}
