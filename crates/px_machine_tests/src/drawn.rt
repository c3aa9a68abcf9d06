//! Operations with random fields, forms and numbers.

use crate::numbers::Numbers;
use px_macro::{Field, Macro};
use px_num::Linear;

/// An operation, which pixels of so many bits can mostly carry out.
pub(crate) fn operation(numbers: &mut Numbers, bits: u32) -> Macro {
    let len = 1 + numbers.draw() % bits.clamp(1, 40);
    let first = field(numbers, bits, len);
    let second = field(numbers, bits, len);
    let at = numbers.draw() % bits.max(1);
    let v = numbers.draw() % 2 == 1;
    match numbers.draw() % 16 {
        0 => Macro::KeepSign(form(numbers)),
        1 => Macro::KeepBit(at, v),
        2 | 3 => Macro::LoadLinear(form(numbers), first),
        4 => Macro::KeepAtMost(form(numbers), first),
        5 | 6 => Macro::AddLinear(form(numbers), first),
        7 => Macro::LoadConst(first, u64::from(numbers.draw()) % (1 << len.min(30))),
        8 => Macro::SetBit(at, v),
        9 => Macro::Toggle(at),
        10 | 11 => Macro::Copy(first, second),
        12 => Macro::KeepLess(first, second),
        _ => Macro::All,
    }
}

fn field(numbers: &mut Numbers, bits: u32, len: u32) -> Field {
    let places = bits.saturating_sub(len).saturating_add(1);
    Field {
        at: numbers.draw() % places.max(1),
        len,
    }
}

/// A form that is mostly 0 or near it at some pixel of a small grid.
fn form(numbers: &mut Numbers) -> Linear {
    let size = numbers.draw() % 20;
    let a = coefficient(numbers, size);
    let b = coefficient(numbers, size);
    let x = i64::from(numbers.draw() % 16);
    let y = i64::from(numbers.draw() % 16);
    let near = coefficient(numbers, 3);
    Linear {
        a,
        b,
        c: near
            .wrapping_sub(a.wrapping_mul(x))
            .wrapping_sub(b.wrapping_mul(y)),
    }
}

/// A number between `-2^size` and `2^size`.
fn coefficient(numbers: &mut Numbers, size: u32) -> i64 {
    let limit = 1i64 << size.min(20);
    i64::from(numbers.draw()) % (2 * limit) - limit
}
