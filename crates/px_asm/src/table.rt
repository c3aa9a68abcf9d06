//! The table of micros.
ghost use Rattle.std.specs.Prelude.{◌≡◌, ◌<◌, ◌≤◌, ℕ};
ghost use Rattle.px_macro.specs.Macros.{IsLawful};
ghost use Rattle.px_array.specs.Acts.{HasPlace};
ghost use Rattle.px_tree.specs.Nodes.{IsGrid};
ghost use Rattle.px_asm.specs.Micros.{cycles as cycles_of};
ghost use Rattle.px_asm.specs.Micros.{micro_at as micro_of};

use crate::between_fields::{constant_act, copy_act, less_act};
use crate::of_forms::{add_act, bound_act, fed, load_act, sign_act};
use crate::still::still;
use px_array::{Act, Micro};
use px_macro::Macro;

/// How many clocks an operation takes on a grid of `2^nx` by `2^ny` pixels, at most 82
/// (docs/MACHINE.md, "Microprograms").
pub fn cycles(m: &Macro, nx: u32, ny: u32) -> u32
    requires lawful { IsLawful m.now 256 }
    requires grid { IsGrid nx ny }
    ensures value { result ≡ cycles_of m.now nx ny }
    ensures some { 1 ≤ result }
    ensures few { result ≤ 82 }
{
    let levels = nx + ny;
    match m {
        Macro::All | Macro::KeepBit(..) | Macro::SetBit(..) | Macro::Toggle(_) => 1,
        Macro::KeepSign(_) => 41 + levels,
        Macro::LoadLinear(_, field) | Macro::AddLinear(_, field) => 1 + levels + field.len,
        Macro::KeepAtMost(_, field) => 2 + levels + field.len,
        Macro::LoadConst(field, _) => field.len,
        Macro::Copy(from, _) => 2 * from.len,
        Macro::KeepLess(first, _) => 2 + 2 * first.len,
    }
}

/// What is broadcast in clock `i` of an operation, counted from 0.
pub fn micro_at(m: &Macro, nx: u32, ny: u32, i: u32) -> Micro
    requires lawful { IsLawful m.now 256 }
    requires grid { IsGrid nx ny }
    requires clock { i < cycles_of m.now nx ny }
    ensures value { result ≡ micro_of m.now nx ny i }
    ensures place { (bits : ℕ) → IsLawful m.now bits → HasPlace bits result.act }
{
    let levels = nx + ny;
    match m {
        Macro::All => still(Act::EnableAll),
        Macro::KeepSign(form) => fed(form, nx, ny, i, sign_act(levels, i)),
        Macro::KeepBit(at, v) => still(Act::EnableBit(*at, *v)),
        Macro::LoadLinear(form, field) => fed(form, nx, ny, i, load_act(field, levels, i)),
        Macro::KeepAtMost(_, field) if i == 1 + levels + field.len => still(Act::EnableCarry(true)),
        Macro::KeepAtMost(form, field) => fed(form, nx, ny, i, bound_act(field, levels, i)),
        Macro::AddLinear(form, field) => fed(form, nx, ny, i, add_act(field, levels, i)),
        Macro::LoadConst(field, number) => still(constant_act(field, *number, i)),
        Macro::SetBit(at, v) => still(Act::StoreConst(*at, *v)),
        Macro::Toggle(at) => still(Act::Toggle(*at)),
        Macro::Copy(from, to) => still(copy_act(from, to, i)),
        Macro::KeepLess(first, second) => still(less_act(first, second, i)),
    }
}
