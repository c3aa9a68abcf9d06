//! Operations, made at once in all pixels.
ghost use Rattle.std.specs.Prelude.{◌≡◌, ℕ, ◌<◌, ◌≤◌, ◌+◌, ◌*◌, ◌/◌, ◌%◌, ◌^◌, length};
ghost use Rattle.px_asm.specs.Microprograms.{bits_of};
ghost use Rattle.px_macro.specs.Macros.{IsLawful, after_macro};
ghost use Rattle.px_planes.specs.Operations.{CanOperate, HaveOffsets, IsDone, IsReach, IsWordDone, IsWordwise, bits_needed};
ghost use Rattle.px_planes.specs.Pixels.{HasPixels, pixel_in};
ghost use Rattle.px_tree.specs.Nodes.{IsGrid};

use crate::edges::keep_sign;
use crate::planes::Planes;
use crate::reach::{Reach, is_crowd, narrowed, whole};
use crate::row_operations::{enable_every, keep_bit, set_bit, toggle};
use crate::strips::{STRIP, add_in_strips};
use crate::word_operations::{
    Values, add_linear, copy, keep_at_most, keep_less, load_const, load_linear,
};
use px_macro::Macro;
use px_rows::offsets;

/// Makes an operation in every pixel of a grid.
#[tactic(auto, using(crate::proofs::IdleLemmas::words_below))]
pub(crate) fn operate_planes<const N: usize>(
    planes: &mut Planes,
    reach: Reach,
    m: &Macro,
    nx: u32,
    ny: u32,
) -> Reach
    requires grid { IsGrid nx ny }
    requires pixels { HasPixels N (2 ^ (nx + ny)) planes.old }
    requires reach { IsReach reach planes.old }
    requires places { IsLawful m.now N }
    ensures pixels { HasPixels N (2 ^ (nx + ny)) planes.new }
    ensures each { (p : ℕ) → p < 2 ^ (nx + ny) → bits_of (pixel_in planes.new p)
        ≡ after_macro m.now (p / 2 ^ ny) (p % 2 ^ ny) (bits_of (pixel_in planes.old p)) }
    ensures carry { planes.new.carry ≡ planes.old.carry }
    ensures latch { planes.new.latch ≡ planes.old.latch }
    ensures reach { IsReach result planes.new }
{
    match m {
        Macro::All => {
            enable_every(planes);
            whole(planes)
        }
        _ => {
            operate_part(planes, reach, m, ny);
            narrowed(planes, reach)
        }
    }
}

/// Whether an operation has no form: the tree then stands still, and its clocks, which take whole rows, may be faster.
pub(crate) fn is_without_form(m: &Macro) -> bool {
    match m {
        Macro::LoadConst(..) | Macro::Copy(..) | Macro::KeepLess(..) => true,
        _ => false,
    }
}

/// Makes an operation where pixels are enabled.
fn operate_part(planes: &mut Planes, reach: Reach, m: &Macro, ny: u32)
    requires can { CanOperate m.now ny planes.old }
    requires reach { IsReach reach planes.old }
    requires some { 1 ≤ ny }
    ensures { IsDone m.now ny (length planes.old.enable) planes.old planes.new }
{
    if reach.from >= reach.to {
        return;
    }
    match m {
        Macro::KeepBit(at, v) => keep_bit(planes, *at, *v, ny),
        Macro::SetBit(at, v) => set_bit(planes, *at, *v, ny),
        Macro::Toggle(at) => toggle(planes, *at, ny),
        Macro::KeepSign(form) => keep_sign(planes, reach, form, ny),
        Macro::AddLinear(form, field) => {
            if planes.enable.words().len() % STRIP == 0 && is_crowd(planes, reach) {
                add_in_strips(planes, form, field, ny);
            } else {
                operate_words(planes, reach, m, ny);
            }
        }
        _ => operate_words(planes, reach, m, ny),
    }
}

/// Makes an operation word by word, where a pixel is enabled.
fn operate_words(planes: &mut Planes, reach: Reach, m: &Macro, ny: u32)
    requires can { CanOperate m.now ny planes.old }
    requires reach { IsReach reach planes.old }
    requires wordwise { IsWordwise m.now }
    ensures { IsDone m.now ny (length planes.old.enable) planes.old planes.new }
{
    let mut room = [0; 40];
    let offsets = &mut room[..offset_bits(m)];
    make_offsets(m, ny, offsets);
    for w in reach.from..reach.to {
        operate_word(planes, m, offsets, w, ny);
    }
}

/// As many bits of the offsets as the operation needs, and none where it has no form.
fn offset_bits(m: &Macro) -> usize
    requires lawful { (bits : ℕ) × IsLawful m.now bits }
    ensures value { result ≡ bits_needed m.now }
    ensures few { result ≤ 40 }
{
    match m {
        Macro::LoadLinear(_, field) | Macro::KeepAtMost(_, field) | Macro::AddLinear(_, field) => {
            field.len as usize
        }
        _ => 0,
    }
}

/// Makes the offsets of the operation's form, if it has one.
fn make_offsets(m: &Macro, ny: u32, words: &mut [u64])
    requires lawful { (bits : ℕ) × IsLawful m.now bits }
    requires rows { ny ≤ 9 }
    requires long { length words.old ≡ bits_needed m.now }
    requires few { length words.old ≤ 40 }
    requires wordwise { IsWordwise m.now }
    ensures offsets { HaveOffsets m.now ny words.new }
    ensures words { length words.new ≡ length words.old }
{
    match m {
        Macro::LoadLinear(form, _) | Macro::KeepAtMost(form, _) | Macro::AddLinear(form, _) => {
            offsets(form, ny, words)
        }
        _ => {}
    }
}

/// Makes an operation in the pixels of a word, if one of them is enabled.
#[inline(always)]
fn operate_word(planes: &mut Planes, m: &Macro, offsets: &[u64], w: usize, ny: u32)
    requires can { CanOperate m.now ny planes.old }
    requires wordwise { IsWordwise m.now }
    requires offsets { HaveOffsets m.now ny offsets.now }
    requires long { length offsets.now ≡ bits_needed m.now }
    requires word { w < length planes.old.enable }
    ensures { IsWordDone m.now ny w (length planes.old.enable) planes.old planes.new }
{
    if planes.enable.word(w) == 0 {
        return;
    }
    match m {
        Macro::LoadLinear(form, field) => {
            load_linear(planes, Values { form, offsets, ny }, field, w)
        }
        Macro::KeepAtMost(form, field) => {
            keep_at_most(planes, Values { form, offsets, ny }, field, w)
        }
        Macro::AddLinear(form, field) => add_linear(planes, Values { form, offsets, ny }, field, w),
        Macro::LoadConst(field, number) => load_const(planes, field, *number, w, ny),
        Macro::Copy(from, to) => copy(planes, from, to, w, ny),
        Macro::KeepLess(first, second) => keep_less(planes, first, second, w, ny),
        _ => {}
    }
}
