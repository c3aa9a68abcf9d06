//! `KeepSign`, made at once: most words lie on one side of an edge whole.
ghost use Rattle.std.specs.Prelude.{◌≡◌, ◌<◌, ◌≤◌, ◌+◌, ◌*◌, ◌/◌, ◌%◌, ◌^◌, ◌+ℤ◌, ℕ, length};
ghost use Rattle.px_rows.specs.Lanes.{offset};
ghost use Rattle.px_macro.specs.declared.operation.Macro.TheVariants.{KeepSign};
ghost use Rattle.px_num.specs.Forms.{IsInTreeRange, IsWithin, value_at};
ghost use Rattle.px_planes.specs.Operations.{IsDone, IsEdge, IsReach, IsWordDone};
ghost use Rattle.px_planes.specs.Pixels.{HasWords};

use crate::planes::Planes;
use crate::reach::Reach;
use crate::word_acts::keep_word;
use px_num::Linear;
use px_rows::{base_of, signs, span, turned};

/// The least and the greatest by which the values of a form differ from the one at the first pixel of a word.
#[derive(Clone, Copy)]
pub struct Edge {
    pub low: i64,
    pub high: i64,
}

/// `enable = enable and v >= 0`
pub(crate) fn keep_sign(planes: &mut Planes, reach: Reach, form: &Linear, ny: u32)
    requires words { HasWords (length planes.old.enable) planes.old }
    requires reach { IsReach reach planes.old }
    requires range { IsInTreeRange form.now }
    requires rows { ny ≤ 9 }
    requires grid { 64 * length planes.old.enable ≤ 2 ^ (9 + ny) }
    ensures { IsDone (KeepSign form.now) ny (length planes.old.enable) planes.old planes.new }
{
    let edge = edge_of(form, ny);
    for w in reach.from..reach.to {
        cut_word(planes, edge, form, w, ny);
    }
}

fn edge_of(form: &Linear, ny: u32) -> Edge
    requires range { IsInTreeRange form.now }
    requires rows { ny ≤ 9 }
    ensures { IsEdge form.now ny result }
{
    let (low, high) = span(form, ny);
    Edge { low, high }
}

/// Makes the operation in the pixels of a word, if one of them is enabled.
#[inline(always)]
fn cut_word(planes: &mut Planes, edge: Edge, form: &Linear, w: usize, ny: u32)
    requires words { HasWords (length planes.old.enable) planes.old }
    requires edge { IsEdge form.now ny edge }
    requires range { IsInTreeRange form.now }
    requires rows { ny ≤ 9 }
    requires grid { 64 * length planes.old.enable ≤ 2 ^ (9 + ny) }
    requires word { w < length planes.old.enable }
    ensures { IsWordDone (KeepSign form.now) ny w (length planes.old.enable) planes.old planes.new }
{
    if planes.enable.word(w) == 0 {
        return;
    }
    let base = base_of(form, ny, w);
    if base + edge.low >= 0 {
        return;
    }
    if base + edge.high < 0 {
        keep_word(planes, w, 0);
    } else {
        cut_mixed_word(planes, form, base, w, ny);
    }
}

/// Makes the operation in the pixels of a word at whose first the form has the value `base`.
fn cut_mixed_word(planes: &mut Planes, form: &Linear, base: i64, w: usize, ny: u32)
    requires words { HasWords (length planes.old.enable) planes.old }
    requires range { IsInTreeRange form.now }
    requires rows { ny ≤ 9 }
    requires base { IsWithin (2 ^ 39) base }
    requires values { (j : ℕ) → j < 64 → value_at form.now ((64 * w + j) / 2 ^ ny) ((64 * w + j) % 2 ^ ny)
        ≡ offset form.now ny j +ℤ base }
    requires word { w < length planes.old.enable }
    ensures { IsWordDone (KeepSign form.now) ny w (length planes.old.enable) planes.old planes.new }
{
    keep_word(planes, w, turned(signs(form, ny, base)));
}
