//! The limits of a line's numbers, and of the counts with it (docs/SCENES.md, "Limits").
ghost use Rattle.std.specs.Prelude.{◌≡◌, ◌≤◌, pos, None};
ghost use Rattle.px_model.specs.declared.limits.TheConstants.{
  MAX_DEPTH_BITS,
  MAX_FACES,
  MAX_PLANES_OF_A_KIND,
  MAX_SOLIDS,
};
ghost use Rattle.px_show.specs.Judged.{past};
ghost use Rattle.px_show.specs.declared.fault.LimitKind.TheVariants as Kind;
ghost use Rattle.px_scene.specs.Lines.{most, picture_past, depth_past, fraction_past, colour_past, plane_past, face_past, limit_of};
ghost use Rattle.px_scene.specs.Parsed.{stated};

use crate::line::{Paint, Plane, Tally};
use crate::parse::Statement;
use px_model::{
    MAX_CONSTANT, MAX_DEPTH_BITS, MAX_FACES, MAX_FRACTION_BITS, MAX_PICTURE_SIZE,
    MAX_PLANES_OF_A_KIND, MAX_SLOPE, MAX_SOLIDS,
};
use px_num::Linear;
use px_show::{LimitKind, LineFault, past};

/// The first limit that a statement passes, where it passes one: its numbers from left to right,
/// and then the counts with its line. The limits of an expression are found as it is read.
pub(crate) fn limit_of(statement: Statement, tally: Tally) -> Option<LineFault<LimitKind>>
    requires solids { tally.solids ≤ MAX_SOLIDS }
    requires numbered { tally.numbered ≤ MAX_FACES }
    requires faces { (tally.fronts ≤ MAX_PLANES_OF_A_KIND) × (tally.backs ≤ MAX_PLANES_OF_A_KIND)
        × (tally.sides ≤ MAX_PLANES_OF_A_KIND) }
    ensures { result ≡ limit_of tally (stated statement.entry) }
{
    match statement {
        Statement::Picture { width, height } => picture_past(width, height),
        Statement::Depth { bits, fraction } => depth_past(bits, fraction),
        Statement::Solid { name: _, paint } => colour_past(paint)
            .or(most(LimitKind::Solids, MAX_SOLIDS, tally.solids + 1))
            .or(most(LimitKind::Faces, MAX_FACES, tally.numbered + 1)),
        Statement::Front(face) => face_past(face)
            .or(most(LimitKind::Fronts, MAX_PLANES_OF_A_KIND, tally.fronts + 1))
            .or(most(LimitKind::Faces, MAX_FACES, tally.numbered + 1)),
        Statement::Back(face) => face_past(face)
            .or(most(LimitKind::Backs, MAX_PLANES_OF_A_KIND, tally.backs + 1))
            .or(most(LimitKind::Faces, MAX_FACES, tally.numbered + 1)),
        Statement::Side(form) => {
            plane_past(form).or(most(LimitKind::Sides, MAX_PLANES_OF_A_KIND, tally.sides + 1))
        }
        Statement::Header(_) | Statement::Show(_) | Statement::End => None,
    }
}

fn picture_past(width: i64, height: i64) -> Option<LineFault<LimitKind>>
    ensures { result ≡ picture_past width height }
{
    let size = i64::from(MAX_PICTURE_SIZE);
    past(LimitKind::Picture, 1, size, width).or(past(LimitKind::Picture, 1, size, height))
}

fn depth_past(bits: i64, fraction: Option<i64>) -> Option<LineFault<LimitKind>>
    ensures { result ≡ depth_past bits fraction }
{
    let depth = past(LimitKind::Depth, 1, i64::from(MAX_DEPTH_BITS), bits);
    match (depth, fraction) {
        (None, Some(fraction)) => fraction_past(bits, fraction),
        (past, _) => past,
    }
}

/// Fraction bits are judged with good bits of a depth.
fn fraction_past(bits: i64, fraction: i64) -> Option<LineFault<LimitKind>>
    requires { past Kind.Depth (pos 1) (pos MAX_DEPTH_BITS) bits ≡ None }
    ensures { result ≡ fraction_past bits fraction }
{
    let left = (i64::from(MAX_DEPTH_BITS) - bits).min(i64::from(MAX_FRACTION_BITS));
    past(LimitKind::Fraction, 0, left, fraction)
}

fn face_past(face: Plane) -> Option<LineFault<LimitKind>>
    ensures { result ≡ face_past face }
{
    match face.paint {
        None => plane_past(face.form),
        Some(paint) => plane_past(face.form).or(colour_past(paint)),
    }
}

fn plane_past(form: Linear) -> Option<LineFault<LimitKind>>
    ensures { result ≡ plane_past form }
{
    let slope = i64::from(MAX_SLOPE);
    let constant = MAX_CONSTANT as i64;
    past(LimitKind::Coefficient, -slope, slope, form.a)
        .or(past(LimitKind::Coefficient, -slope, slope, form.b))
        .or(past(LimitKind::Coefficient, -constant, constant, form.c))
}

fn colour_past(paint: Paint) -> Option<LineFault<LimitKind>>
    ensures { result ≡ colour_past paint }
{
    past(LimitKind::Colour, 0, 255, paint.red)
        .or(past(LimitKind::Colour, 0, 255, paint.green))
        .or(past(LimitKind::Colour, 0, 255, paint.blue))
}

fn most(kind: LimitKind, high: u32, found: u32) -> Option<LineFault<LimitKind>>
    ensures { result ≡ most kind high found }
{
    past(kind, 0, i64::from(high), i64::from(found))
}
