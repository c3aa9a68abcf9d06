//! Which faces of a solid cover a pixel.
ghost use Rattle.std.specs.Prelude.{◌≡◌, ◌<◌, ◌≤◌, All};
ghost use Rattle.px_num.specs.Forms.{IsInTreeRange};
ghost use Rattle.px_model.specs.Cells.{Depths, end_of};
ghost use Rattle.px_face.specs.Covering.{CellsLaw, CoveringLaw, HasCells, IsCoveredOnce, IsInsideByParity, ParityLaw, ValueParityLaw};
ghost use Rattle.px_face.specs.WholeLaws.{WholeBacks, WholeFronts, WholeInside};
ghost use Rattle.px_face.specs.Edges.{covers, hold_at};
ghost use Rattle.px_face.specs.Faces.{face_count};

use crate::edge::edges;
use arrayvec::ArrayVec;
use px_model::Solid;
use px_num::Linear;

/// Whether a face covers a pixel: whether each of its edges is at least 0 there.
///
/// `x` and `y` are at most 511.
pub fn covered(solid: &Solid, end: u32, face: usize, x: u32, y: u32) -> bool
    requires face { face < face_count solid.now }
    requires x { x ≤ 511 }
    requires y { y ≤ 511 }
    ensures value { result ≡ covers solid.now end face x y }
    ensures once { IsCoveredOnce solid.now end x y }
    ensures cells { (d : Depths) → end_of d ≡ end → HasCells solid.now d x y }
    ensures parity { (d : Depths) → end_of d ≡ end → IsInsideByParity solid.now d x y }
{
    let mut forms = ArrayVec::new();
    edges(solid, end, face, &mut forms);
    laws_of_covering();
    hold_at(forms.as_slice(), x, y)
}

/// Where the sides hold and the greatest front is below the least back, one front and one back
/// cover the pixel and bound the solid's cells there, and elsewhere none covers; and a cell is
/// inside where an odd number of covering faces stands at or before it.
pub fn laws_of_covering()
    ensures covering { CoveringLaw }
    ensures cells { CellsLaw }
    ensures parity { ParityLaw }
    ensures values { ValueParityLaw }
{}

/// Without a fraction a cell is its value.
#[tactic(auto, using(crate::proofs::WholeLemmas::whole_fronts, crate::proofs::WholeLemmas::whole_backs))]
pub fn laws_without_fraction()
    ensures inside { WholeInside }
    ensures fronts { WholeFronts }
    ensures backs { WholeBacks }
{}

fn hold_at(forms: &[Linear], x: u32, y: u32) -> bool
    requires forms { All IsInTreeRange forms.now }
    requires x { x ≤ 511 }
    requires y { y ≤ 511 }
    ensures { result ≡ hold_at forms.now x y }
{
    forms.iter().all(|form| form.value(x, y) >= 0)
}
