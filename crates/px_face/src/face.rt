//! The faces of a solid by their index.
ghost use Rattle.std.specs.Prelude.{◌≡◌, ◌<◌, ◌≤◌, ◌++◌, ◌∷◌, [], All, length, get_or};
ghost use Rattle.px_num.specs.Forms.{IsInHalfRange, IsInTreeRange};
ghost use Rattle.px_model.specs.Scenes.{IsPlane};
ghost use Rattle.px_face.specs.Faces.{
  back_planes,
  face_count,
  front_planes,
  is_front_face,
  level,
  face_number,
  numbers_in_faces,
  face_plane,
};

use px_model::{Face, Solid};
use px_num::Linear;

/// How many faces there are, at most 66: the near face, the fronts, the backs and the far limit.
///
/// A face's index is its place in this order (docs/PICTURE.md, "Faces").
pub fn face_count(solid: &Solid) -> usize
    ensures count { result ≡ face_count solid.now }
    ensures few { result ≤ 66 }
{
    solid.fronts().len() + solid.backs().len() + 2
}

/// Whether the face is the near face or a front.
pub fn is_front(solid: &Solid, face: usize) -> bool
    requires { face < face_count solid.now }
    ensures { result ≡ is_front_face solid.now face }
{
    face < solid.fronts().len() + 1
}

/// The face's number, and 0 for the far limit.
pub fn number_of(solid: &Solid, face: usize) -> u32
    requires { face < face_count solid.now }
    ensures { result ≡ face_number solid.now face }
{
    let fronts = solid.fronts();
    if face == 0 {
        solid.near_number()
    } else if face <= fronts.len() {
        fronts[face - 1].number
    } else {
        back_number(solid.backs(), face - fronts.len() - 1)
    }
}

/// The number of a back, and 0 for the far limit, which is the last back.
fn back_number(backs: &[Face], i: usize) -> u32
    requires { i ≤ length backs.now }
    ensures { result ≡ get_or (numbers_in_faces backs.now ++ 0 ∷ []) i 0 }
{
    if i < backs.len() { backs[i].number } else { 0 }
}

/// The face's plane: depth 0 for the near face, and `end` for the far limit.
#[tactic(auto, using(crate::proofs::RangeLemmas::plane_range, crate::proofs::RangeLemmas::half_range))]
pub fn plane_of(solid: &Solid, end: u32, face: usize) -> Linear
    requires { face < face_count solid.now }
    ensures plane { result ≡ face_plane solid.now end face }
    ensures range { IsInTreeRange result }
    ensures half { IsInHalfRange result }
{
    let fronts = solid.fronts();
    if face <= fronts.len() {
        front_plane(fronts, face)
    } else {
        back_plane(solid.backs(), end, face - fronts.len() - 1)
    }
}

/// The plane of the near face, which is front 0, or of a front.
pub(crate) fn front_plane(fronts: &[Face], i: usize) -> Linear
    requires there { i ≤ length fronts.now }
    requires planes { All (λ f. IsPlane f.plane) fronts.now }
    ensures plane { result ≡ get_or (front_planes fronts.now) i (level 0) }
    ensures limits { IsPlane result }
{
    if i == 0 {
        level(0)
    } else {
        fronts[i - 1].plane
    }
}

/// The plane of a back or of the far limit, which is the last back.
pub(crate) fn back_plane(backs: &[Face], end: u32, i: usize) -> Linear
    requires there { i ≤ length backs.now }
    requires planes { All (λ f. IsPlane f.plane) backs.now }
    ensures plane { result ≡ get_or (back_planes backs.now end) i (level 0) }
    ensures limits { IsPlane result }
{
    if i < backs.len() {
        backs[i].plane
    } else {
        level(end)
    }
}

/// The plane whose value is `depth` at every pixel.
pub(crate) fn level(depth: u32) -> Linear
    ensures plane { result ≡ level depth }
    ensures limits { IsPlane result }
{
    Linear {
        a: 0,
        b: 0,
        c: i64::from(depth),
    }
}
