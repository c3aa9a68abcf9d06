//! The edges of a face, which are at least 0 where the face bounds its solid.
ghost use Rattle.std.specs.Prelude.{◌≡◌, ◌+◌, ◌<◌, ◌≤◌, All, get_or, length};
ghost use Rattle.px_num.specs.Forms.{IsInTreeRange};
ghost use Rattle.px_model.specs.Scenes.{IsPlane};
ghost use Rattle.px_face.specs.EdgeLaws.{EdgesAreCounted, EdgesAreInRange, PlanesAreInRange};
ghost use Rattle.px_face.specs.Edges.{above, at_least, edge_count, edges};
ghost use Rattle.px_face.specs.Orders.{back_orders, front_orders};
ghost use Rattle.px_face.specs.Faces.{face_count, level};

use crate::face::{back_plane, front_plane};
use arrayvec::ArrayVec;
use px_model::Solid;
use px_num::Linear;

/// How many edges each face of a solid has: the solid's sides, and each of the other faces.
pub fn edge_count(solid: &Solid) -> usize
    ensures count { result ≡ edge_count solid.now }
    ensures few { result ≤ 97 }
{
    solid.sides().len() + solid.fronts().len() + solid.backs().len() + 1
}

/// Puts the edges of a face into `buf`, in the place of what it held.
///
/// They are the solid's sides, then the face against the others of its kind, then against those of
/// the other kind (docs/PICTURE.md, "Edges"). Each face of a solid has as many, at most 97.
pub fn edges(solid: &Solid, end: u32, face: usize, buf: &mut ArrayVec<Linear, 97>)
    requires { face < face_count solid.now }
    ensures forms { buf.new.items ≡ edges solid.now end face }
    ensures count { length buf.new.items + 1 ≡ length solid.now.sides + face_count solid.now }
    ensures range { All IsInTreeRange buf.new.items }
{
    buf.clear();
    for place in 0..edge_count(solid) {
        buf.push(edge_at(solid, end, face, place));
    }
}

/// One edge of a face, by its place among `edges`.
pub fn edge_at(solid: &Solid, end: u32, face: usize, place: usize) -> Linear
    requires face { face < face_count solid.now }
    requires place { place < edge_count solid.now }
    ensures form { result ≡ get_or (edges solid.now end face) place (level 0) }
    ensures range { IsInTreeRange result }
{
    let sides = solid.sides();
    let fronts = solid.fronts().len() + 1;
    if place < sides.len() {
        sides[place]
    } else if face < fronts {
        front_edge(solid, end, face, place - sides.len())
    } else {
        back_edge(solid, end, face - fronts, place - sides.len())
    }
}

/// The laws of edges and planes, for the crates that prove passes over faces.
pub fn laws_of_edges()
    ensures count { EdgesAreCounted }
    ensures range { EdgesAreInRange }
    ensures planes { PlanesAreInRange }
{}

/// A front against the other fronts, then against the backs. The near face is front 0.
fn front_edge(solid: &Solid, end: u32, i: usize, place: usize) -> Linear
    requires there { i ≤ length solid.now.fronts }
    requires place { place < length solid.now.fronts + length solid.now.backs + 1 }
    ensures { result ≡ get_or (front_orders solid.now end i) place (level 0) }
{
    let fronts = solid.fronts();
    let plane = front_plane(fronts, i);
    if place >= fronts.len() {
        above(
            &back_plane(solid.backs(), end, place - fronts.len()),
            &plane,
        )
    } else if place < i {
        above(&plane, &front_plane(fronts, place))
    } else {
        at_least(&plane, &front_plane(fronts, place + 1))
    }
}

/// A back against the other backs, then against the fronts. The far limit is the last back.
fn back_edge(solid: &Solid, end: u32, i: usize, place: usize) -> Linear
    requires there { i ≤ length solid.now.backs }
    requires place { place < length solid.now.fronts + length solid.now.backs + 1 }
    ensures { result ≡ get_or (back_orders solid.now end i) place (level 0) }
{
    let backs = solid.backs();
    let plane = back_plane(backs, end, i);
    if place >= backs.len() {
        above(&plane, &front_plane(solid.fronts(), place - backs.len()))
    } else if place < i {
        above(&back_plane(backs, end, place), &plane)
    } else {
        at_least(&back_plane(backs, end, place + 1), &plane)
    }
}

fn at_least(p: &Linear, q: &Linear) -> Linear
    requires p { IsPlane p.now }
    requires q { IsPlane q.now }
    ensures { result ≡ at_least p.now q.now }
{
    p.minus(q)
}

fn above(p: &Linear, q: &Linear) -> Linear
    requires p { IsPlane p.now }
    requires q { IsPlane q.now }
    ensures { result ≡ above p.now q.now }
{
    p.minus(q).less_one()
}
