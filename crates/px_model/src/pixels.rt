//! The half-spaces of a scene over other pixels, as a scene of their own.
ghost use Rattle.std.specs.Prelude.{◌≡◌, ◌≤◌, ◌^◌, All, IfOk, None, find, map};
ghost use Rattle.px_model.specs.OverSolids.{AreLawfulOver};
ghost use Rattle.px_model.specs.Pixels.{
  ArePixels,
  HasSceneOver,
  constant_over,
  face_over,
  fraction_over,
  plane_over,
  scene_over,
  solid_over,
};
ghost use Rattle.px_model.specs.Planes.{
  face_planes,
  first_past,
  is_past,
  planes_among,
  planes_in,
  planes_numbered,
  planes_of,
};
ghost use Rattle.px_model.specs.Scenes.{IsLawfulSolid, IsPlane};

use crate::limits::MAX_CONSTANT;
use crate::scene::{Scene, laws_of_scenes};
use crate::solid::{Face, Solid};
use px_num::{Linear, Memory};
use std::alloc::Global;

/// Other pixels over the half-spaces of a scene.
#[derive(Clone, Copy)]
pub enum Pixels {
    /// Each pixel is cut into `2^s` by `2^s` of them (docs/PICTURE.md, "Refinement").
    Finer {
        /// At most 2.
        s: u32,
    },
    /// Their first one is the pixel (x0, y0) (docs/PICTURE.md, "Tiles").
    StartingAt {
        /// At most 4095.
        x0: u32,
        /// At most 4095.
        y0: u32,
    },
}

impl Scene {
    /// The first constant of a plane over other pixels that is past `MAX_CONSTANT`.
    ///
    /// The planes go solid by solid: in each the fronts and backs by face number, then the sides.
    pub fn first_past(&self, pixels: Pixels) -> Option<i64>
        requires { ArePixels pixels }
        ensures { result ≡ first_past (map (solid_over pixels) self.now.solids) }
    {
        match past_in_solids(self.solids(), pixels) {
            Some(plane) => Some(plane.c),
            None => None,
        }
    }

    /// The scene over other pixels, its picture of this size.
    pub fn over(
        &self,
        alloc: Global,
        pixels: Pixels,
        width: u32,
        height: u32,
    ) -> Result<Scene, Memory>
        requires pixels { ArePixels pixels }
        requires lawful { HasSceneOver pixels width height self.now }
        ensures { IfOk result (λ scene. scene ≡ scene_over pixels width height self.now) }
    {
        laws_of_scenes(self);
        let solids = solids_over(alloc, self.solids(), pixels)?;
        let show = self.show().copy()?;
        let fraction_bits = fraction_over(pixels, self.fraction_bits());
        Ok(Scene::new(
            width,
            height,
            self.depth_bits(),
            fraction_bits,
            solids,
            show,
        ))
    }
}

/// The first plane past the limit.
fn past_in_solids(solids: &[Solid], pixels: Pixels) -> Option<Linear>
    requires pixels { ArePixels pixels }
    requires lawful { All IsLawfulSolid solids.now }
    ensures { result ≡ find is_past (planes_of (map (solid_over pixels) solids.now)) }
{
    for solid in solids {
        let past = past_in_solid(solid, pixels);
        if past.is_some() {
            return past;
        }
    }
    None
}

fn past_in_solid(solid: &Solid, pixels: Pixels) -> Option<Linear>
    requires { ArePixels pixels }
    ensures { result ≡ find is_past (planes_in (solid_over pixels solid.now)) }
{
    past_in_faces(solid, pixels).or(past_in_sides(solid.sides(), pixels))
}

/// Among the fronts and backs, by face number.
fn past_in_faces(solid: &Solid, pixels: Pixels) -> Option<Linear>
    requires { ArePixels pixels }
    ensures { result ≡ find is_past (face_planes (solid_over pixels solid.now)) }
{
    let first = u64::from(solid.near_number()) + 1;
    let count = solid.fronts().len() as u64 + solid.backs().len() as u64;
    for number in first..first + count {
        let past = past_of_number(solid, number, pixels);
        if past.is_some() {
            return past;
        }
    }
    None
}

/// Of the front or the back of a number.
fn past_of_number(solid: &Solid, number: u64, pixels: Pixels) -> Option<Linear>
    requires { ArePixels pixels }
    ensures { result ≡ find is_past (planes_numbered (solid_over pixels solid.now) number) }
{
    past_among(solid.fronts(), number, pixels).or(past_among(solid.backs(), number, pixels))
}

fn past_among(faces: &[Face], number: u64, pixels: Pixels) -> Option<Linear>
    requires pixels { ArePixels pixels }
    requires planes { All (λ face. IsPlane face.plane) faces.now }
    ensures { result ≡ find is_past (planes_among (map (face_over pixels) faces.now) number) }
{
    for face in faces {
        let plane = plane_over(&face.plane, pixels);
        if u64::from(face.number) == number && is_past(&plane) {
            return Some(plane);
        }
    }
    None
}

fn past_in_sides(sides: &[Linear], pixels: Pixels) -> Option<Linear>
    requires pixels { ArePixels pixels }
    requires planes { All IsPlane sides.now }
    ensures { result ≡ find is_past (map (plane_over pixels) sides.now) }
{
    for side in sides {
        let plane = plane_over(side, pixels);
        if is_past(&plane) {
            return Some(plane);
        }
    }
    None
}

/// Whether its constant is past the limit.
fn is_past(plane: &Linear) -> bool
    ensures { result ≡ is_past plane.now }
{
    plane.c.unsigned_abs() > MAX_CONSTANT
}

fn solids_over(alloc: Global, solids: &[Solid], pixels: Pixels) -> Result<Vec<Solid>, Memory>
    requires pixels { ArePixels pixels }
    requires lawful { AreLawfulOver pixels solids.now }
    ensures { IfOk result (λ over. over.items ≡ map (solid_over pixels) solids.now) }
{
    let mut over = Vec::new(alloc);
    for solid in solids {
        over.push(solid_over(alloc, solid, pixels)?)?;
    }
    Ok(over)
}

fn solid_over(alloc: Global, solid: &Solid, pixels: Pixels) -> Result<Solid, Memory>
    requires pixels { ArePixels pixels }
    requires lawful { IsLawfulSolid (solid_over pixels solid.now) }
    ensures { IfOk result (λ over. over ≡ solid_over pixels solid.now) }
{
    let fronts = faces_over(alloc, solid.fronts(), pixels)?;
    let backs = faces_over(alloc, solid.backs(), pixels)?;
    let sides = sides_over(alloc, solid.sides(), pixels)?;
    Ok(solid.with_planes(fronts, backs, sides))
}

fn faces_over(alloc: Global, faces: &[Face], pixels: Pixels) -> Result<Vec<Face>, Memory>
    requires pixels { ArePixels pixels }
    requires planes { All (λ face. IsPlane face.plane) faces.now }
    ensures { IfOk result (λ over. over.items ≡ map (face_over pixels) faces.now) }
{
    let mut over = Vec::new(alloc);
    for face in faces {
        over.push(face_over(face, pixels))?;
    }
    Ok(over)
}

fn sides_over(alloc: Global, sides: &[Linear], pixels: Pixels) -> Result<Vec<Linear>, Memory>
    requires pixels { ArePixels pixels }
    requires planes { All IsPlane sides.now }
    ensures { IfOk result (λ over. over.items ≡ map (plane_over pixels) sides.now) }
{
    let mut over = Vec::new(alloc);
    for side in sides {
        over.push(plane_over(side, pixels))?;
    }
    Ok(over)
}

fn face_over(face: &Face, pixels: Pixels) -> Face
    requires pixels { ArePixels pixels }
    requires plane { IsPlane face.now.plane }
    ensures { result ≡ face_over pixels face.now }
{
    Face {
        plane: plane_over(&face.plane, pixels),
        ..*face
    }
}

fn plane_over(plane: &Linear, pixels: Pixels) -> Linear
    requires pixels { ArePixels pixels }
    requires plane { IsPlane plane.now }
    ensures { result ≡ plane_over pixels plane.now }
{
    Linear {
        c: constant_over(plane, pixels),
        ..*plane
    }
}

fn constant_over(plane: &Linear, pixels: Pixels) -> i64
    requires pixels { ArePixels pixels }
    requires plane { IsPlane plane.now }
    ensures { result ≡ constant_over pixels plane.now }
{
    match pixels {
        Pixels::Finer { s } => i64::from(parts(s)) * plane.c,
        Pixels::StartingAt { x0, y0 } => plane.value(x0, y0),
    }
}

/// How many finer pixels stand along each side of a pixel.
#[tactic(auto, using(px_num::proofs::Basics::pow_mono))]
fn parts(s: u32) -> u32
    requires { s ≤ 2 }
    ensures value { result ≡ 2 ^ s }
    ensures few { result ≤ 4 }
{
    1 << s
}

/// How many bits the fraction of a depth has.
fn fraction_over(pixels: Pixels, fraction_bits: u32) -> u32
    requires pixels { ArePixels pixels }
    requires few { fraction_bits ≤ 8 }
    ensures { result ≡ fraction_over pixels fraction_bits }
{
    match pixels {
        Pixels::Finer { s } => fraction_bits + s,
        Pixels::StartingAt { .. } => fraction_bits,
    }
}
