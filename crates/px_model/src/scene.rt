//! A scene: its picture's size and depth, its solids, and the expression that is shown.
ghost use Rattle.std.specs.Prelude.{◌≡◌, ◌-◌, ◌^◌, ◌<◌, ◌≤◌, All};
ghost use Rattle.px_model.specs.Scenes.{IsLawfulSolid};
ghost use Rattle.px_model.specs.Cells.{depths_of, end_of};
ghost use Rattle.px_model.specs.Grids.{exponent_of};
ghost use Rattle.px_model.specs.Scenes.{SceneView, IsLawfulScene, IsGridExponent, faces_of, colour_in_scene};

use crate::solid::{Colour, Solid};
use crate::{MAX_DEPTH_BITS, MAX_FACES, MAX_PICTURE_SIZE};
use px_expr::Expr;
use std::marker::Model;

/// A scene (docs/SCENES.md), with its limits kept in its type.
///
/// The picture is 1 to `MAX_PICTURE_SIZE` pixels wide and high. A depth has at least one bit, its
/// fraction at most `MAX_FRACTION_BITS`, and both together at most `MAX_DEPTH_BITS`. There are 1 to
/// `MAX_SOLIDS` solids of different names. Face numbers run from 1 over the scene, to `MAX_FACES` at
/// most (docs/PICTURE.md, "Faces").
#[derive(Drop)]
pub struct Scene {
    width: u32,
    height: u32,
    depth_bits: u32,
    fraction_bits: u32,
    faces: u32,
    solids: Vec<Solid>,
    show: Expr,
}

impl Model for Scene {
    ghost use Rattle.std.specs.Prelude.{◌≡◌, All};
    ghost use Rattle.px_model.specs.Scenes.{SceneView, IsLawfulScene, faces_of};
    ghost use Rattle.px_model.specs.Scenes.{IsLawfulSolid};
    ghost use Rattle.px_expr.specs.TreeCode.{tree_code};
    ghost use Rattle.std.specs.Coded.{codes};

    ghost Value = { SceneView };

    ghost coded = { Prim.hlevel (codes, tree_code) };

    ghost view = { λ s. record {
      width = s.width;
      height = s.height;
      depth_bits = s.depth_bits;
      fraction_bits = s.fraction_bits;
      solids = s.solids.items;
      show = s.show;
    } };

    ghost invariant = { λ s. IsLawfulScene (record {
      width = s.width;
      height = s.height;
      depth_bits = s.depth_bits;
      fraction_bits = s.fraction_bits;
      solids = s.solids.items;
      show = s.show;
    }) × All IsLawfulSolid s.solids.items × (s.faces ≡ faces_of s.solids.items) };
}

impl Scene {
    /// The scene of these parts.
    pub fn new(
        width: u32,
        height: u32,
        depth_bits: u32,
        fraction_bits: u32,
        solids: Vec<Solid>,
        show: Expr,
    ) -> Scene
        requires { IsLawfulScene (record {
          width = width;
          height = height;
          depth_bits = depth_bits;
          fraction_bits = fraction_bits;
          solids = solids.items;
          show = show;
        }) }
        ensures { result ≡ record {
          width = width;
          height = height;
          depth_bits = depth_bits;
          fraction_bits = fraction_bits;
          solids
              = solids.items;
          show = show;
        } }
    {
        let faces = faces_among(solids.as_slice());
        Scene {
            width,
            height,
            depth_bits,
            fraction_bits,
            faces,
            solids,
            show,
        }
    }

    /// The pixels in a row of the picture, 1 to `MAX_PICTURE_SIZE`.
    pub fn width(&self) -> u32
        ensures value { result ≡ self.now.width }
        ensures lawful { IsLawfulScene self.now }
    {
        self.width
    }

    /// The rows of the picture, 1 to `MAX_PICTURE_SIZE`.
    pub fn height(&self) -> u32
        ensures value { result ≡ self.now.height }
        ensures lawful { IsLawfulScene self.now }
    {
        self.height
    }

    /// The bits of a depth, 1 to `MAX_DEPTH_BITS`.
    pub fn depth_bits(&self) -> u32
        ensures value { result ≡ self.now.depth_bits }
        ensures lawful { IsLawfulScene self.now }
    {
        self.depth_bits
    }

    /// The bits of a plane's value below a whole cell, 0 to `MAX_FRACTION_BITS`.
    pub fn fraction_bits(&self) -> u32
        ensures value { result ≡ self.now.fraction_bits }
        ensures lawful { IsLawfulScene self.now }
    {
        self.fraction_bits
    }

    /// The solids in the order of their lines.
    pub fn solids(&self) -> &[Solid]
        ensures value { result.now ≡ self.now.solids }
        ensures lawful { IsLawfulScene self.now }
        ensures each { All IsLawfulSolid self.now.solids }
    {
        self.solids.as_slice()
    }

    /// What is shown, an expression over the solids by their indices.
    pub fn show(&self) -> &Expr
        ensures value { result.now ≡ self.now.show }
        ensures lawful { IsLawfulScene self.now }
    {
        &self.show
    }

    /// The depth of the background: the cells of a pixel are the depths below it.
    pub fn far(&self) -> u32
        ensures { result ≡ 2 ^ self.now.depth_bits - 1 }
    {
        (1 << self.depth_bits) - 1
    }

    /// The value of the far limit, below `2^MAX_DEPTH_BITS`.
    #[tactic(auto, using(crate::proofs::CellLaws::end_is_within))]
    pub fn end(&self) -> u32
        ensures value { result ≡ end_of (depths_of self.now) }
        ensures small { result < 2 ^ MAX_DEPTH_BITS }
    {
        self.far() << self.fraction_bits
    }

    /// For width and height the least `n` of at least 1 with `2^n` at least as large.
    #[tactic(auto, using(crate::proofs::GridLaws::exponent_is))]
    pub fn grid(&self) -> (u32, u32)
        ensures width { IsGridExponent self.now.width result.0 }
        ensures height { IsGridExponent self.now.height result.1 }
        ensures columns { result.0 ≡ exponent_of self.now.width }
        ensures rows { result.1 ≡ exponent_of self.now.height }
    {
        (grid_exponent(self.width), grid_exponent(self.height))
    }

    /// The greatest face number.
    pub fn faces(&self) -> u32
        ensures { result ≡ faces_of self.now.solids }
    {
        self.faces
    }

    /// The colour of the face of this number, and black if none has it, as for 0.
    pub fn colour_of(&self, number: u32) -> Colour
        ensures { result ≡ colour_in_scene self.now.solids number }
    {
        for solid in &self.solids {
            if let Some(colour) = solid.colour_of(number) {
                return colour;
            }
        }
        Colour {
            red: 0,
            green: 0,
            blue: 0,
        }
    }
}

/// What every scene keeps, for whoever reasons of it.
pub fn laws_of_scenes(scene: &Scene)
    ensures scene { IsLawfulScene scene.now }
    ensures solids { All IsLawfulSolid scene.now.solids }
{
    scene.solids();
}

/// The greatest face number of these solids.
fn faces_among(solids: &[Solid]) -> u32
    requires { faces_of solids.now ≤ MAX_FACES }
    ensures faces { result ≡ faces_of solids.now }
    ensures each { All IsLawfulSolid solids.now }
{
    let mut faces = 0;
    for solid in solids {
        faces += solid.face_count();
    }
    faces
}

/// The least `n` of at least 1 with `2^n` at least `size`, which is from 1 to
/// `MAX_PICTURE_SIZE`.
fn grid_exponent(size: u32) -> u32
    requires low { 1 ≤ size }
    requires high { size ≤ MAX_PICTURE_SIZE }
    ensures { IsGridExponent size result }
{
    for exponent in 1..9 {
        if size <= 1 << exponent {
            return exponent;
        }
    }
    9
}
