//! One convex solid: the planes that bound it, with its limits kept in its type.
ghost use Rattle.std.specs.Prelude.{◌≡◌, ◌<◌, ◌++◌, ◌∷◌, [], length, OnOk, OnErr, All};
ghost use Rattle.px_model.specs.Scenes.{SolidView, IsLawfulSolid, IsPlane, AreFaces, colour_in, colour_among, faces_in};

use crate::MAX_PLANES_OF_A_KIND;
use arrayvec::ArrayVec;
use px_num::{Linear, Memory};
use std::alloc::Global;
use std::marker::Model;

/// A colour, each part from 0 to 255.
#[derive(Clone, Copy)]
pub struct Colour {
    pub red: u8,
    pub green: u8,
    pub blue: u8,
}

/// A numbered plane of a solid, a front or a back (docs/PICTURE.md, "Faces").
#[derive(Clone, Copy)]
pub struct Face {
    pub number: u32,
    pub plane: Linear,
    pub colour: Colour,
}

/// An intersection of half-spaces (docs/PICTURE.md, "Solids").
///
/// At most `MAX_PLANES_OF_A_KIND` fronts, as many backs and as many sides, their coefficients within
/// the limits of docs/SCENES.md. Its numbers grow: the near face's first, then those of the fronts, and those
/// of the backs, in index order.
#[derive(Drop)]
pub struct Solid {
    name: ArrayVec<u8, 32>,
    colour: Colour,
    near_number: u32,
    fronts: Vec<Face>,
    backs: Vec<Face>,
    sides: Vec<Linear>,
}

impl Model for Solid {
    ghost use Rattle.px_model.specs.Scenes.{SolidView, IsLawfulSolid};

    ghost Value = { SolidView };

    ghost view = { λ s. record {
      name = s.name.items;
      colour = s.colour;
      near_number =
          s.near_number;
      fronts = s.fronts.items;
      backs = s.backs.items;
      sides = s.sides.items;
    } };

    ghost invariant = { λ s. IsLawfulSolid (record {
      name = s.name.items;
      colour = s.colour;
      near_number = s.near_number;
      fronts = s.fronts.items;
      backs = s.backs.items;
      sides =
          s.sides.items;
    }) };
}

impl Solid {
    /// A solid without planes, which is all that lies between the near face and the far limit.
    pub fn new(alloc: Global, name: ArrayVec<u8, 32>, colour: Colour, near_number: u32) -> Solid
        ensures { result ≡ record {
          name = name.items;
          colour = colour;
          near_number = near_number;
          fronts = [];
          backs = [];
          sides = [];
        } }
    {
        Solid {
            name,
            colour,
            near_number,
            fronts: Vec::new(alloc),
            backs: Vec::new(alloc),
            sides: Vec::new(alloc),
        }
    }

    /// The solid of this name, colour and near face with other planes.
    pub fn with_planes(&self, fronts: Vec<Face>, backs: Vec<Face>, sides: Vec<Linear>) -> Solid
        requires { IsLawfulSolid (record self.now {
          fronts = fronts.items;
          backs = backs.items;
          sides = sides.items;
        }) }
        ensures { result ≡ record self.now {
          fronts = fronts.items;
          backs = backs.items;
          sides = sides.items;
        } }
    {
        let mut name = ArrayVec::new();
        name.try_extend_from_slice(self.name.as_slice()).unwrap();
        Solid {
            name,
            colour: self.colour,
            near_number: self.near_number,
            fronts,
            backs,
            sides,
        }
    }

    /// The name's bytes.
    pub fn name(&self) -> &[u8]
        ensures { result.now ≡ self.now.name }
    {
        self.name.as_slice()
    }

    /// The colour of the near face, and of each face that has none of its own.
    pub fn colour(&self) -> Colour
        ensures { result ≡ self.now.colour }
    {
        self.colour
    }

    /// The number of the near face.
    pub fn near_number(&self) -> u32
        ensures value { result ≡ self.now.near_number }
        ensures lawful { IsLawfulSolid self.now }
    {
        self.near_number
    }

    /// The fronts in the order of their lines.
    pub fn fronts(&self) -> &[Face]
        ensures value { result.now ≡ self.now.fronts }
        ensures lawful { IsLawfulSolid self.now }
    {
        self.fronts.as_slice()
    }

    /// The backs in the order of their lines.
    pub fn backs(&self) -> &[Face]
        ensures value { result.now ≡ self.now.backs }
        ensures lawful { IsLawfulSolid self.now }
    {
        self.backs.as_slice()
    }

    /// The sides in the order of their lines.
    pub fn sides(&self) -> &[Linear]
        ensures value { result.now ≡ self.now.sides }
        ensures lawful { IsLawfulSolid self.now }
    {
        self.sides.as_slice()
    }

    /// How many face numbers it takes, its near face's among them.
    pub(crate) fn face_count(&self) -> u32
        ensures count { result ≡ faces_in self.now }
        ensures lawful { IsLawfulSolid self.now }
    {
        1 + self.fronts.len() as u32 + self.backs.len() as u32
    }

    /// The colour of the face of this number, where the solid has it.
    pub(crate) fn colour_of(&self, number: u32) -> Option<Colour>
        ensures { result ≡ colour_in self.now number }
    {
        if self.near_number == number {
            Some(self.colour)
        } else {
            match colour_among(self.fronts.as_slice(), number) {
                Some(colour) => Some(colour),
                None => colour_among(self.backs.as_slice(), number),
            }
        }
    }

    /// Adds a front behind the others. A refusal changes nothing.
    pub fn push_front(&mut self, front: Face) -> Result<(), Memory>
        requires room { length self.old.fronts < MAX_PLANES_OF_A_KIND }
        requires plane { IsPlane front.plane }
        requires near { self.old.near_number < front.number }
        requires order { All (λ f. f.number < front.number) self.old.fronts }
        ensures ok { OnOk result (self.new ≡ record self.old {
          fronts = self.old.fronts ++ front ∷
              [];
        }) }
        ensures err { OnErr result (self.new ≡ self.old) }
    {
        push_face(&mut self.fronts, self.near_number, front)
    }

    /// Adds a back behind the others. A refusal changes nothing.
    pub fn push_back(&mut self, back: Face) -> Result<(), Memory>
        requires room { length self.old.backs < MAX_PLANES_OF_A_KIND }
        requires plane { IsPlane back.plane }
        requires near { self.old.near_number < back.number }
        requires order { All (λ f. f.number < back.number) self.old.backs }
        ensures ok { OnOk result (self.new ≡ record self.old {
          backs = self.old.backs ++ back ∷ [];
        }) }
        ensures err { OnErr result (self.new ≡ self.old) }
    {
        push_face(&mut self.backs, self.near_number, back)
    }

    /// Adds a side behind the others. A refusal changes nothing.
    pub fn push_side(&mut self, side: Linear) -> Result<(), Memory>
        requires room { length self.old.sides < MAX_PLANES_OF_A_KIND }
        requires plane { IsPlane side }
        ensures ok { OnOk result (self.new ≡ record self.old {
          sides = self.old.sides ++ side ∷ [];
        }) }
        ensures err { OnErr result (self.new ≡ self.old) }
    {
        self.sides.push(side)?;
        Ok(())
    }
}

fn colour_among(faces: &[Face], number: u32) -> Option<Colour>
    ensures { result ≡ colour_among faces.now number }
{
    match faces.iter().find(|face| face.number == number) {
        Some(face) => Some(face.colour),
        None => None,
    }
}

/// Adds a face of one kind behind the others.
fn push_face(faces: &mut Vec<Face>, near_number: u32, face: Face) -> Result<(), Memory>
    requires are { AreFaces near_number faces.old.items }
    requires room { length faces.old.items < MAX_PLANES_OF_A_KIND }
    requires plane { IsPlane face.plane }
    requires near { near_number < face.number }
    requires order { All (λ f. f.number < face.number) faces.old.items }
    ensures ok { OnOk result (faces.new.items ≡ faces.old.items ++ face ∷ []) }
    ensures err { OnErr result (faces.new.items ≡ faces.old.items) }
    ensures are { AreFaces near_number faces.new.items }
{
    faces.push(face)?;
    Ok(())
}
