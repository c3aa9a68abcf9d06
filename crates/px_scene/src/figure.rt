//! What the numbers of a line write, once they are within their limits: a face and a colour.
ghost use Rattle.std.specs.Prelude.{◌≡◌, ◌≤ℤ◌, pos, None};
ghost use Rattle.px_scene.specs.Drafts.{colour_of, face_of};
ghost use Rattle.px_scene.specs.Lines.{face_past, colour_past, size_of};
ghost use Rattle.px_model.specs.Scenes.{IsPlane};

use crate::line::{Paint, Plane};
use px_model::{Colour, Face};

/// A face of this number, with the solid's colour where it has none of its own.
pub(crate) fn face_of(colour: Colour, number: u32, face: Plane) -> Face
    requires { face_past face ≡ None }
    ensures value { result ≡ face_of colour number face }
    ensures plane { IsPlane result.plane }
{
    match face.paint {
        None => Face {
            number,
            plane: face.form,
            colour,
        },
        Some(paint) => Face {
            number,
            plane: face.form,
            colour: colour_of(paint),
        },
    }
}

pub(crate) fn colour_of(paint: Paint) -> Colour
    requires { colour_past paint ≡ None }
    ensures { result ≡ colour_of paint }
{
    Colour {
        red: part_of(paint.red),
        green: part_of(paint.green),
        blue: part_of(paint.blue),
    }
}

fn part_of(number: i64) -> u8
    requires low { pos 0 ≤ℤ number }
    requires high { number ≤ℤ pos 255 }
    ensures { result ≡ size_of number }
{
    number as u8
}
