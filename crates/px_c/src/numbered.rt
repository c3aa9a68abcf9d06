//! What is known of a face, as C has it.
ghost use Rattle.std.specs.Prelude.{◌≡◌};
ghost use Rattle.px_c.specs.FaceAnswers.{as_numbers};

use px_model::Colour;

/// The near face of a solid.
pub const NEAR: u32 = 1;

/// A front.
pub const FRONT: u32 = 2;

/// A back.
pub const BACK: u32 = 3;

/// Which of its solid's faces a face is: its kind, and its place among those of this kind, counted from 1.
#[derive(Clone, Copy)]
pub(crate) struct Place {
    pub(crate) kind: u32,
    pub(crate) plane: u32,
}

/// What is known of a face (include/pxplanes.h, `struct pxplanes_numbered_face`).
#[repr(C)]
#[derive(Clone, Copy)]
pub struct NumberedFace {
    /// Its solid, counted from 1 in the order of their lines.
    pub solid: u32,
    /// `NEAR`, `FRONT` or `BACK`.
    pub kind: u32,
    /// Which front or back of the solid it is, counted from 1 in the order of their lines; 0 for the near face.
    pub plane: u32,
    /// The line of the text that gives it its number, counted from 1.
    pub line: u32,
    /// Its colour, red, green and blue from 0 to 255.
    pub red: u32,
    pub green: u32,
    pub blue: u32,
}

/// A face of a place and a colour, with its solid and its line.
pub(crate) fn as_numbers(place: Place, colour: Colour, solid: u32, line: u32) -> NumberedFace
    ensures { result ≡ as_numbers place colour solid line }
{
    NumberedFace {
        solid,
        kind: place.kind,
        plane: place.plane,
        line,
        red: u32::from(colour.red),
        green: u32::from(colour.green),
        blue: u32::from(colour.blue),
    }
}
