//! What an image shows of each pixel, and its bytes.
ghost use Rattle.std.specs.Prelude.{◌≡◌, ◌+◌, ◌*◌, ◌^◌, ◌≤◌};
ghost use Rattle.px_sched.specs.Layouts.{need_of};
ghost use Rattle.px_frame.specs.MeanSums.{HoldsShown};
ghost use Rattle.px_frame.specs.Picture.{colour_bytes};
ghost use Rattle.px_frame.specs.Refined.{doublings};
ghost use Rattle.px_frame.specs.Stored.{doublings_of, field_shown, shown_pixel, side_shown};
ghost use Rattle.px_frame.specs.Strips.{strip_number};

use crate::finer::parts;
use crate::image::three_bytes;
use crate::means::mean_at;
use crate::strip::Strip;
use px_macro::Field;
use px_model::{Colour, Scene};
use px_sched::Layout;

/// What an image shows of each pixel.
#[derive(Clone, Copy)]
pub enum Plane {
    /// How deep the first cell is.
    Depth,
    /// The number of the face that shows, and 0 for the background.
    Face,
    /// The colour of that face, and black for the background.
    Colour,
    /// The mean of these colours over so many pixels by as many, in an image of fewer pixels.
    Means(Fineness),
}

/// How many finer pixels each side of a pixel is cut into.
#[derive(Clone, Copy)]
pub enum Fineness {
    /// Two, so that a pixel is the mean of four.
    Two,
    /// Four, so that a pixel is the mean of sixteen.
    Four,
}

impl Fineness {
    /// How often the pixels on each side are doubled.
    pub fn doublings(self) -> u32
        ensures value { result ≡ doublings self }
        ensures few { result ≤ 2 }
    {
        match self {
            Fineness::Two => 1,
            Fineness::Four => 2,
        }
    }
}

/// How many pixels of the picture, along a side, one of an image shows.
pub(crate) fn across_of(plane: Plane) -> u32
    ensures value { result ≡ 2 ^ doublings_of plane }
    ensures few { result ≤ 4 }
{
    match plane {
        Plane::Means(fineness) => parts(fineness.doublings()),
        _ => 1,
    }
}

/// How many pixels an image has along a side of so many pixels of the picture.
pub(crate) fn side_shown(plane: Plane, side: u32) -> u32
    ensures { result ≡ side_shown plane side }
{
    match plane {
        Plane::Means(fineness) => side / parts(fineness.doublings()),
        _ => side,
    }
}

/// Where a pixel stores the number that an image shows.
pub(crate) fn field_of(plane: Plane, layout: &Layout) -> Field
    ensures field { result ≡ field_shown layout.now plane }
    ensures room { result.at + result.len ≤ need_of layout.now }
    ensures low { result.at ≤ 256 }
    ensures few { result.len ≤ 24 }
{
    match plane {
        Plane::Depth => layout.b_depth(),
        _ => layout.b_number(),
    }
}

/// The bytes that an image has for its pixel (x, y), from the numbers of a strip.
pub(crate) fn shown_pixel(plane: Plane, scene: &Scene, strip: &Strip, x: u32, y: u32) -> [u8; 3]
    requires across { 2 ^ doublings_of plane * (x + 1) ≤ scene.now.width }
    requires holds { HoldsShown scene.now plane strip.now y }
    ensures { result ≡ shown_pixel scene.now plane (strip_number strip.now) x y }
{
    match plane {
        Plane::Depth => three_bytes(strip.at(x, y)),
        Plane::Face => three_bytes(strip.at(x, y)),
        Plane::Colour => colour_bytes(scene.colour_of(strip.at(x, y))),
        Plane::Means(fineness) => colour_bytes(mean_at(strip, scene, fineness.doublings(), x, y)),
    }
}

/// A colour as one pixel of an image.
pub fn colour_bytes(colour: Colour) -> [u8; 3]
    ensures { result ≡ colour_bytes colour }
{
    [colour.red, colour.green, colour.blue]
}
