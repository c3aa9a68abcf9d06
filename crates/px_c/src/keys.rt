//! What the drawn array stores for each pixel, written into a caller's buffers.
ghost use Rattle.std.specs.Prelude.{◌≡◌, ◌+◌, ◌*◌, ◌<◌, ◌≤◌, ℕ, get_or, length};
ghost use Rattle.px_array.specs.Arrays.{pixel_of};
ghost use Rattle.px_macro.specs.Fields.{number_in};
ghost use Rattle.px_model.specs.Scenes.{colour_in_scene};
ghost use Rattle.px_sched.specs.Layouts.{layout_of};
ghost use Rattle.px_frame.specs.Drawn.{IsDrawn};
ghost use Rattle.px_frame.specs.Picture.{colour_at, depth_at, face_at};
ghost use Rattle.px_frame.specs.Strips.{HasNumbers, strip_number};
ghost use Rattle.px_c.specs.Answers.{pixels_of};
ghost use Rattle.px_c.specs.Buffers.{HasColour, HoldsColours, HoldsNumbers};

use px_array::Array;
use px_frame::Strip;
use px_macro::Field;
use px_model::{Scene, laws_of_scenes};
use px_sched::Layout;

/// How many pixels the picture has.
#[tactic(auto, using(crate::proofs::BufferLemmas::few_pixels))]
pub(crate) fn pixels_of(scene: &Scene) -> u32
    ensures pixels { result ≡ pixels_of scene.now }
    ensures few { result ≤ 512 * 512 }
{
    laws_of_scenes(scene);
    scene.width() * scene.height()
}

/// Writes the depth and the face number of each pixel.
pub(crate) fn write_keys<A: Array>(
    array: &A,
    layout: &Layout,
    scene: &Scene,
    depths: &mut [u32],
    faces: &mut [u32],
)
    requires layout { layout.now ≡ layout_of scene.now }
    requires drawn { IsDrawn A.BITS scene.now (A.view array.now).device }
    requires depths { pixels_of scene.now ≤ length depths.old }
    requires faces { pixels_of scene.now ≤ length faces.old }
    ensures depths { HoldsNumbers scene.now.width scene.now.height (depth_at scene.now)
        depths.old depths.new }
    ensures faces { HoldsNumbers scene.now.width scene.now.height (face_at scene.now)
        faces.old faces.new }
{
    laws_of_scenes(scene);
    write_numbers(array, layout.b_depth(), scene, depths);
    write_numbers(array, layout.b_number(), scene, faces);
}

/// Writes the number that each pixel of the picture stores in a field.
fn write_numbers<A: Array>(array: &A, field: Field, scene: &Scene, numbers: &mut [u32])
    requires stored { (y : ℕ) → y < scene.now.height
        → HasNumbers A.BITS (A.view array.now).device field scene.now.width y }
    requires room { pixels_of scene.now ≤ length numbers.old }
    ensures { HoldsNumbers scene.now.width scene.now.height
        (λ x y. number_in field (pixel_of (A.view array.now).device.state x y).memory)
        numbers.old numbers.new }
{
    let width = scene.width();
    let mut strip = Strip::new();
    for y in 0..scene.height() {
        strip.enter_row(array, field, width, y);
        write_row(&strip, width, y, numbers);
    }
}

/// Writes the numbers of row `y`.
fn write_row(strip: &Strip, width: u32, y: u32, numbers: &mut [u32])
    requires columns { length strip.now ≡ 8 * width }
    requires room { y * width + width ≤ length numbers.old }
    ensures row { (x : ℕ) → x < width
        → get_or numbers.new (y * width + x) 0 ≡ strip_number strip.now x y }
    ensures above { (i : ℕ) → i < y * width → get_or numbers.new i 0 ≡ get_or numbers.old i 0 }
    ensures below { (i : ℕ) → y * width + width ≤ i
        → get_or numbers.new i 0 ≡ get_or numbers.old i 0 }
{
    let first = y as usize * width as usize;
    for x in 0..width {
        numbers[first + x as usize] = strip.at(x, y);
    }
}

/// Writes the three bytes of each pixel's colour.
pub(crate) fn write_colours<A: Array>(array: &A, layout: &Layout, scene: &Scene, rgb: &mut [u8])
    requires layout { layout.now ≡ layout_of scene.now }
    requires drawn { IsDrawn A.BITS scene.now (A.view array.now).device }
    requires room { 3 * pixels_of scene.now ≤ length rgb.old }
    ensures { HoldsColours scene.now.width scene.now.height (colour_at scene.now) rgb.old rgb.new }
{
    laws_of_scenes(scene);
    let faces = layout.b_number();
    let mut strip = Strip::new();
    for y in 0..scene.height() {
        strip.enter_row(array, faces, scene.width(), y);
        write_coloured_row(&strip, scene, y, rgb);
    }
}

/// Writes the colours of the faces that row `y` shows.
fn write_coloured_row(strip: &Strip, scene: &Scene, y: u32, rgb: &mut [u8])
    requires columns { length strip.now ≡ 8 * scene.now.width }
    requires room { 3 * (y * scene.now.width + scene.now.width) ≤ length rgb.old }
    ensures row { (x : ℕ) → x < scene.now.width → HasColour rgb.new (3 * (y * scene.now.width + x))
        (colour_in_scene scene.now.solids (strip_number strip.now x y)) }
    ensures above { (i : ℕ) → i < 3 * (y * scene.now.width)
        → get_or rgb.new i 0 ≡ get_or rgb.old i 0 }
    ensures below { (i : ℕ) → 3 * (y * scene.now.width + scene.now.width) ≤ i
        → get_or rgb.new i 0 ≡ get_or rgb.old i 0 }
{
    let first = y as usize * scene.width() as usize;
    for x in 0..scene.width() {
        let colour = scene.colour_of(strip.at(x, y));
        let at = 3 * (first + x as usize);
        rgb[at] = colour.red;
        rgb[at + 1] = colour.green;
        rgb[at + 2] = colour.blue;
    }
}
