//! `pxplanes_window`: the depth and the face number of each pixel of a window of a picture.
ghost use Rattle.std.specs.Bool.{OnTrue};
ghost use Rattle.std.specs.Prelude.{◌≡◌, ◌≤◌, length, min};
ghost use Rattle.px_frame.specs.Picture.{depth_at, face_at};
ghost use Rattle.px_scene.specs.Reading.{scene_of};
ghost use Rattle.px_scene.specs.Text.{worded};
ghost use Rattle.px_tile.specs.Tiles.{tile_scene};
ghost use Rattle.px_c.specs.Answers.{Answers, TellsAnswer};
ghost use Rattle.px_c.specs.Windows.{HoldsWindow, is_stretch, shown_answer, window_answer, window_fault};
ghost use Rattle.px_c.specs.declared.status.TheConstants.{OK};

use crate::answer::{Answer, refused};
use crate::found::{Found, nothing};
use crate::render::render_scene;
use crate::status::NO_WINDOW;
use px_model::{MAX_PICTURE_SIZE, MAX_WIDE_PICTURE_SIZE};
use px_scene::{LimitKind, Scene, SceneFault, read_scene};
use px_tile::{TileFault, laws_of_tiles, tile_scene};
use std::alloc::Global;

/// Draws a window of a text's picture, `width` by `height` pixels from the pixel (x, y) on: the depth of each pixel in
/// `depths`, and the number of its face in `faces`, the rows from the top and each from the left.
///
/// The window is a scene of its own, and the work is that of this scene. It may lie outside of the scene's picture, in
/// the wider one that `tile` draws.
#[tactic(auto, using(crate::proofs::AnswerLemmas::refuses, crate::proofs::AnswerLemmas::accepts))]
#[unsafe(no_mangle)]
pub extern "C" fn pxplanes_window(
    alloc: Global,
    text: &[u8],
    x: u32,
    y: u32,
    width: u32,
    height: u32,
    depths: &mut [u32],
    faces: &mut [u32],
    found: &mut Found,
) -> u32
    ensures answer { TellsAnswer (window_answer text.now x y width height (length depths.old)
        (length faces.old)) result found.new }
    ensures depths { result ≡ OK → HoldsWindow x y width height (depth_at (scene_of (worded text.now)))
        depths.old depths.new }
    ensures faces { result ≡ OK → HoldsWindow x y width height (face_at (scene_of (worded text.now)))
        faces.old faces.new }
    ensures kept { (result ≡ OK → ⊥) → (depths.new ≡ depths.old) × (faces.new ≡ faces.old) }
{
    match read_scene(alloc, text) {
        Ok(scene) if is_stretch(x, width) && is_stretch(y, height) => {
            window_at(alloc, &scene, x, y, width, height, depths, faces).report_to(found)
        }
        Ok(_) => {
            *found = nothing();
            NO_WINDOW
        }
        Err(fault) => refused(fault).report_to(found),
    }
}

/// Whether a window can have so many columns from one on, or rows.
fn is_stretch(first: u32, count: u32) -> bool
    ensures is { result ≡ is_stretch first count }
    ensures within { OnTrue result ((first ≤ 4095) × (1 ≤ count) × (count ≤ 512)) }
{
    1 <= count
        && count <= MAX_PICTURE_SIZE
        && u64::from(first) + u64::from(count) <= u64::from(MAX_WIDE_PICTURE_SIZE)
}

/// The window of a scene from the pixel (x, y) on.
#[tactic(auto, using(crate::proofs::AnswerLemmas::refuses, crate::proofs::AnswerLemmas::accepts))]
fn window_at(
    alloc: Global,
    scene: &Scene,
    x: u32,
    y: u32,
    width: u32,
    height: u32,
    depths: &mut [u32],
    faces: &mut [u32],
) -> Answer
    requires columns { (x ≤ 4095) × (1 ≤ width) × (width ≤ 512) }
    requires rows { (y ≤ 4095) × (1 ≤ height) × (height ≤ 512) }
    ensures answer { Answers (shown_answer (min (length depths.old) (length faces.old))
        (tile_scene scene.now x y width height)) result }
    ensures depths { result.status ≡ OK → HoldsWindow x y width height (depth_at scene.now)
        depths.old depths.new }
    ensures faces { result.status ≡ OK → HoldsWindow x y width height (face_at scene.now)
        faces.old faces.new }
    ensures kept { (result.status ≡ OK → ⊥)
        → (depths.new ≡ depths.old) × (faces.new ≡ faces.old) }
{
    laws_of_tiles();
    match tile_scene(alloc, scene, x, y, width, height) {
        Ok(window) => render_scene(alloc, &window, depths, faces),
        Err(fault) => refused(window_fault(fault)),
    }
}

/// Why there is no scene of a window, as a refusal of the text.
fn window_fault(fault: TileFault) -> SceneFault
    ensures { result ≡ window_fault fault }
{
    match fault {
        TileFault::Coefficient { found } => SceneFault::Limit {
            line: 0,
            kind: LimitKind::Coefficient,
            found,
        },
        TileFault::Memory(lack) => SceneFault::Memory(lack),
    }
}
