//! `pxplanes_render`: the depth and the face number of each pixel of a picture.
ghost use Rattle.std.specs.Prelude.{◌≡◌, ◌<◌, ◌≤◌, IfErr, IfOk, ℕ, length, min};
ghost use Rattle.px_scene.specs.Reading.{scene_of};
ghost use Rattle.px_scene.specs.Text.{worded};
ghost use Rattle.px_sched.specs.Layouts.{layout_of};
ghost use Rattle.px_frame.specs.Drawn.{IsDrawn};
ghost use Rattle.px_frame.specs.Picture.{depth_at, face_at};
ghost use Rattle.px_c.specs.Answers.{Answers, TellsAnswer, drawn_answer, pixels_of, render_answer};
ghost use Rattle.px_c.specs.Buffers.{HoldsNumbers};
ghost use Rattle.px_c.specs.declared.status.TheConstants.{BITS, OK};

use crate::answer::{Answer, refused, scene_fault};
use crate::check::found_in;
use crate::found::{Found, cost_found};
use crate::keys::{pixels_of, write_keys};
use crate::status::{BITS, NO_ROOM, OK};
use px_frame::{draw_job, open_job};
use px_planes::PlaneArray;
use px_scene::{Scene, read_scene};
use px_sched::Layout;
use std::alloc::Global;

/// Draws a text's picture: the depth of each pixel in `depths`, and the number of its face in `faces`,
/// the rows from the top and each from the left.
///
/// Each of the two has an element a pixel, or more, which stay as they are.
#[tactic(auto, using(crate::proofs::AnswerLemmas::refuses, crate::proofs::AnswerLemmas::accepts))]
#[unsafe(no_mangle)]
pub extern "C" fn pxplanes_render(
    alloc: Global,
    text: &[u8],
    depths: &mut [u32],
    faces: &mut [u32],
    found: &mut Found,
) -> u32
    ensures answer { TellsAnswer (render_answer text.now (length depths.old) (length faces.old))
        result found.new }
    ensures depths { result ≡ OK → HoldsNumbers (scene_of (worded text.now)).width
        (scene_of (worded text.now)).height (depth_at (scene_of (worded text.now)))
        depths.old depths.new }
    ensures faces { result ≡ OK → HoldsNumbers (scene_of (worded text.now)).width
        (scene_of (worded text.now)).height (face_at (scene_of (worded text.now)))
        faces.old faces.new }
    ensures kept { (result ≡ OK → ⊥) → (depths.new ≡ depths.old) × (faces.new ≡ faces.old) }
{
    match read_scene(alloc, text) {
        Ok(scene) => render_scene(alloc, &scene, depths, faces).report_to(found),
        Err(fault) => refused(fault).report_to(found),
    }
}

#[tactic(auto, using(crate::proofs::AnswerLemmas::roomy))]
pub(crate) fn render_scene(
    alloc: Global,
    scene: &Scene,
    depths: &mut [u32],
    faces: &mut [u32],
) -> Answer
    ensures answer { Answers (drawn_answer (min (length depths.old) (length faces.old))
        (pixels_of scene.now) scene.now) result }
    ensures depths { result.status ≡ OK → HoldsNumbers scene.now.width scene.now.height
        (depth_at scene.now) depths.old depths.new }
    ensures faces { result.status ≡ OK → HoldsNumbers scene.now.width scene.now.height
        (face_at scene.now) faces.old faces.new }
    ensures kept { (result.status ≡ OK → ⊥)
        → (depths.new ≡ depths.old) × (faces.new ≡ faces.old) }
{
    let due = pixels_of(scene) as usize;
    if depths.len().min(faces.len()) < due {
        return short_of_room(alloc, scene, due);
    }
    let mut array = PlaneArray::<BITS>::new(alloc);
    match draw(alloc, scene, &mut array) {
        Ok((layout, found)) => {
            write_keys(&array, &layout, scene, depths, faces);
            Answer { status: OK, found }
        }
        Err(answer) => answer,
    }
}

/// The answer where a buffer has fewer elements than are needed: nothing is drawn.
#[tactic(auto, using(crate::proofs::AnswerLemmas::refuses, crate::proofs::AnswerLemmas::accepts, crate::proofs::AnswerLemmas::scant))]
pub(crate) fn short_of_room(alloc: Global, scene: &Scene, due: usize) -> Answer
    ensures answer { (room : ℕ) → room < due → Answers (drawn_answer room due scene.now) result }
    ensures refused { result.status ≡ OK → ⊥ }
{
    match found_in(alloc, scene) {
        Ok(found) => Answer {
            status: NO_ROOM,
            found: Found {
                room: due as u64,
                ..found
            },
        },
        Err(fault) => refused(fault),
    }
}

/// Draws a scene on an array: the layout of what it stores, and what was found; or the answer where it is not drawn.
#[tactic(auto, using(crate::proofs::AnswerLemmas::refuses, crate::proofs::AnswerLemmas::accepts))]
pub(crate) fn draw(
    alloc: Global,
    scene: &Scene,
    array: &mut PlaneArray<BITS>,
) -> Result<(Layout, Found), Answer>
    ensures drawn { IfOk result (λ _. IsDrawn BITS scene.now array.new.device) }
    ensures layout { IfOk result (λ drawn. drawn.0 ≡ layout_of scene.now) }
    ensures found { IfOk result (λ drawn.
        Answers (drawn_answer 0 0 scene.now) (record { status = OK; found = drawn.1 })) }
    ensures cause { IfErr result (λ answer. Answers (drawn_answer 0 0 scene.now) answer) }
    ensures refused { IfErr result (λ answer. answer.status ≡ OK → ⊥) }
{
    let mut job = match open_job(alloc, scene, array) {
        Ok(job) => job,
        Err(fault) => return Err(refused(scene_fault(fault))),
    };
    let layout = draw_job(&mut job, scene, array);
    Ok((
        layout,
        cost_found(scene, job.total_macros(), job.total_clocks()),
    ))
}
