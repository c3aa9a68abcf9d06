//! The room that the images of a command take, which its scene's header says before anything is drawn.
ghost use Rattle.std.specs.Prelude.{◌≡◌, ◌<◌, ◌≤◌, Err, IfErr, IfSome, None, OnOk};
ghost use Rattle.px_commands.specs.Commands.{HasSize};
ghost use Rattle.px_commands.specs.Outcomes.{Outcome, drawable, unless_refused};
ghost use Rattle.px_commands.specs.Results.{Meets};
ghost use Rattle.px_commands.specs.Stops.{StopsAt, stopped};
ghost use Rattle.px_draw.specs.Refining.{refined};
ghost use Rattle.px_draw.specs.Tiling.{tiles_refusal};
ghost use Rattle.px_draw.specs.Works.{made, worked_out};
ghost use Rattle.px_tile.specs.Tilings.{IsWideSize};
ghost use Rattle.px_c.specs.Answers.{Answers};
ghost use Rattle.px_c.specs.Rooms.{WritesBytes, image_size, images_size};
ghost use Rattle.px_c.specs.RunAnswers.{outcome_answer};
ghost use Rattle.px_c.specs.RunStops.{stop_answer};
ghost use Rattle.px_c.specs.declared.status.TheConstants.{BITS, OK};

use crate::answer::Answer;
use crate::found::{Found, nothing};
use crate::run::stopped;
use crate::status::{BITS, NO_ROOM};
use px_commands::{SceneStop, Size, Stop, Work, drawing_of, scene_in};
use px_draw::{finer_scene, wide_stop};
use px_frame::header;
use px_model::{MAX_PICTURE_SIZE, Scene, laws_of_scenes};
use px_tile::check_tiles;
use std::alloc::Global;

/// The answer where a command's images don't fit: nothing is drawn. None where they fit, and where a command writes no
/// images.
pub(crate) fn short_of_images(alloc: Global, text: &[u8], work: Work, room: usize) -> Option<Answer>
    requires size { HasSize work }
    ensures answer { IfSome result (λ answer.
        Answers (outcome_answer room (worked_out work text.now BITS)) answer) }
    ensures refused { IfSome result (λ answer. answer.status ≡ OK → ⊥) }
{
    if images_size(work, MAX_PICTURE_SIZE, MAX_PICTURE_SIZE) <= room {
        return None;
    }
    let scene = match scene_in(alloc, text) {
        Ok(scene) => scene,
        Err(stop) => return Some(not_served(stop)),
    };
    short_of_work(alloc, work, &scene, room)
}

/// The same for a scene that was read.
#[tactic(auto, using(crate::proofs::RoomLemmas::answers_short, crate::proofs::RunLemmas::answers_stop))]
fn short_of_work(alloc: Global, work: Work, scene: &Scene, room: usize) -> Option<Answer>
    requires size { HasSize work }
    ensures answer { IfSome result (λ answer.
        Answers (outcome_answer room (made work scene.now BITS)) answer) }
    ensures refused { IfSome result (λ answer. answer.status ≡ OK → ⊥) }
{
    laws_of_scenes(scene);
    let due = images_size(work, scene.width(), scene.height());
    if due <= room {
        return None;
    }
    match check_images(alloc, work, scene) {
        Ok(()) => Some(Answer {
            status: NO_ROOM,
            found: Found {
                room: due as u64,
                ..nothing()
            },
        }),
        Err(stop) => Some(not_served(stop)),
    }
}

/// The answer where a scene is not served.
fn not_served(stop: SceneStop) -> Answer
    ensures answer { result ≡ stop_answer (stopped stop) }
    ensures refused { result.status ≡ OK → ⊥ }
{
    stopped(Stop::from(stop))
}

/// How many bytes the images of a command have, and 0 where it writes none, if its scene's picture has this size.
fn images_size(work: Work, width: u32, height: u32) -> usize
    requires size { HasSize work }
    requires picture { (width ≤ 512) × (height ≤ 512) }
    ensures { result ≡ images_size work width height }
{
    match work {
        Work::Render => 2 * image_size(width, height),
        Work::Colour | Work::Refine(_) => image_size(width, height),
        Work::Tile(size) => 2 * image_size(size.width, size.height),
        Work::Tidy | Work::Plan | Work::Cost | Work::List => 0,
    }
}

/// How many bytes an image has.
fn image_size(width: u32, height: u32) -> usize
    requires size { (width ≤ 4096) × (height ≤ 4096) }
    ensures size { result ≡ image_size width height }
    ensures most { result ≤ 50332000 }
{
    header(width, height).len() + 3 * (width as usize * height as usize)
}

/// Whether the images of a scene can be drawn, or why not.
#[tactic(auto, using(crate::proofs::RoomLemmas::tile_writes, crate::proofs::RoomLemmas::stop_meets, crate::proofs::RoomLemmas::coloured_done, crate::proofs::RoomLemmas::drawn_done, crate::proofs::RoomLemmas::refined_done, crate::proofs::RoomLemmas::refined_stops))]
fn check_images(alloc: Global, work: Work, scene: &Scene) -> Result<(), SceneStop>
    requires size { HasSize work }
    requires images { 0 < images_size work scene.now.width scene.now.height }
    ensures ok { OnOk result (WritesBytes (images_size work scene.now.width scene.now.height)
        (made work scene.now BITS)) }
    ensures err { IfErr result (λ stop. Meets (Err (stopped stop)) (made work scene.now BITS)) }
{
    match work {
        Work::Render => check_drawing(alloc, scene),
        Work::Colour => check_drawing(alloc, scene),
        Work::Refine(fineness) => check_refined(alloc, scene, fineness.doublings()),
        Work::Tile(size) => check_tiled(alloc, scene, size),
        Work::Tidy | Work::Plan | Work::Cost | Work::List => unreachable!(),
    }
}

/// Whether an array can draw a scene, or why not.
fn check_drawing(alloc: Global, scene: &Scene) -> Result<(), SceneStop>
    ensures fits { OnOk result ((o : Outcome) → drawable BITS scene.now o ≡ o) }
    ensures err { IfErr result (λ stop. StopsAt (drawable BITS scene.now) stop) }
{
    drawing_of(alloc, scene, BITS as u32).map(|_drawing| ())
}

/// Whether there is a finer scene and an array can draw it, or why not.
#[tactic(auto, using(crate::proofs::RoomLemmas::fine_meets, crate::proofs::RoomLemmas::refine_meets, crate::proofs::RoomLemmas::refine_done))]
fn check_refined(alloc: Global, scene: &Scene, s: u32) -> Result<(), SceneStop>
    requires few { s ≤ 2 }
    ensures ok { OnOk result (WritesBytes (image_size scene.now.width scene.now.height)
        (refined s scene.now BITS)) }
    ensures err { IfErr result (λ stop. Meets (Err (stopped stop)) (refined s scene.now BITS)) }
{
    match finer_scene(alloc, scene, s) {
        Ok(fine) => check_drawing(alloc, &fine),
        Err(stop) => Err(stop),
    }
}

/// Whether a picture of this size can be drawn tile by tile, or why not.
fn check_tiled(alloc: Global, scene: &Scene, size: Size) -> Result<(), SceneStop>
    requires size { IsWideSize size.width size.height }
    ensures fits { OnOk result (tiles_refusal size scene.now BITS ≡ None) }
    ensures err { IfErr result (λ stop.
        StopsAt (unless_refused (tiles_refusal size scene.now BITS)) stop) }
{
    match check_tiles(alloc, scene, size.width, size.height, BITS as u32) {
        Ok(()) => Ok(()),
        Err(fault) => Err(wide_stop(fault)),
    }
}
