//! `pxplanes_colour`: the colour of each pixel of a picture.
ghost use Rattle.std.specs.Prelude.{◌≡◌, length};
ghost use Rattle.px_scene.specs.Reading.{scene_of};
ghost use Rattle.px_scene.specs.Text.{worded};
ghost use Rattle.px_frame.specs.Picture.{colour_at};
ghost use Rattle.px_c.specs.Answers.{TellsAnswer, colour_answer};
ghost use Rattle.px_c.specs.Buffers.{HoldsColours};
ghost use Rattle.px_c.specs.declared.status.TheConstants.{OK};

use crate::answer::refused;
use crate::found::Found;
use crate::keys::{pixels_of, write_colours};
use crate::render::{draw, short_of_room};
use crate::status::{BITS, OK};
use px_planes::PlaneArray;
use px_scene::read_scene;
use std::alloc::Global;

/// Draws a text's picture in colour: red, green and blue of each pixel, the rows from the top and each
/// from the left.
///
/// `rgb` has three bytes a pixel, or more, which stay as they are.
#[tactic(auto, using(crate::proofs::AnswerLemmas::refuses, crate::proofs::AnswerLemmas::accepts, crate::proofs::AnswerLemmas::roomy))]
#[unsafe(no_mangle)]
pub extern "C" fn pxplanes_colour(
    alloc: Global,
    text: &[u8],
    rgb: &mut [u8],
    found: &mut Found,
) -> u32
    ensures answer { TellsAnswer (colour_answer text.now (length rgb.old)) result found.new }
    ensures colours { result ≡ OK → HoldsColours (scene_of (worded text.now)).width
        (scene_of (worded text.now)).height (colour_at (scene_of (worded text.now)))
        rgb.old rgb.new }
    ensures kept { (result ≡ OK → ⊥) → rgb.new ≡ rgb.old }
{
    let scene = match read_scene(alloc, text) {
        Ok(scene) => scene,
        Err(fault) => return refused(fault).report_to(found),
    };
    let due = 3 * pixels_of(&scene) as usize;
    if rgb.len() < due {
        return short_of_room(alloc, &scene, due).report_to(found);
    }
    let mut array = PlaneArray::<BITS>::new(alloc);
    match draw(alloc, &scene, &mut array) {
        Ok((layout, cost)) => {
            write_colours(&array, &layout, &scene, rgb);
            *found = cost;
            OK
        }
        Err(answer) => answer.report_to(found),
    }
}
