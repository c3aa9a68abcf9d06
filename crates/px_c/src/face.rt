//! `pxplanes_face`: which solid and plane a face number means, and the line of the text that says so.
ghost use Rattle.std.specs.Prelude.{◌≡◌, ◌==◌, ◌<◌, ◌≤◌, ◌^◌, IfSome, Some, length, map};
ghost use Rattle.std.specs.List.{position};
ghost use Rattle.std.specs.Option.{option_map};
ghost use Rattle.px_model.specs.Scenes.{has_number};
ghost use Rattle.px_model.specs.declared.limits.TheConstants.{MAX_PLANES_OF_A_KIND, MAX_SOLIDS};
ghost use Rattle.px_scene.specs.Reading.{scene_of};
ghost use Rattle.px_scene.specs.Text.{words_of, worded};
ghost use Rattle.px_text.specs.declared.text.TheConstants.{MAX_TEXT_BYTES};
ghost use Rattle.px_c.specs.Answers.{Answers, TellsAnswer};
ghost use Rattle.px_c.specs.Buffers.{HoldsBytes};
ghost use Rattle.px_c.specs.FaceAnswers.{begins_face, face_answer, face_line, has_face, known_answer, known_face, owner_name, owner_of, owner_place, owns, place_among, place_in};
ghost use Rattle.px_c.specs.declared.status.TheConstants.{OK};

use crate::answer::{Answer, refused};
use crate::found::{Found, scene_found};
use crate::numbered::{BACK, FRONT, NEAR, NumberedFace, Place, as_numbers};
use crate::status::{NO_FACE, NO_ROOM, OK};
use px_model::{Face, Scene, Solid};
use px_scene::{SceneFault, read_scene};
use px_text::{before_comment, is_blank, is_word, lines_of};
use std::alloc::Global;

/// Says which solid and plane the face of a number is, and which line of the text says so.
///
/// The name of the solid goes to the front of `name`, which has room for it, at most 32 bytes.
#[tactic(auto, using(crate::proofs::AnswerLemmas::refuses, crate::proofs::AnswerLemmas::accepts))]
#[unsafe(no_mangle)]
pub extern "C" fn pxplanes_face(
    alloc: Global,
    text: &[u8],
    number: u32,
    name: &mut [u8],
    face: &mut NumberedFace,
    found: &mut Found,
) -> u32
    ensures answer { TellsAnswer (face_answer text.now number (length name.old)) result found.new }
    ensures face { result ≡ OK → known_face (worded text.now) (scene_of (worded text.now)) number ≡ Some face.new }
    ensures name { result ≡ OK → HoldsBytes (owner_name (scene_of (worded text.now)) number) name.old name.new }
    ensures kept { (result ≡ OK → ⊥) → (name.new ≡ name.old) × (face.new ≡ face.old) }
{
    let answer = match read_scene(alloc, text) {
        Ok(scene) => face_in(alloc, text, &scene, number, name, face),
        Err(fault) => refused(fault),
    };
    answer.report_to(found)
}

/// The face of the scene that a text says.
fn face_in(
    alloc: Global,
    text: &[u8],
    scene: &Scene,
    number: u32,
    name: &mut [u8],
    face: &mut NumberedFace,
) -> Answer
    requires { length text.now ≤ MAX_TEXT_BYTES }
    ensures answer { Answers (known_answer (length name.old) scene.now number) result }
    ensures face { result.status ≡ OK → known_face (worded text.now) scene.now number ≡ Some face.new }
    ensures name { result.status ≡ OK → HoldsBytes (owner_name scene.now number) name.old name.new }
    ensures kept { (result.status ≡ OK → ⊥) → (name.new ≡ name.old) × (face.new ≡ face.old) }
{
    match lines_of(alloc, text) {
        Ok(lines) => face_among(scene, lines.as_slice(), number, name, face),
        Err(lack) => refused(SceneFault::Memory(lack)),
    }
}

/// The face of a scene that these lines say.
fn face_among(
    scene: &Scene,
    lines: &[&[u8]],
    number: u32,
    name: &mut [u8],
    face: &mut NumberedFace,
) -> Answer
    requires { length lines.now < 2 ^ 32 }
    ensures answer { result ≡ known_answer (length name.old) scene.now number }
    ensures face { result.status ≡ OK → known_face (map (λ l. words_of l.now) lines.now) scene.now number
        ≡ Some face.new }
    ensures name { result.status ≡ OK → HoldsBytes (owner_name scene.now number) name.old name.new }
    ensures kept { (result.status ≡ OK → ⊥) → (name.new ≡ name.old) × (face.new ≡ face.old) }
{
    let found = scene_found(scene);
    let solids = scene.solids();
    let owner = match owner_of(solids, number) {
        Some(owner) => owner,
        None => {
            return Answer {
                status: NO_FACE,
                found,
            };
        }
    };
    if name.len() < owner.name().len() {
        return Answer {
            status: NO_ROOM,
            found: Found {
                room: owner.name().len() as u64,
                ..found
            },
        };
    }
    copy_to_front(owner.name(), name);
    *face = as_numbers(
        place_in(owner, number),
        scene.colour_of(number),
        owner_place(solids, number),
        face_line(lines, number),
    );
    Answer { status: OK, found }
}

/// Copies bytes to the front of a buffer that has room for them.
fn copy_to_front(from: &[u8], to: &mut [u8])
    requires { length from.now ≤ length to.old }
    ensures { HoldsBytes from.now to.old to.new }
{
    let (front, _) = to.split_at_mut(from.len());
    front.copy_from_slice(from);
}

/// The line of the face of this number, counted from 1; 0 where none has it.
fn face_line(lines: &[&[u8]], number: u32) -> u32
    requires { length lines.now < 2 ^ 32 }
    ensures { result ≡ face_line (map (λ l. words_of l.now) lines.now) number }
{
    let mut left = number;
    for (i, line) in lines.iter().enumerate() {
        if has_face(line) {
            if left <= 1 {
                return i as u32 + 1;
            }
            left -= 1;
        }
    }
    0
}

/// Whether a line gives a face its number.
fn has_face(line: &[u8]) -> bool
    ensures { result ≡ has_face (words_of line.now) }
{
    let mut words = before_comment(line)
        .split(|b| is_blank(*b))
        .filter(|w| is_word(*w));
    match words.next() {
        Some(word) => begins_face(word),
        None => false,
    }
}

/// Whether a word begins a line that gives a face its number.
fn begins_face(word: &[u8]) -> bool
    ensures { result ≡ begins_face word.now }
{
    word == b"solid".as_slice() || word == b"front".as_slice() || word == b"back".as_slice()
}

/// The place of the solid that has the face of this number, counted from 1; 0 where none has it.
fn owner_place(solids: &[Solid], number: u32) -> u32
    requires { length solids.now ≤ MAX_SOLIDS }
    ensures { result ≡ owner_place solids.now number }
{
    match first_owner(solids, number) {
        Some(place) => place as u32 + 1,
        None => 0,
    }
}

fn first_owner(solids: &[Solid], number: u32) -> Option<usize>
    requires { length solids.now ≤ MAX_SOLIDS }
    ensures place { result ≡ position (λ s. owns s number) solids.now }
    ensures low { IfSome result (λ place. place < 255) }
{
    solids.iter().position(|solid| owns(solid, number))
}

/// The solid that has the face of this number.
fn owner_of(solids: &[Solid], number: u32) -> Option<&Solid>
    ensures { option_map (λ s. s.now) result ≡ owner_of solids.now number }
{
    solids.iter().find(|solid| owns(solid, number))
}

/// Whether a solid has the face of this number.
fn owns(solid: &Solid, number: u32) -> bool
    ensures { result ≡ owns solid.now number }
{
    solid.near_number() == number
        || has_number(solid.fronts(), number)
        || has_number(solid.backs(), number)
}

fn has_number(faces: &[Face], number: u32) -> bool
    ensures { result ≡ has_number faces.now number }
{
    faces.iter().any(|face| face.number == number)
}

/// Which of a solid's faces the one of this number is.
fn place_in(solid: &Solid, number: u32) -> Place
    ensures { result ≡ place_in solid.now number }
{
    if solid.near_number() == number {
        Place {
            kind: NEAR,
            plane: 0,
        }
    } else if has_number(solid.fronts(), number) {
        Place {
            kind: FRONT,
            plane: place_among(solid.fronts(), number),
        }
    } else {
        Place {
            kind: BACK,
            plane: place_among(solid.backs(), number),
        }
    }
}

/// The place of the face of this number among those of one kind, counted from 1; 0 where none has it.
fn place_among(faces: &[Face], number: u32) -> u32
    requires { length faces.now ≤ MAX_PLANES_OF_A_KIND }
    ensures { result ≡ place_among faces.now number }
{
    match first_of(faces, number) {
        Some(place) => place as u32 + 1,
        None => 0,
    }
}

fn first_of(faces: &[Face], number: u32) -> Option<usize>
    requires { length faces.now ≤ MAX_PLANES_OF_A_KIND }
    ensures place { result ≡ position (λ f. f.number == number) faces.now }
    ensures low { IfSome result (λ place. place < 32) }
{
    faces.iter().position(|face| face.number == number)
}
