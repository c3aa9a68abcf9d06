//! Light lines (docs/SCENES.md, "Light lines").
ghost use Rattle.std.specs.Prelude.{◌≡◌, ◌<◌, ◌≤◌, ◌++◌, ◌∷◌, ◌&&◌, ◌+◌, ◌↔◌, [], All, IfErr, IfOk, IfSome, IsOk, List, None, Ok, OnOk, Some, length, true};
ghost use Rattle.std.specs.List.{cons_option};
ghost use Rattle.px_model.specs.Scenes.{SolidView};
ghost use Rattle.px_text.specs.Text.{is_name, Words, words_of, worded};
ghost use Rattle.px_normal.specs.Sets.{IsBelow};
ghost use Rattle.px_text.specs.declared.text.TheConstants.{MAX_TEXT_BYTES};
ghost use Rattle.px_shadow.specs.declared.light.Said.TheVariants as s;
ghost use Rattle.px_shadow.specs.Saying.{AreRead, pieces_of, said_of, with_solid};
ghost use Rattle.px_shadow.specs.LightLines.{
  lights_fault,
  is_solid_name,
  light_in,
  light_of,
  lights_of,
  line_fault,
  solid_named,
};

use crate::passes::MAX_LIGHTS;
use arrayvec::ArrayVec;
use px_model::{Scene, laws_of_scenes};
use px_normal::SolidSet;
use px_scene::Cause;
use px_text::{before_comment, is_blank, is_name, is_word, without_last_feed};
use thiserror::Error;

/// A line of lights is bad (docs/SCENES.md, "Light lines").
#[derive(Clone, Copy, Debug, Error)]
pub enum LightFault {
    /// Its words are no light.
    #[error("line {line}: {cause:?}")]
    Malformed { line: u32, cause: Cause },
    /// It is the ninth light.
    #[error("line {line}: {found} lights")]
    Limit { line: u32, found: u32 },
}

/// Reads lines of lights, of which the first has the number `first_line` (docs/SCENES.md, "Light
/// lines").
///
/// There is a light for each line with words, at most `MAX_LIGHTS`, in order: the set of the solids that the
/// line names. A fault is that of the first bad line.
pub fn read_lights(
    scene: &Scene,
    text: &[u8],
    first_line: u32,
) -> Result<ArrayVec<SolidSet, MAX_LIGHTS>, LightFault>
    requires line { first_line ≤ MAX_TEXT_BYTES + 1 }
    requires text { length text.now ≤ MAX_TEXT_BYTES }
    ensures lights { IfOk result (λ lights.
        lights.items ≡ lights_of scene.now.solids (worded text.now)) }
    ensures good { IsOk result
        ↔ (lights_fault scene.now.solids first_line (worded text.now) ≡ None) }
    ensures fault { IfErr result (λ fault.
        lights_fault scene.now.solids first_line (worded text.now) ≡ Some fault) }
    ensures known { IfOk result (λ lights.
        All (IsBelow (length scene.now.solids)) lights.items) }
{
    if text.is_empty() {
        return Ok(ArrayVec::new());
    }
    read_pieces(scene, without_last_feed(text), first_line)
}

/// Reads the lights of the pieces between line feeds.
fn read_pieces(
    scene: &Scene,
    text: &[u8],
    first_line: u32,
) -> Result<ArrayVec<SolidSet, MAX_LIGHTS>, LightFault>
    requires line { first_line ≤ MAX_TEXT_BYTES + 1 }
    requires text { length text.now ≤ MAX_TEXT_BYTES }
    ensures ok { IfOk result (λ lights. AreRead scene.now.solids first_line
        (pieces_of text.now) lights.items) }
    ensures fault { IfErr result (λ fault.
        lights_fault scene.now.solids first_line (pieces_of text.now) ≡ Some fault) }
{
    let mut lights = ArrayVec::new();
    let mut line = first_line;
    for piece in text.split(|b| *b == b'\n') {
        match take_line(scene, piece, line, &mut lights) {
            Ok(()) => line += 1,
            Err(fault) => return Err(fault),
        }
    }
    Ok(lights)
}

/// Takes a line of this number: the lights have one more where it is a light.
fn take_line(
    scene: &Scene,
    piece: &[u8],
    line: u32,
    lights: &mut ArrayVec<SolidSet, MAX_LIGHTS>,
) -> Result<(), LightFault>
    requires { All (IsBelow (length scene.now.solids)) lights.old.items }
    ensures good { OnOk result (line_fault line (length lights.old.items)
        (light_of scene.now.solids (words_of piece.now)) ≡ None) }
    ensures fault { IfErr result (λ fault. line_fault line (length lights.old.items)
        (light_of scene.now.solids (words_of piece.now)) ≡ Some fault) }
    ensures lights { OnOk result (lights.new.items ≡ lights.old.items
        ++ cons_option (light_in (light_of scene.now.solids (words_of piece.now))) []) }
    ensures known { OnOk result (All (IsBelow (length scene.now.solids)) lights.new.items) }
{
    laws_of_scenes(scene);
    match light_of(scene, piece) {
        Ok(None) => Ok(()),
        Ok(Some(light)) => add_light(light, line, lights),
        Err(cause) => Err(LightFault::Malformed { line, cause }),
    }
}

/// Adds a light, where it is not the ninth.
fn add_light(
    light: SolidSet,
    line: u32,
    lights: &mut ArrayVec<SolidSet, MAX_LIGHTS>,
) -> Result<(), LightFault>
    ensures good { OnOk result (line_fault line (length lights.old.items) (Ok (Some light)) ≡ None) }
    ensures fault { IfErr result (λ fault.
        line_fault line (length lights.old.items) (Ok (Some light)) ≡ Some fault) }
    ensures lights { OnOk result (lights.new.items ≡ lights.old.items ++ light ∷ []) }
{
    if lights.len() == MAX_LIGHTS {
        return Err(LightFault::Limit {
            line,
            found: lights.len() as u32 + 1,
        });
    }
    lights.push(light);
    Ok(())
}

/// What the words of a line say so far.
#[derive(Clone, Copy)]
enum Said {
    /// There is no word.
    Nothing,
    /// The first word is not `light`.
    Other,
    /// Behind `light`: whether there are words, whether each is a name, whether each is a solid's
    /// name, and the solids.
    Light {
        are_some: bool,
        are_names: bool,
        are_solids: bool,
        solids: SolidSet,
    },
}

/// The light of a line, or none where it has no words, or why its words are bad.
fn light_of(scene: &Scene, line: &[u8]) -> Result<Option<SolidSet>, Cause>
    ensures { result ≡ light_of scene.now.solids (words_of line.now) }
{
    let mut said = Said::Nothing;
    for word in before_comment(line)
        .split(|b| is_blank(*b))
        .filter(|w| is_word(*w))
    {
        said = said.with(scene, word);
    }
    said.light()
}

impl Said {
    /// With a word more.
    #[tactic(auto, using(crate::proofs::SayingLemmas::light_more))]
    fn with(self, scene: &Scene, word: &[u8]) -> Said
        ensures { (ws : Words) → self ≡ said_of scene.now.solids ws →
            result ≡ said_of scene.now.solids (ws ++ word.now ∷ []) }
    {
        match self {
            Said::Nothing => first_word(word),
            Said::Other => Said::Other,
            Said::Light {
                are_some: _,
                are_names,
                are_solids,
                solids,
            } => next_word(scene, word, are_names, are_solids, &solids),
        }
    }

    /// The light, or why there is none.
    fn light(self) -> Result<Option<SolidSet>, Cause>
        ensures { (ss : List SolidView) (ws : Words) → self ≡ said_of ss ws → result ≡ light_of ss ws }
    {
        match self {
            Said::Nothing => Ok(None),
            Said::Other => Err(Cause::Unexpected),
            Said::Light {
                are_some,
                are_names,
                are_solids,
                solids,
            } => {
                if !are_some {
                    Err(Cause::WordCount)
                } else if !are_names {
                    Err(Cause::BadName)
                } else if !are_solids {
                    Err(Cause::UnknownName)
                } else {
                    Ok(Some(solids))
                }
            }
        }
    }
}

/// What the first word says.
fn first_word(word: &[u8]) -> Said
    ensures { (ss : List SolidView) → result ≡ said_of ss (word.now ∷ []) }
{
    if word == b"light".as_slice() {
        Said::Light {
            are_some: false,
            are_names: true,
            are_solids: true,
            solids: SolidSet::default(),
        }
    } else {
        Said::Other
    }
}

/// What a further word says behind `light` and others.
fn next_word(
    scene: &Scene,
    word: &[u8],
    are_names: bool,
    are_solids: bool,
    solids: &SolidSet,
) -> Said
    ensures { result ≡ s.Light true (are_names && is_name word.now)
        (are_solids && is_solid_name scene.now.solids word.now)
        (with_solid solids.now (solid_named scene.now.solids word.now)) }
{
    let solid = solid_named(scene, word);
    Said::Light {
        are_some: true,
        are_names: are_names && is_name(word),
        are_solids: are_solids && solid.is_some(),
        solids: match solid {
            Some(solid) => solids.with(solid),
            None => *solids,
        },
    }
}

/// The index of the solid of this name.
fn solid_named(scene: &Scene, name: &[u8]) -> Option<u8>
    ensures { result ≡ solid_named scene.now.solids name.now }
{
    match place_of(scene, name) {
        Some(place) => Some(place as u8),
        None => None,
    }
}

fn place_of(scene: &Scene, name: &[u8]) -> Option<usize>
    ensures place { result ≡ solid_named scene.now.solids name.now }
    ensures low { IfSome result (λ place. place < 255) }
{
    let solids = scene.solids();
    solids.iter().position(|s| s.name() == name)
}
