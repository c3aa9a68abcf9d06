//! The finer scene, and why a scene has none.
ghost use Rattle.std.specs.Prelude.{◌≡◌, ◌≤◌, ◌*◌, ◌^◌, Err, IfErr, IfOk, OnOk, None, Some};
ghost use Rattle.px_model.specs.Pixels.{HasSceneOver};
ghost use Rattle.px_frame.specs.Finer.{fine_scene};
ghost use Rattle.px_frame.specs.declared.fine_fault.FineFault.{FineFault};
ghost use Rattle.px_frame.specs.FineFaults.{IsRefusal, fine_fault, most_fraction};

use crate::fine_fault::FineFault;
use px_model::{
    MAX_DEPTH_BITS, MAX_FRACTION_BITS, MAX_PICTURE_SIZE, Pixels, Scene, laws_of_scenes,
};
use std::alloc::Global;

/// The scene over a screen of `2^s` times as many pixels on each side, for `s` of 1 or 2
/// (docs/PICTURE.md, "Refinement").
///
/// It is refused where the fraction of a depth would have too many bits, then where the picture
/// would be too wide or too high, then where the constant of a plane would be too large; each of
/// them comes when it must, before memory is taken.
pub fn fine_scene(alloc: Global, scene: &Scene, s: u32) -> Result<Scene, FineFault>
    requires { s ≤ 2 }
    ensures scene { IfOk result (λ fine. fine ≡ fine_scene s scene.now) }
    ensures whole { OnOk result (fine_fault s scene.now ≡ None) }
    ensures refused { IfErr result (λ fault. IsRefusal (fine_fault s scene.now) fault) }
    ensures due { (fault : FineFault) → fine_fault s scene.now ≡ Some fault → result ≡ Err fault }
{
    if let Some(fault) = fine_fault(scene, s) {
        return Err(fault);
    }
    let width = parts(s) * scene.width();
    let height = parts(s) * scene.height();
    let fine = scene.over(alloc, Pixels::Finer { s }, width, height)?;
    Ok(fine)
}

/// Why the scene has no finer scene, where it has none.
fn fine_fault(scene: &Scene, s: u32) -> Option<FineFault>
    requires { s ≤ 2 }
    ensures fault { result ≡ fine_fault s scene.now }
    ensures fits { result ≡ None → HasSceneOver (Pixels.Finer s)
        (2 ^ s * scene.now.width) (2 ^ s * scene.now.height) scene.now }
{
    laws_of_scenes(scene);
    let fraction = scene.fraction_bits() + s;
    if fraction > most_fraction(scene) {
        return Some(FineFault::Fraction { found: fraction });
    }
    let width = parts(s) * scene.width();
    if width > MAX_PICTURE_SIZE {
        return Some(FineFault::Picture { found: width });
    }
    let height = parts(s) * scene.height();
    if height > MAX_PICTURE_SIZE {
        return Some(FineFault::Picture { found: height });
    }
    match scene.first_past(Pixels::Finer { s }) {
        Some(found) => Some(FineFault::Coefficient { found }),
        None => None,
    }
}

/// How many bits the fraction of a depth may have.
fn most_fraction(scene: &Scene) -> u32
    ensures { result ≡ most_fraction scene.now }
{
    (MAX_DEPTH_BITS - scene.depth_bits()).min(MAX_FRACTION_BITS)
}

/// How many finer pixels stand along each side of a pixel.
pub(crate) fn parts(s: u32) -> u32
    requires { s ≤ 2 }
    ensures value { result ≡ 2 ^ s }
    ensures few { result ≤ 4 }
{
    1 << s
}
