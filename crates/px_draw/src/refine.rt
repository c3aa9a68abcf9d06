//! The command `refine`: a colour image of means over the finer scene.
ghost use Rattle.std.specs.Prelude.{◌≡◌, ◌≤◌, IfErr, IfOk, None};
ghost use Rattle.px_frame.specs.Finer.{fine_scene};
ghost use Rattle.px_frame.specs.Refined.{doublings};
ghost use Rattle.px_commands.specs.Arrays.{Draws};
ghost use Rattle.px_commands.specs.Outcomes.{unless_refused};
ghost use Rattle.px_commands.specs.Results.{status_in};
ghost use Rattle.px_commands.specs.Stops.{DoesWork, StopsAt};
ghost use Rattle.px_draw.specs.Refining.{fine_refusal, refined};

use crate::make::make_images;
use px_asm::Operating;
use px_commands::{SceneStop, Stop};
use px_frame::{Fineness, Plane, fine_scene};
use px_io::Sink;
use px_scene::Scene;
use std::alloc::Global;

/// Draws the finer scene on the array, and writes one image of means over it.
pub(crate) fn make_refined<O: Sink, A: Operating>(
    alloc: Global,
    scene: &Scene,
    fineness: Fineness,
    out: &mut O,
    array: &mut A,
) -> Result<(), Stop>
    ensures serves { DoesWork result (refined (doublings fineness) scene.now A.BITS)
        (O.state out.old) (O.state out.new) }
    ensures array { Draws (status_in result) A.BITS (fine_scene (doublings fineness) scene.now)
        (A.view array.old) (A.view array.new) }
{
    let fine = finer_scene(alloc, scene, fineness.doublings())?;
    make_images(alloc, &fine, &[Plane::Means(fineness)], out, array)
}

/// The finer scene, or why there is none.
pub fn finer_scene(alloc: Global, scene: &Scene, s: u32) -> Result<Scene, SceneStop>
    requires { s ≤ 2 }
    ensures ok { IfOk result (λ fine.
        (fine_refusal s scene.now ≡ None) × (fine ≡ fine_scene s scene.now)) }
    ensures err { IfErr result (λ stop. StopsAt (unless_refused (fine_refusal s scene.now)) stop) }
{
    fine_scene(alloc, scene, s).map_err(SceneStop::from)
}
