//! Drawing an opened job on its array, and writing the images that the array then stores.
ghost use Rattle.std.specs.Prelude.{◌≡◌, ◌++◌, ◌-◌, true, OnOk, OnErr};
ghost use Rattle.std.specs.Io.KnownBytes.{Appends};
ghost use Rattle.px_io.specs.Counts.{HasCause};
ghost use Rattle.px_io.specs.Reports.{TakesAll, TakesFront, Tells};
ghost use Rattle.px_array.specs.Slots.{HasWorked, IsRunOnce};
ghost use Rattle.px_sched.specs.Layouts.{layout_of};
ghost use Rattle.px_control.specs.Program.{IsAt, total};
ghost use Rattle.px_frame.specs.Picture.{depth_image, face_image};
ghost use Rattle.px_frame.specs.Drawn.{IsDrawn, IsFinished};
ghost use Rattle.px_frame.specs.Images.{images, picture_image};

use crate::image::write_picture;
use crate::plane::Plane;
use px_array::Array;
use px_asm::Operating;
use px_control::Job;
use px_io::{Failed, Sink};
use px_scene::{Scene, laws_of_scenes};
use px_sched::Layout;

/// Makes the clocks that are left of a job, writes the depth image and the face image that the
/// array then stores, and finishes.
///
/// The scene is the job's. However writing ends, the array is drawn, its slots are as before and its
/// work has grown by the clocks that were left, and the job has made all its clocks. Takes no memory.
pub fn deliver<A: Operating, O: Sink>(
    job: &mut Job<'_>,
    scene: &Scene,
    array: &mut A,
    out: &mut O,
) -> Result<(), Failed>
    requires scene { scene.now ≡ job.old.scene }
    requires at { IsAt A.BITS scene.now job.old.place.clock (A.view array.old).device }
    ensures ok { OnOk result (Appends (O.state out.old).written (O.state out.new).written
        (depth_image scene.now ++ face_image scene.now)) }
    ensures end { OnOk result (Tells (O.state out.new).finished true) }
    ensures err { OnErr result (TakesFront (O.state out.old) (O.state out.new)
        (depth_image scene.now ++ face_image scene.now)) }
    ensures cause { HasCause (O.state out.old).faults (O.state out.new).faults result }
    ensures drawn { IsDrawn A.BITS scene.now (A.view array.new).device }
    ensures worked { HasWorked (total scene.now - job.old.place.clock)
        (A.view array.old) (A.view array.new) }
    ensures once { IsRunOnce (A.view array.old) → IsRunOnce (A.view array.new) }
    ensures job { IsFinished job.old job.new }
{
    deliver_images(job, scene, array, &[Plane::Depth, Plane::Face], out)
}

/// Makes the clocks that are left of a job, writes these images in their order, and finishes.
pub fn deliver_images<A: Operating, O: Sink>(
    job: &mut Job<'_>,
    scene: &Scene,
    array: &mut A,
    planes: &[Plane],
    out: &mut O,
) -> Result<(), Failed>
    requires scene { scene.now ≡ job.old.scene }
    requires at { IsAt A.BITS scene.now job.old.place.clock (A.view array.old).device }
    ensures ok { OnOk result (Appends (O.state out.old).written (O.state out.new).written
        (images scene.now planes.now)) }
    ensures end { OnOk result (Tells (O.state out.new).finished true) }
    ensures err { OnErr result (TakesFront (O.state out.old) (O.state out.new) (images scene.now planes.now)) }
    ensures cause { HasCause (O.state out.old).faults (O.state out.new).faults result }
    ensures drawn { IsDrawn A.BITS scene.now (A.view array.new).device }
    ensures worked { HasWorked (total scene.now - job.old.place.clock)
        (A.view array.old) (A.view array.new) }
    ensures once { IsRunOnce (A.view array.old) → IsRunOnce (A.view array.new) }
    ensures job { IsFinished job.old job.new }
{
    let layout = draw_job(job, scene, array);
    write_images(array, &layout, scene, planes, out)?;
    out.finish()
}

/// Makes the clocks that are left, and answers where the picture then is in a pixel's memory.
#[tactic(auto, using(crate::proofs::PictureLemmas::background_shown))]
pub fn draw_job<A: Operating>(job: &mut Job<'_>, scene: &Scene, array: &mut A) -> Layout
    requires scene { scene.now ≡ job.old.scene }
    requires at { IsAt A.BITS scene.now job.old.place.clock (A.view array.old).device }
    ensures layout { result ≡ layout_of scene.now }
    ensures drawn { IsDrawn A.BITS scene.now (A.view array.new).device }
    ensures worked { HasWorked (total scene.now - job.old.place.clock)
        (A.view array.old) (A.view array.new) }
    ensures once { IsRunOnce (A.view array.old) → IsRunOnce (A.view array.new) }
    ensures job { IsFinished job.old job.new }
{
    job.finish(array);
    laws_of_scenes(scene);
    job.layout()
}

/// Writes images of a drawn array, one after another.
fn write_images<A: Array, O: Sink>(
    array: &A,
    layout: &Layout,
    scene: &Scene,
    planes: &[Plane],
    out: &mut O,
) -> Result<(), Failed>
    requires layout { layout.now ≡ layout_of scene.now }
    requires drawn { IsDrawn A.BITS scene.now (A.view array.now).device }
    ensures ok { OnOk result (TakesAll (O.state out.old) (O.state out.new) (images scene.now planes.now)) }
    ensures err { OnErr result (TakesFront (O.state out.old) (O.state out.new) (images scene.now planes.now)) }
    ensures cause { HasCause (O.state out.old).faults (O.state out.new).faults result }
{
    for plane in planes {
        write_image(array, layout, scene, *plane, out)?;
    }
    Ok(())
}

/// Writes one image of a drawn array.
fn write_image<A: Array, O: Sink>(
    array: &A,
    layout: &Layout,
    scene: &Scene,
    plane: Plane,
    out: &mut O,
) -> Result<(), Failed>
    requires layout { layout.now ≡ layout_of scene.now }
    requires drawn { IsDrawn A.BITS scene.now (A.view array.now).device }
    ensures ok { OnOk result (TakesAll (O.state out.old) (O.state out.new)
        (picture_image scene.now plane)) }
    ensures err { OnErr result (TakesFront (O.state out.old) (O.state out.new)
        (picture_image scene.now plane)) }
    ensures cause { HasCause (O.state out.old).faults (O.state out.new).faults result }
{
    laws_of_scenes(scene);
    write_picture(array, layout, scene, plane, out)
}
