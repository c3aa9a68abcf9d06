//! The picture of a scene in memory: how a crate outside calls the library (docs/LIBRARY.md).
#![tactic(auto)]

ghost use Rattle.std.specs.Prelude.{◌≡◌, ◌++◌, ◌⊎◌, IfErr, IfOk, None, OnOk, Some, true};
ghost use Rattle.px_example.specs.Drawing.{not_drawn};
ghost use Rattle.px_example.specs.declared.TheConstants.{BITS};
ghost use Rattle.px_example.specs.declared.NotDrawn.{NotDrawn};
ghost use Rattle.px_frame.specs.Picture.{depth_image, face_image};
ghost use Rattle.px_scene.specs.Reading.{refusal_of, scene_of};
ghost use Rattle.px_scene.specs.Text.{worded};

use px_control::JobFault;
use px_frame::{deliver, open_job};
use px_io::MemSink;
use px_planes::PlaneArray;
use px_scene::{Scene, SceneFault, read_scene};
use std::alloc::Global;

/// Room for two images of 512 by 512 pixels.
const ROOM: usize = 2 * (32 + 3 * 512 * 512);

/// The memory bits of a pixel.
const BITS: usize = 72;

/// Why a text has no picture.
#[derive(Debug, Drop)]
pub enum NotDrawn {
    /// The text is no scene: the first bad line, and its cause or the limit that it passes.
    Text(SceneFault),
    /// The array cannot draw the scene: it needs more memory bits, or has too many products.
    Array(JobFault),
    /// Memory was wanted and not given, or a write failed.
    Unfinished,
}

/// The depth image and then the face image of the scene that a text writes, finished.
pub fn picture_of(alloc: Global, text: &[u8]) -> Result<MemSink, NotDrawn>
    ensures maps { IfOk result (λ maps. maps.written
        ≡ depth_image (scene_of (worded text.now)) ++ face_image (scene_of (worded text.now))) }
    ensures end { IfOk result (λ maps. maps.finished ≡ true) }
    ensures drawn { OnOk result (not_drawn BITS text.now ≡ None) }
    ensures cause { IfErr result (λ fault. (fault ≡ NotDrawn.Unfinished)
        ⊎ (not_drawn BITS text.now ≡ Some fault)) }
{
    let scene = scene_in(alloc, text)?;
    let Ok(mut maps) = MemSink::new(alloc, ROOM, 4096, Vec::new(alloc)) else {
        return Err(NotDrawn::Unfinished);
    };
    let mut array = PlaneArray::<BITS>::new(alloc);
    let mut job = match open_job(alloc, &scene, &mut array) {
        Ok(job) => job,
        Err(JobFault::Memory(_)) => return Err(NotDrawn::Unfinished),
        Err(fault) => return Err(NotDrawn::Array(fault)),
    };
    match deliver(&mut job, &scene, &mut array, &mut maps) {
        Ok(()) => Ok(maps),
        Err(_) => Err(NotDrawn::Unfinished),
    }
}

/// The scene that a text writes.
fn scene_in(alloc: Global, text: &[u8]) -> Result<Scene, NotDrawn>
    ensures scene { IfOk result (λ scene. scene ≡ scene_of (worded text.now)) }
    ensures accepted { OnOk result (refusal_of text.now ≡ None) }
    ensures cause { IfErr result (λ fault. (fault ≡ NotDrawn.Unfinished)
        ⊎ (not_drawn BITS text.now ≡ Some fault)) }
{
    match read_scene(alloc, text) {
        Ok(scene) => Ok(scene),
        Err(SceneFault::Memory(_)) => Err(NotDrawn::Unfinished),
        Err(fault) => Err(NotDrawn::Text(fault)),
    }
}
