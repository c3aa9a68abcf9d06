//! Drawing one tile, and putting its picture into the numbers of the wide picture.
ghost use Rattle.std.specs.Prelude.{◌≡◌, ◌+◌, ◌*◌, ◌<◌, ◌≤◌, ◌⊎◌, IfErr, None, OnErr, OnOk, Some, length};
ghost use Rattle.px_num.specs.Want.{want};
ghost use Rattle.px_array.specs.Arrays.{pixel_of};
ghost use Rattle.px_array.specs.Slots.{IsRunOnce};
ghost use Rattle.px_control.specs.GridLaw.{CoversThePicture};
ghost use Rattle.px_control.specs.Program.{IsAt, total};
ghost use Rattle.px_control.specs.Standing.{LeavesOnRefusal};
ghost use Rattle.px_sched.specs.Layouts.{need_of};
ghost use Rattle.px_sched.specs.PassesLaw.{ShowsThePicture};
ghost use Rattle.px_tile.specs.Found.{PutsTile, sight_number};
ghost use Rattle.px_tile.specs.Refusals.{tile_refusal};
ghost use Rattle.px_tile.specs.PutRows.{HoldSights, PutsRow};

use px_array::Array;
use px_asm::Operating;
use px_control::{Job, JobFault};
use px_frame::Strip;
use px_model::{Scene, laws_of_scenes};
use px_sched::Layout;
use std::alloc::Global;

/// Draws a tile on an array and puts its picture into the numbers that are found of a wide picture
/// (docs/PICTURE.md, "Tiles"): for each pixel of the tile `depth * 2^32 + face`.
///
/// `scene` is the tile's, which begins at the pixel (x0, y0) of a picture of `width` columns and
/// lies in it; `found` has a number for each pixel of the wide picture, row by row. It is refused
/// as `Job::open`, and then leaves the numbers.
pub fn render_tile<A: Operating>(
    alloc: Global,
    scene: &Scene,
    x0: u32,
    width: u32,
    y0: u32,
    found: &mut [u64],
    array: &mut A,
) -> Result<(), JobFault>
    requires columns { x0 + scene.now.width ≤ width }
    requires rows { (y0 + scene.now.height) * width ≤ length found.old }
    ensures fits { OnOk result (tile_refusal scene.now A.BITS ≡ None) }
    ensures ok { OnOk result (PutsTile scene.now x0 y0 width found.old found.new) }
    ensures drawn { OnOk result (IsAt A.BITS scene.now (total scene.now) (A.view array.new).device) }
    ensures once { OnOk result (IsRunOnce (A.view array.new)) }
    ensures err { IfErr result (λ fault.
        (tile_refusal scene.now A.BITS ≡ Some fault) ⊎ (fault ≡ JobFault.Memory want)) }
    ensures found { OnErr result (found.new ≡ found.old) }
    ensures array { IfErr result (λ fault. LeavesOnRefusal fault (A.view array.old)
        (A.view array.new)) }
{
    let mut job = Job::open(alloc, scene, array)?;
    job.finish(array);
    let layout = job.layout();
    laws_of_scenes(scene);
    put_tile(array, &layout, scene, x0, width, y0, found);
    Ok(())
}

/// Puts the picture that an array stores of a tile into the numbers of the wide picture.
fn put_tile<A: Array>(
    array: &A,
    layout: &Layout,
    scene: &Scene,
    x0: u32,
    width: u32,
    y0: u32,
    found: &mut [u64],
)
    requires columns { x0 + scene.now.width ≤ width }
    requires rows { (y0 + scene.now.height) * width ≤ length found.old }
    requires covers { CoversThePicture scene.now (A.view array.now).device }
    requires room { need_of layout.now ≤ A.BITS }
    requires shows { ShowsThePicture scene.now layout.now
        (λ x y. (pixel_of (A.view array.now).device.state x y).memory) }
    ensures { PutsTile scene.now x0 y0 width found.old found.new }
{
    let (depth, face) = (layout.b_depth(), layout.b_number());
    let (mut depths, mut faces) = (Strip::new(), Strip::new());
    for y in 0..scene.height() {
        depths.enter_row(array, depth, scene.width(), y);
        faces.enter_row(array, face, scene.width(), y);
        let start = (y0 as usize + y as usize) * width as usize + x0 as usize;
        put_row(&depths, &faces, scene, y, start, found);
    }
}

/// Puts row `y` of it from a place on.
fn put_row(depths: &Strip, faces: &Strip, scene: &Scene, y: u32, start: usize, found: &mut [u64])
    requires y { y < scene.now.height }
    requires fits { start + scene.now.width ≤ length found.old }
    requires sights { HoldSights scene.now y depths.now faces.now }
    ensures { PutsRow scene.now scene.now.width y start found.old found.new }
{
    for x in 0..scene.width() {
        found[start + x as usize] = number_of(depths.at(x, y), faces.at(x, y));
    }
}

/// A depth and a face number as one number.
fn number_of(depth: u32, face: u32) -> u64
    ensures { result ≡ sight_number (record { depth = depth; face = face }) }
{
    (u64::from(depth) << 32) + u64::from(face)
}
