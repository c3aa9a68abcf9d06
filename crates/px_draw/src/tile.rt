//! The command `tile`: a wide picture, drawn tile by tile.
ghost use Rattle.std.specs.Prelude.{◌≡◌, IfErr, IfOk, OnErr, OnOk, None, true};
ghost use Rattle.std.specs.Io.KnownBytes.{Appends};
ghost use Rattle.px_io.specs.Counts.{HasCause};
ghost use Rattle.px_io.specs.Reports.{TakesFront, Tells};
ghost use Rattle.px_tile.specs.Found.{IsFound};
ghost use Rattle.px_tile.specs.Pictures.{IsLastDrawn};
ghost use Rattle.px_tile.specs.Tilings.{IsWideSize};
ghost use Rattle.px_commands.specs.Outcomes.{unless_refused};
ghost use Rattle.px_commands.specs.Results.{status_in, status_of};
ghost use Rattle.px_commands.specs.Stops.{DoesWork, StopsAt, stop_at, stopped};
ghost use Rattle.px_draw.specs.Tiling.{DrawsTiles, tiled, tiles_refusal, wide_fault_refusal, wide_images};

use px_asm::Operating;
use px_commands::{Kind, Refusal, SceneStop, Size, Stop, past_limit};
use px_io::{Failed, Sink};
use px_scene::{LimitKind, Scene};
use px_tile::{WideFault, render_tiles, write_wide};
use std::alloc::Global;

/// Draws a wide picture of a scene tile by tile on the array, and writes its two images.
pub(crate) fn make_tiled<O: Sink, A: Operating>(
    alloc: Global,
    scene: &Scene,
    size: Size,
    out: &mut O,
    array: &mut A,
) -> Result<(), Stop>
    requires size { IsWideSize size.width size.height }
    ensures serves { DoesWork result (tiled size scene.now A.BITS)
        (O.state out.old) (O.state out.new) }
    ensures array { DrawsTiles (status_in result) A.BITS size scene.now (A.view array.old)
        (A.view array.new) }
{
    let found = find_pixels(alloc, scene, size, array)?;
    Ok(deliver_wide(found.as_slice(), scene, size, out)?)
}

/// Draws the tiles, and gives the numbers of the wide picture.
fn find_pixels<A: Operating>(
    alloc: Global,
    scene: &Scene,
    size: Size,
    array: &mut A,
) -> Result<Vec<u64>, SceneStop>
    requires size { IsWideSize size.width size.height }
    ensures fits { OnOk result (tiles_refusal size scene.now A.BITS ≡ None) }
    ensures found { IfOk result (λ found. IsFound scene.now size.width size.height found.items) }
    ensures drawn { OnOk result (IsLastDrawn A.BITS scene.now size.width size.height
        (A.view array.new)) }
    ensures err { IfErr result (λ stop.
        StopsAt (unless_refused (tiles_refusal size scene.now A.BITS)) stop) }
    ensures array { IfErr result (λ stop. DrawsTiles (status_of (stopped stop)) A.BITS size scene.now
        (A.view array.old) (A.view array.new)) }
{
    render_tiles(alloc, scene, size.width, size.height, array).map_err(wide_stop)
}

/// Why a wide picture is not drawn.
pub fn wide_stop(fault: WideFault) -> SceneStop
    ensures { result ≡ stop_at (wide_fault_refusal fault) }
{
    match fault {
        WideFault::Tiles { found } => SceneStop::Refused(Refusal::Limit {
            line: 0,
            kind: Kind::Tiles,
            found: i64::from(found),
        }),
        WideFault::Coefficient { found } => past_limit(LimitKind::Coefficient, found),
        WideFault::PixelMemory { need } => past_limit(LimitKind::PixelMemory, i64::from(need)),
        WideFault::Products { count } => past_limit(LimitKind::Products, i64::from(count)),
        WideFault::Memory(lack) => SceneStop::Memory(lack),
    }
}

/// Writes the two images of a wide picture, and finishes.
fn deliver_wide<O: Sink>(
    found: &[u64],
    scene: &Scene,
    size: Size,
    out: &mut O,
) -> Result<(), Failed>
    requires size { IsWideSize size.width size.height }
    requires found { IsFound scene.now size.width size.height found.now }
    ensures ok { OnOk result (Appends (O.state out.old).written (O.state out.new).written
        (wide_images size scene.now)) }
    ensures end { OnOk result (Tells (O.state out.new).finished true) }
    ensures err { OnErr result (TakesFront (O.state out.old) (O.state out.new) (wide_images size scene.now)) }
    ensures cause { HasCause (O.state out.old).faults (O.state out.new).faults result }
{
    write_wide(found, scene, size.width, size.height, out)?;
    out.finish()
}
