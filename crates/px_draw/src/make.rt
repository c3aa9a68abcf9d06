//! What is made of the scene that is the whole input.
ghost use Rattle.std.specs.Prelude.{◌≡◌, ◌≢◌, ◌≤◌, Err};
ghost use Rattle.px_scene.specs.Text.{worded};
ghost use Rattle.px_commands.specs.Commands.{HasSize};
ghost use Rattle.px_commands.specs.declared.command.Work.{Work};
ghost use Rattle.px_commands.specs.declared.stop.Stop.{Stop};
ghost use Rattle.px_commands.specs.Arrays.{Draws};
ghost use Rattle.px_commands.specs.Outcomes.{done, drawable};
ghost use Rattle.px_commands.specs.Ends.{ends};
ghost use Rattle.px_commands.specs.Results.{HasCauses, status_in};
ghost use Rattle.px_commands.specs.Inputs.{TookText};
ghost use Rattle.px_commands.specs.Stops.{DoesWork};
ghost use Rattle.px_frame.specs.Images.{images};
ghost use Rattle.px_draw.specs.Works.{LeavesArray, PerformsWork, made, planned, tidied};

use crate::list::make_list;
use crate::refine::make_refined;
use crate::tile::make_tiled;
use px_asm::Operating;
use px_commands::{
    Stop, Work, cost_text, drawing_of, kept_of, open_job, plan_text, read_text, scene_in,
    write_finished,
};
use px_control::cost;
use px_frame::{Plane, deliver_images};
use px_io::{Sink, Source};
use px_normal::count_products;
use px_scene::{Scene, write_scene};
use std::alloc::Global;

/// Reads the input to its end, and makes of its scene what is wanted.
pub fn make_of_input<S: Source, O: Sink, A: Operating>(
    work: Work,
    alloc: Global,
    input: &mut S,
    out: &mut O,
    array: &mut A,
) -> Result<(), Stop>
    requires bits { A.BITS ≤ 256 }
    requires size { HasSize work }
    ensures performs { PerformsWork work result A.BITS
        (ends (S.rest input.old) (S.faults input.old) (O.state out.old) (A.view array.old))
        (ends (S.rest input.new) (S.faults input.new) (O.state out.new) (A.view array.new)) }
    ensures causes { HasCauses result (S.faults input.old) (S.faults input.new) (O.state out.old).faults
        (O.state out.new).faults }
    ensures took { TookText (status_in result)
        (S.rest input.old) (S.rest input.new) }
    ensures worded { result ≢ Err Stop.Usage }
{
    let text = read_text(alloc, input)?;
    let scene = scene_in(alloc, text.as_slice())?;
    make(work, alloc, &scene, out, array)
}

/// Makes of a scene what is wanted.
fn make<O: Sink, A: Operating>(
    work: Work,
    alloc: Global,
    scene: &Scene,
    out: &mut O,
    array: &mut A,
) -> Result<(), Stop>
    requires bits { A.BITS ≤ 256 }
    requires size { HasSize work }
    ensures serves { DoesWork result (made work scene.now A.BITS)
        (O.state out.old) (O.state out.new) }
    ensures array { LeavesArray work (status_in result) A.BITS scene.now (A.view array.old)
        (A.view array.new) }
{
    match work {
        Work::Render => make_images(alloc, scene, &[Plane::Depth, Plane::Face], out, array),
        Work::Colour => make_images(alloc, scene, &[Plane::Colour], out, array),
        Work::Tidy => make_tidy(alloc, scene, out),
        Work::Plan => make_plan(alloc, scene, out),
        Work::Cost => make_cost(alloc, scene, A::BITS as u32, out),
        Work::Refine(fineness) => make_refined(alloc, scene, fineness, out, array),
        Work::Tile(size) => make_tiled(alloc, scene, size, out, array),
        Work::List => make_list(alloc, scene, A::BITS as u32, out),
    }
}

/// Draws a scene on the array, and writes images of it.
pub(crate) fn make_images<O: Sink, A: Operating>(
    alloc: Global,
    scene: &Scene,
    planes: &[Plane],
    out: &mut O,
    array: &mut A,
) -> Result<(), Stop>
    ensures serves { DoesWork result (drawable A.BITS scene.now (done (images scene.now planes.now)))
        (O.state out.old) (O.state out.new) }
    ensures array { Draws (status_in result) A.BITS scene.now (A.view array.old)
        (A.view array.new) }
{
    let mut job = open_job(alloc, scene, array)?;
    Ok(deliver_images(&mut job, scene, array, planes, out)?)
}

fn make_tidy<O: Sink>(alloc: Global, scene: &Scene, out: &mut O) -> Result<(), Stop>
    ensures serves { DoesWork result (tidied scene.now)
        (O.state out.old) (O.state out.new) }
{
    let text = match write_scene(alloc, scene) {
        Ok(text) => text,
        Err(lack) => return Err(Stop::Memory(lack)),
    };
    write_out(text.as_slice(), out)
}

fn make_plan<O: Sink>(alloc: Global, scene: &Scene, out: &mut O) -> Result<(), Stop>
    ensures serves { DoesWork result (planned scene.now)
        (O.state out.old) (O.state out.new) }
{
    let plan = kept_of(alloc, scene)?;
    let all = count_products(scene.show());
    let text = match plan_text(alloc, scene.solids(), all, plan.products.as_slice()) {
        Ok(text) => text,
        Err(lack) => return Err(Stop::Memory(lack)),
    };
    write_out(text.as_slice(), out)
}

fn make_cost<O: Sink>(alloc: Global, scene: &Scene, bits: u32, out: &mut O) -> Result<(), Stop>
    ensures serves { DoesWork result (made Work.Cost scene.now bits)
        (O.state out.old) (O.state out.new) }
{
    let (layout, plan) = drawing_of(alloc, scene, bits)?;
    let (operations, clocks) = cost(scene, &plan, &layout);
    write_out(cost_text(operations, clocks).as_bytes(), out)
}

/// Writes all of these bytes, and finishes.
fn write_out<O: Sink>(bytes: &[u8], out: &mut O) -> Result<(), Stop>
    ensures serves { DoesWork result (done bytes.now)
        (O.state out.old) (O.state out.new) }
{
    Ok(write_finished(bytes, out)?)
}
