//! The command `shadow`: the image of the lights that the lines after a scene name.
ghost use Rattle.std.specs.Prelude.{◌≡◌, ◌≢◌, ◌+◌, ◌<◌, ◌≤◌, ◌==◌, All, IfErr, IfOk, OnErr, OnOk, Err, length, true, unwrap_or};
ghost use Rattle.std.specs.Io.KnownBytes.{Appends};
ghost use Rattle.px_io.specs.Counts.{HasCause};
ghost use Rattle.px_io.specs.Reports.{TakesAll, TakesFront, Tells};
ghost use Rattle.px_array.specs.Slots.{IsRunOnce};
ghost use Rattle.px_control.specs.GridLaw.{CoversThePicture};
ghost use Rattle.px_control.specs.Program.{IsAt};
ghost use Rattle.px_asked.specs.Parts.{part_end};
ghost use Rattle.px_normal.specs.Sets.{IsBelow};
ghost use Rattle.px_sched.specs.Layouts.{layout_of};
ghost use Rattle.px_shadow.specs.Lights.{mask_image};
ghost use Rattle.px_shadow.specs.Shaded.{IsShaded};
ghost use Rattle.px_shadow.specs.ShadowPasses.{need_with};
ghost use Rattle.px_shadow.specs.Stored.{StoresTheLights};
ghost use Rattle.px_commands.specs.declared.stop.Stop.{Stop};
ghost use Rattle.px_commands.specs.Arrays.{Draws};
ghost use Rattle.px_commands.specs.Outcomes.{Outcome};
ghost use Rattle.px_commands.specs.Ends.{ends};
ghost use Rattle.px_commands.specs.Results.{HasCauses, status_in, status_of};
ghost use Rattle.px_commands.specs.Inputs.{TookText};
ghost use Rattle.px_shadow.specs.Shadows.{PerformsShadow, Shades, ShadesBy, ShadesParts, line_behind, lit, lit_drawable, parts_lit, shadowed};
ghost use Rattle.px_commands.specs.Stops.{DoesWork, StopsAt, stopped};

use crate::light::{LightFault, read_lights};
use crate::masks::write_masks;
use crate::passes::{need, shade};
use arrayvec::ArrayVec;
use px_array::Array;
use px_asked::{laws_of_parts, part_end};
use px_asm::Operating;
use px_commands::{
    Kind, READ_LIMIT, Refusal, SceneStop, Stop, behind, open_job, past_limit, read_text, scene_in,
    too_long,
};
use px_control::Job;
use px_frame::draw_job;
use px_io::{Failed, Sink, Source};
use px_normal::SolidSet;
use px_scene::{LimitKind, Scene, laws_of_scenes};
use px_sched::{Layout, NeedBits};
use px_text::MAX_TEXT_BYTES;
use std::alloc::Global;

/// Reads the input to its end, and draws the image of the lights that the lines after its scene
/// part name.
#[tactic(auto, using(crate::proofs::ShadowLemmas::performs_unread))]
pub fn shadow_input<S: Source, O: Sink, A: Operating>(
    alloc: Global,
    input: &mut S,
    out: &mut O,
    array: &mut A,
) -> Result<(), Stop>
    requires bits { A.BITS ≤ 256 }
    ensures performs { PerformsShadow result A.BITS
        (ends (S.rest input.old) (S.faults input.old) (O.state out.old) (A.view array.old))
        (ends (S.rest input.new) (S.faults input.new) (O.state out.new) (A.view array.new)) }
    ensures causes { HasCauses result (S.faults input.old) (S.faults input.new) (O.state out.old).faults
        (O.state out.new).faults }
    ensures took { TookText (status_in result)
        (S.rest input.old) (S.rest input.new) }
    ensures worded { result ≢ Err Stop.Usage }
{
    let text = read_text(alloc, input)?;
    shade_text(alloc, text.as_slice(), out, array)
}

/// Draws the lights of a text.
#[tactic(auto, using(crate::proofs::ShadowLemmas::long_shadowed))]
fn shade_text<O: Sink, A: Operating>(
    alloc: Global,
    text: &[u8],
    out: &mut O,
    array: &mut A,
) -> Result<(), Stop>
    requires bits { A.BITS ≤ 256 }
    ensures serves { DoesWork result (shadowed text.now A.BITS)
        (O.state out.old) (O.state out.new) }
    ensures array { Shades (status_in result) A.BITS text.now (A.view array.old)
        (A.view array.new) }
{
    if text.len() >= READ_LIMIT {
        return Err(Stop::Refused(too_long()));
    }
    let length = part_length(text);
    shade_parts(alloc, &text[..length], behind(text, length), out, array)
}

/// How many bytes the scene part of a text has.
fn part_length(text: &[u8]) -> usize
    ensures value { result ≡ unwrap_or (part_end text.now) (length text.now) }
    ensures within { result ≤ length text.now }
{
    laws_of_parts();
    match part_end(text) {
        Some(length) => length,
        None => text.len(),
    }
}

/// Draws the lights of a scene part and the lines behind it.
fn shade_parts<O: Sink, A: Operating>(
    alloc: Global,
    part: &[u8],
    behind: &[u8],
    out: &mut O,
    array: &mut A,
) -> Result<(), Stop>
    requires bits { A.BITS ≤ 256 }
    requires part { length part.now ≤ MAX_TEXT_BYTES }
    requires behind { length behind.now ≤ MAX_TEXT_BYTES }
    ensures serves { DoesWork result (parts_lit A.BITS part.now behind.now)
        (O.state out.old) (O.state out.new) }
    ensures array { ShadesParts (status_in result) A.BITS part.now behind.now (A.view array.old)
        (A.view array.new) }
{
    let scene = scene_in(alloc, part)?;
    let lights = read_lights(&scene, behind, line_behind(part))?;
    shade_scene(alloc, &scene, &lights, out, array)
}

/// The number of the line behind a part of whole lines.
fn line_behind(part: &[u8]) -> u32
    requires { length part.now ≤ MAX_TEXT_BYTES }
    ensures value { result ≡ line_behind part.now }
    ensures most { result ≤ READ_LIMIT }
{
    part.iter().filter(|b| **b == b'\n').count() as u32 + 1
}

impl From<LightFault> for Stop {
    ghost use Rattle.std.specs.Prelude.{◌≡◌};
    ghost use Rattle.px_commands.specs.declared.stop.Stop.TheVariants.{Refused};
    ghost use Rattle.px_shadow.specs.Shadows.{light_refusal};

    ghost from_gives = { λ fault stop. stop ≡ Refused (light_refusal fault) };

    fn from(fault: LightFault) -> Self {
        match fault {
            LightFault::Malformed { line, cause } => {
                Stop::Refused(Refusal::Malformed { line, cause })
            }
            LightFault::Limit { line, found } => {
                let found = i64::from(found);
                let kind = Kind::Lights;
                Stop::Refused(Refusal::Limit { line, kind, found })
            }
        }
    }
}

/// Draws a scene on the array and makes its shadow passes, and writes the image of its lights.
fn shade_scene<O: Sink, A: Operating>(
    alloc: Global,
    scene: &Scene,
    lights: &ArrayVec<SolidSet, 8>,
    out: &mut O,
    array: &mut A,
) -> Result<(), Stop>
    requires bits { A.BITS ≤ 256 }
    requires known { All (IsBelow (length scene.now.solids)) lights.now.items }
    ensures serves { DoesWork result (lit A.BITS scene.now lights.now.items)
        (O.state out.old) (O.state out.new) }
    ensures array { ShadesBy (status_in result) A.BITS scene.now lights.now.items (A.view array.old)
        (A.view array.new) }
{
    let mut job = open_lit(alloc, scene, lights.len(), array)?;
    Ok(deliver_masks(&mut job, scene, lights, array, out)?)
}

/// Opens the array for a scene and so many lights.
fn open_lit<'s, A: Array>(
    alloc: Global,
    scene: &'s Scene,
    lights: usize,
    array: &mut A,
) -> Result<Job<'s>, SceneStop>
    requires bits { A.BITS ≤ 256 }
    requires few { lights ≤ 8 }
    ensures job { IfOk result (λ job. (job.scene ≡ scene.now) × (job.place.clock ≡ 0)) }
    ensures at { OnOk result (IsAt A.BITS scene.now 0 (A.view array.new).device) }
    ensures once { OnOk result (IsRunOnce (A.view array.new)) }
    ensures need { OnOk result (need_with (layout_of scene.now) lights ≤ A.BITS) }
    ensures fits { OnOk result ((o : Outcome) → lit_drawable A.BITS scene.now lights o ≡ o) }
    ensures err { IfErr result (λ stop. StopsAt (lit_drawable A.BITS scene.now lights) stop) }
    ensures array { IfErr result (λ stop. Draws (status_of (stopped stop)) A.BITS scene.now
        (A.view array.old) (A.view array.new)) }
{
    let need = bits_needed(scene, lights, A::BITS as u32);
    if need as usize > A::BITS {
        return Err(past_limit(LimitKind::PixelMemory, i64::from(need)));
    }
    open_job(alloc, scene, array)
}

/// How many bits of a pixel a scene and so many lights need, where a pixel has so many.
#[tactic(auto, using(px_sched::proofs::LayoutLaws::scene_layout))]
fn bits_needed(scene: &Scene, lights: usize, bits: u32) -> u32
    requires few { lights ≤ 8 }
    ensures { result ≡ need_with (layout_of scene.now) lights }
{
    laws_of_scenes(scene);
    match Layout::of(scene, bits) {
        Ok(layout) => need(&layout, lights),
        Err(NeedBits { need }) => need + lights as u32,
    }
}

/// Makes the clocks that are left of a job and the shadow passes, writes the image of the lights
/// that the array then stores, and finishes.
fn deliver_masks<A: Operating, O: Sink>(
    job: &mut Job<'_>,
    scene: &Scene,
    lights: &ArrayVec<SolidSet, 8>,
    array: &mut A,
    out: &mut O,
) -> Result<(), Failed>
    requires scene { scene.now ≡ job.old.scene }
    requires at { IsAt A.BITS scene.now job.old.place.clock (A.view array.old).device }
    requires need { need_with (layout_of scene.now) (length lights.now.items) ≤ A.BITS }
    requires known { All (IsBelow (length scene.now.solids)) lights.now.items }
    ensures ok { OnOk result (Appends (O.state out.old).written (O.state out.new).written
        (mask_image scene.now lights.now.items)) }
    ensures end { OnOk result (Tells (O.state out.new).finished true) }
    ensures err { OnErr result (TakesFront (O.state out.old) (O.state out.new) (mask_image scene.now lights.now.items)) }
    ensures cause { HasCause (O.state out.old).faults (O.state out.new).faults result }
    ensures shaded { IsShaded A.BITS scene.now lights.now.items (A.view array.new).device }
    ensures once { IsRunOnce (A.view array.old) → IsRunOnce (A.view array.new) }
{
    let _now = job.now();
    let layout = draw_job(job, scene, array);
    shade(scene, &layout, lights, array);
    write_lights(array, &layout, scene, lights, out)?;
    out.finish()
}

/// Writes the image of the lights that an array stores.
fn write_lights<A: Array, O: Sink>(
    array: &A,
    layout: &Layout,
    scene: &Scene,
    lights: &ArrayVec<SolidSet, 8>,
    out: &mut O,
) -> Result<(), Failed>
    requires need { need_with layout.now (length lights.now.items) ≤ A.BITS }
    requires lights { StoresTheLights scene.now layout.now lights.now.items
        (A.view array.now).device.state }
    requires grid { CoversThePicture scene.now (A.view array.now).device }
    ensures ok { OnOk result (TakesAll (O.state out.old) (O.state out.new) (mask_image scene.now lights.now.items)) }
    ensures err { OnErr result (TakesFront (O.state out.old) (O.state out.new) (mask_image scene.now lights.now.items)) }
    ensures cause { HasCause (O.state out.old).faults (O.state out.new).faults result }
{
    laws_of_scenes(scene);
    write_masks(array, layout, scene, lights.len(), out)
}
