//! The steps that commands share: each gives what it finds, or its own fault.
ghost use Rattle.std.specs.Prelude.{◌≡◌, ◌≤◌, IfErr, IfOk, OnErr, OnOk, None, drop, length, true};
ghost use Rattle.std.specs.Io.KnownBytes.{Appends, Consumes};
ghost use Rattle.px_io.specs.Counts.{HasCause};
ghost use Rattle.px_io.specs.Reports.{ConsumesAtMost, IsFrontOf, TakesFront, Tells};
ghost use Rattle.px_array.specs.Slots.{IsRunOnce};
ghost use Rattle.px_scene.specs.Reading.{scene_of};
ghost use Rattle.px_scene.specs.Text.{worded};
ghost use Rattle.px_prune.specs.Kept.{crowd_of, plan_of};
ghost use Rattle.px_sched.specs.Layouts.{layout_of};
ghost use Rattle.px_control.specs.Program.{IsAt};
ghost use Rattle.px_commands.specs.Arrays.{Draws};
ghost use Rattle.px_commands.specs.Outcomes.{Outcome, drawable, unless_refused, within_products};
ghost use Rattle.px_commands.specs.Refusals.{text_refusal};
ghost use Rattle.px_commands.specs.Results.{status_of};
ghost use Rattle.px_commands.specs.Inputs.{IsRestBehind};
ghost use Rattle.px_commands.specs.Stops.{IsReadCause, StopsAt, stopped};

use crate::refusal::READ_LIMIT;
use crate::stop::{SceneStop, job_stop, products_stop};
use px_array::Array;
use px_control::Job;
use px_io::{Failed, ReadError, Sink, Source, read_whole, write_whole};
use px_normal::MAX_PRODUCTS;
use px_prune::{Plan, plan_of};
use px_scene::{Scene, read_scene};
use px_sched::Layout;
use std::alloc::Global;

/// The input to its end, or to one byte past the limit of a text.
pub fn read_text<S: Source>(alloc: Global, input: &mut S) -> Result<Vec<u8>, ReadError>
    ensures front { IfOk result (λ v. IsFrontOf (S.rest input.old) READ_LIMIT v.items) }
    ensures taken { IfOk result (λ v. Consumes (S.rest input.old) (S.rest input.new) v.items) }
    ensures rest { OnOk result (IsRestBehind (S.rest input.old) (S.rest input.new)) }
    ensures most { ConsumesAtMost (S.rest input.old) (S.rest input.new) READ_LIMIT }
    ensures calm { OnOk result (S.faults input.new ≡ S.faults input.old) }
    ensures err { IfErr result (λ fault.
        IsReadCause fault (S.faults input.old) (S.faults input.new)) }
{
    read_whole(alloc, input, READ_LIMIT)
}

/// The scene that a text writes.
pub fn scene_in(alloc: Global, text: &[u8]) -> Result<Scene, SceneStop>
    ensures ok { IfOk result (λ scene.
        (text_refusal text.now ≡ None) × (scene ≡ scene_of (worded text.now))) }
    ensures err { IfErr result (λ stop. StopsAt (unless_refused (text_refusal text.now)) stop) }
{
    read_scene(alloc, text).map_err(SceneStop::from)
}

/// Opens the array for a scene.
pub fn open_job<'s, A: Array>(
    alloc: Global,
    scene: &'s Scene,
    array: &mut A,
) -> Result<Job<'s>, SceneStop>
    ensures job { IfOk result (λ job. (job.scene ≡ scene.now) × (job.place.clock ≡ 0)) }
    ensures at { OnOk result (IsAt A.BITS scene.now 0 (A.view array.new).device) }
    ensures work { OnOk result ((A.view array.new).work ≡ 0) }
    ensures once { OnOk result (IsRunOnce (A.view array.new)) }
    ensures fits { OnOk result ((o : Outcome) → drawable A.BITS scene.now o ≡ o) }
    ensures err { IfErr result (λ stop. StopsAt (drawable A.BITS scene.now) stop) }
    ensures array { IfErr result (λ stop. Draws (status_of (stopped stop)) A.BITS scene.now
        (A.view array.old) (A.view array.new)) }
{
    Job::open(alloc, scene, array).map_err(job_stop)
}

/// Where the passes of a scene keep their numbers, and the products that they draw, where pixels of
/// so many bits can hold them.
pub fn drawing_of(alloc: Global, scene: &Scene, bits: u32) -> Result<(Layout, Plan), SceneStop>
    ensures layout { IfOk result (λ found. found.0 ≡ layout_of scene.now) }
    ensures kept { IfOk result (λ found. found.1.products.items ≡ plan_of scene.now) }
    ensures few { OnOk result (length (plan_of scene.now) ≤ MAX_PRODUCTS) }
    ensures fits { OnOk result ((o : Outcome) → drawable bits scene.now o ≡ o) }
    ensures err { IfErr result (λ stop. StopsAt (drawable bits scene.now) stop) }
{
    px_control::drawing_of(alloc, scene, bits).map_err(job_stop)
}

/// The products that can show anything, where no wanted list is past the limit.
pub fn kept_of(alloc: Global, scene: &Scene) -> Result<Plan, SceneStop>
    ensures kept { IfOk result (λ plan. plan.products.items ≡ plan_of scene.now) }
    ensures few { IfOk result (λ plan. length plan.products.items ≤ MAX_PRODUCTS) }
    ensures fits { OnOk result (crowd_of scene.now ≡ None) }
    ensures err { IfErr result (λ stop. StopsAt (within_products scene.now) stop) }
{
    plan_of(alloc, scene).map_err(products_stop)
}

pub fn write_finished<O: Sink>(bytes: &[u8], out: &mut O) -> Result<(), Failed>
    ensures ok { OnOk result (Appends (O.state out.old).written (O.state out.new).written bytes.now) }
    ensures end { OnOk result (Tells (O.state out.new).finished true) }
    ensures err { OnErr result (TakesFront (O.state out.old) (O.state out.new) bytes.now) }
    ensures cause { HasCause (O.state out.old).faults (O.state out.new).faults result }
{
    write_whole(out, bytes)?;
    out.finish()
}

pub fn behind(bytes: &[u8], count: usize) -> &[u8]
    requires { count ≤ length bytes.now }
    ensures { result.now ≡ drop count bytes.now }
{
    &bytes[count..]
}
