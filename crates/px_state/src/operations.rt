//! The operations of a text from one on, as data.
ghost use Rattle.std.specs.Prelude.{◌≡◌, ℕ, ◌+◌, ◌<◌, ◌≤◌, ◌^◌, get_or, Some, length, slice_get, take};
ghost use Rattle.px_control.specs.ProgramLaws.{IsGoodProgram};
ghost use Rattle.px_prune.specs.Kept.{plan_of};
ghost use Rattle.px_sched.specs.Layouts.{layout_of};
ghost use Rattle.px_sched.specs.Passes.{passes, steps};
ghost use Rattle.px_sched.specs.StepCursors.{literals_in};
ghost use Rattle.px_sched.specs.Steps.{IsStep};
ghost use Rattle.px_listing.specs.PassesText.{passes_listing};
ghost use Rattle.px_state.specs.Courses.{start_in_listing};
ghost use Rattle.px_state.specs.Inputs.{IsOperationIn, listing_in};
ghost use Rattle.px_state.specs.Operations.{
  HasOperations,
  IsOfListing,
  IsPassed,
  no_operation,
  operations_before,
  purpose_of,
};
ghost use Rattle.px_state.specs.Putting.{IsPutTo};

use crate::broadcast::Broadcast;
use crate::operation::{Operation, no_operation, purpose_of, told};
use px_asm::cycles;
use px_listing::Listing;
use px_model::Scene;
use px_prune::Plan;
use px_sched::{Layout, Step, StepCursor};

/// A step of a scene's passes, what it is for, its first operation and the clock at which that begins.
#[derive(Clone, Copy)]
struct Begun<'a> {
    step: Step,
    purpose: &'a Operation,
    operation: u64,
    clock: u64,
}

/// Writes the operations of what is broadcast from one on, where there are as many.
pub(crate) fn put_course(course: &Broadcast<'_>, first: u64, list: &mut [Operation])
    requires within { first + length list.old ≤ length (listing_in course.now).macros }
    requires end { first + length list.old < 2 ^ 64 }
    ensures operations { HasOperations (IsOperationIn course.now) first list.new }
    ensures length { length list.new ≡ length list.old }
{
    match course {
        Broadcast::Passes(program) => {
            program.laws();
            put_passes(
                program.scene(),
                program.plan(),
                &program.layout(),
                first,
                list,
            );
        }
        Broadcast::Listed(listing) => put_listing(listing, first, list),
    }
}

/// Writes the operations of a listing from one on, where there are as many.
fn put_listing(listing: &Listing, first: u64, list: &mut [Operation])
    requires within { first + length list.old ≤ length listing.now.macros }
    requires end { first + length list.old < 2 ^ 64 }
    ensures operations { HasOperations (IsOfListing listing.now) first list.new }
    ensures length { length list.new ≡ length list.old }
{
    let end = first as usize + list.len();
    let mut clock = 0;
    for k in 0..end {
        let m = &listing.macros[k];
        put(&told(m, clock, &no_operation()), k as u64, first, list);
        clock += u64::from(cycles(m, listing.nx, listing.ny));
    }
}

/// Writes the operations of a scene's passes from one on, where there are as many.
#[tactic(auto, using(crate::proofs::OperationLemmas::before_all, crate::proofs::OperationLemmas::no_more))]
fn put_passes(scene: &Scene, plan: &Plan, layout: &Layout, first: u64, list: &mut [Operation])
    requires products { plan.now.products.items ≡ plan_of scene.now }
    requires layout { layout.now ≡ layout_of scene.now }
    requires good { IsGoodProgram scene.now }
    requires within { first + length list.old ≤ length (passes scene.now) }
    ensures operations { HasOperations (IsPassed scene.now) first list.new }
    ensures length { length list.new ≡ length list.old }
{
    let end = first + list.len() as u64;
    let mut cursor = StepCursor::start();
    let mut begin = (0, 0);
    while let Some(step) = cursor.next_step(scene, plan) {
        let purpose = purpose_of(scene, step, cursor.given - 1, cursor.literals);
        let begun = Begun {
            step,
            purpose: &purpose,
            operation: begin.0,
            clock: begin.1,
        };
        begin = put_step(scene, layout, &begun, first, list);
        if end <= begin.0 {
            return;
        }
    }
}

/// Writes those operations of a step which lie in a list of them from one on, and answers where those
/// after the step begin, among all operations and at which clock.
#[tactic(auto, using(px_control::proofs::StepLemmas::start_within, crate::proofs::SceneLemmas::same_total))]
fn put_step(
    scene: &Scene,
    layout: &Layout,
    begun: &Begun<'_>,
    first: u64,
    list: &mut [Operation],
) -> (u64, u64)
    requires layout { layout.now ≡ layout_of scene.now }
    requires good { IsGoodProgram scene.now }
    requires faces { IsStep scene.now begun.now.step }
    requires here { slice_get (steps scene.now) begun.now.purpose.now.pass ≡ Some begun.now.step }
    requires purpose { begun.now.purpose.now ≡ purpose_of scene.now begun.now.step begun.now.purpose.now.pass
        (literals_in (take (begun.now.purpose.now.pass + 1) (steps scene.now))) }
    requires operation { begun.now.operation ≡ operations_before scene.now begun.now.purpose.now.pass }
    requires clock { begun.now.clock ≡ start_in_listing (passes_listing scene.now) begun.now.operation }
    requires put { IsPutTo (IsPassed scene.now) first begun.now.operation list.old }
    ensures operation { result.0 ≡ operations_before scene.now (begun.now.purpose.now.pass + 1) }
    ensures clock { result.1 ≡ start_in_listing (passes_listing scene.now) result.0 }
    ensures put { IsPutTo (IsPassed scene.now) first result.0 list.new }
    ensures length { length list.new ≡ length list.old }
{
    let (nx, ny) = scene.grid();
    let count = begun.step.count(scene);
    let mut clock = begun.clock;
    for at in 0..count {
        let m = begun.step.operation(scene, layout, at);
        put(
            &told(&m, clock, begun.purpose),
            begun.operation + at as u64,
            first,
            list,
        );
        clock += u64::from(cycles(&m, nx, ny));
    }
    (begun.operation + count as u64, clock)
}

/// Puts operation `k` where it belongs in a list of those from one on.
fn put(operation: &Operation, k: u64, first: u64, list: &mut [Operation])
    ensures put { (j : ℕ) → j < length list.old → first + j ≡ k
        → get_or list.new j no_operation ≡ operation.now }
    ensures kept { (j : ℕ) → (first + j ≡ k → ⊥)
        → get_or list.new j no_operation ≡ get_or list.old j no_operation }
    ensures length { length list.new ≡ length list.old }
{
    if first <= k && k - first < list.len() as u64 {
        list[(k - first) as usize] = *operation;
    }
}
