//! `pxplanes_check`: what a text asks, before anything is drawn.
ghost use Rattle.std.specs.Prelude.{◌≡◌, ◌⊎◌, IfErr, IfOk, None, Some};
ghost use Rattle.px_num.specs.Want.{want};
ghost use Rattle.px_show.specs.declared.fault.TextFault.TheVariants as TextFault;
ghost use Rattle.px_c.specs.Answers.{TellsAnswer, check_answer, cost_found, undrawn};
ghost use Rattle.px_c.specs.declared.status.TheConstants.{OK};

use crate::answer::{refused, scene_fault};
use crate::found::{Found, cost_found};
use crate::status::{BITS, OK};
use px_control::{JobFault, cost};
use px_prune::plan_of;
use px_scene::{Scene, SceneFault, read_scene};
use px_sched::{Layout, NeedBits};
use std::alloc::Global;

/// Judges a text: its picture's size, how many faces its scene has and what its passes cost, or why it
/// has no picture. Nothing is drawn.
#[tactic(auto, using(crate::proofs::AnswerLemmas::refuses, crate::proofs::AnswerLemmas::accepts))]
#[unsafe(no_mangle)]
pub extern "C" fn pxplanes_check(alloc: Global, text: &[u8], found: &mut Found) -> u32
    ensures answer { TellsAnswer (check_answer text.now) result found.new }
{
    match read_scene(alloc, text) {
        Ok(scene) => match found_in(alloc, &scene) {
            Ok(cost) => {
                *found = cost;
                OK
            }
            Err(fault) => refused(fault).report_to(found),
        },
        Err(fault) => refused(fault).report_to(found),
    }
}

/// What is found of a scene that can be drawn, with what its passes cost.
pub(crate) fn found_in(alloc: Global, scene: &Scene) -> Result<Found, SceneFault>
    ensures ok { IfOk result (λ found. (undrawn scene.now ≡ None) × (found ≡ cost_found scene.now)) }
    ensures err { IfErr result (λ fault. (fault ≡ TextFault.Memory want) ⊎ (undrawn scene.now ≡ Some fault)) }
{
    let layout = match Layout::of(scene, BITS as u32) {
        Ok(layout) => layout,
        Err(NeedBits { need }) => {
            return Err(scene_fault(JobFault::PixelMemory { need }));
        }
    };
    let plan = match plan_of(alloc, scene) {
        Ok(plan) => plan,
        Err(fault) => return Err(scene_fault(JobFault::from(fault))),
    };
    let (operations, clocks) = cost(scene, &plan, &layout);
    Ok(cost_found(scene, operations, clocks))
}
