//! A place in the steps of a scene.
ghost use Rattle.std.specs.Prelude.{◌≡◌, ◌+◌, ◌^◌, ◌<◌, IfNone, IfSome, OnSome, length, slice_get, take};
ghost use Rattle.px_prune.specs.Kept.{plan_of};
ghost use Rattle.px_model.specs.Scenes.{SceneView};
ghost use Rattle.px_sched.specs.Passes.{passes, steps};
ghost use Rattle.px_sched.specs.StepCursors.{HasFewOthers, StandsAtStep, literals_in};
ghost use Rattle.px_sched.specs.Steps.{IsStep};

use crate::group::Stage;
use crate::step::Step;
use px_model::{Scene, laws_of_scenes};
use px_prune::Plan;

/// A place in the steps of a scene (docs/PASSES.md, "Steps"). It takes no memory, and finds the next
/// step without those before it.
#[derive(Clone, Copy)]
pub struct StepCursor {
    /// How many steps it has given.
    pub given: u64,
    /// How many literals these have begun.
    pub literals: u64,
    stage: Stage,
}

impl StepCursor {
    /// Before the first step.
    #[tactic(auto, using(crate::proofs::StandingLemmas::first_stands))]
    pub fn start() -> StepCursor
        ensures given { result.given ≡ 0 }
        ensures stands { (scene : SceneView) →
            length (passes scene) < 2 ^ 64 → StandsAtStep scene result }
    {
        StepCursor {
            given: 0,
            literals: 0,
            stage: Stage::Start,
        }
    }

    /// Gives the next step of a scene, by its plan.
    ///
    /// The plan is the one that `plan_of` gives for the scene.
    #[tactic(auto, using(crate::proofs::DrawnLaws::kept_drawn, crate::proofs::StandingLemmas::few_literals, crate::proofs::StandingLemmas::literals_more, crate::proofs::StandingLemmas::none_found, crate::proofs::StandingLemmas::others_here, crate::proofs::StandingLemmas::stands_behind))]
    pub fn next_step(&mut self, scene: &Scene, plan: &Plan) -> Option<Step>
        requires products { plan.now.products.items ≡ plan_of scene.now }
        requires stands { StandsAtStep scene.now self.old }
        ensures step { result ≡ slice_get (steps scene.now) self.old.given }
        ensures faces { IfSome result (λ step. IsStep scene.now step) }
        ensures others { IfSome result HasFewOthers }
        ensures some { OnSome result (self.new.given ≡ self.old.given + 1) }
        ensures stays { IfNone result (self.new ≡ self.old) }
        ensures literals { self.new.literals
            ≡ literals_in (take self.new.given (steps scene.now)) }
        ensures stands { StandsAtStep scene.now self.new }
    {
        laws_of_scenes(scene);
        match self.stage.step() {
            Some(step) => {
                self.given += 1;
                self.literals += u64::from(step.opens_literal());
                self.stage = self.stage.next(scene, plan.products.as_slice());
                Some(step)
            }
            None => None,
        }
    }
}
