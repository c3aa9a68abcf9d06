//! A place in the passes of a scene.
ghost use Rattle.std.specs.Prelude.{◌≡◌, ◌+◌, ◌^◌, ◌<◌, IfNone, OnSome, length, slice_get};
ghost use Rattle.px_prune.specs.Kept.{plan_of};
ghost use Rattle.px_model.specs.Scenes.{SceneView};
ghost use Rattle.px_sched.specs.Cursors.{Stands};
ghost use Rattle.px_sched.specs.Layouts.{layout_of};
ghost use Rattle.px_sched.specs.Passes.{passes};

use crate::group::Stage;
use crate::layout::Layout;
use px_macro::Macro;
use px_model::{Scene, laws_of_scenes};
use px_prune::Plan;

/// A place in the passes of a scene (docs/PASSES.md). It takes no memory, and finds the next
/// operation without those before it.
#[derive(Clone, Copy)]
pub struct Cursor {
    /// How many operations it has given.
    pub given: u64,
    stage: Stage,
    /// The place among the operations of the stage.
    at: usize,
}

impl Cursor {
    /// Before the first operation.
    #[tactic(auto, using(crate::proofs::LawfulLaws::passes_are))]
    pub fn start() -> Cursor
        ensures given { result.given ≡ 0 }
        ensures stands { (scene : SceneView) →
            length (passes scene) < 2 ^ 64 → Stands scene result }
    {
        Cursor {
            given: 0,
            stage: Stage::Start,
            at: 0,
        }
    }

    /// Gives the next operation of the passes of a scene, by its plan and its layout.
    ///
    /// The plan is the one that `plan_of` gives for the scene, and the layout that of `Layout::of`.
    #[tactic(auto, using(crate::proofs::DrawnLaws::kept_drawn, crate::proofs::StandingLemmas::none_left))]
    pub fn next_macro(&mut self, scene: &Scene, plan: &Plan, layout: &Layout) -> Option<Macro>
        requires products { plan.now.products.items ≡ plan_of scene.now }
        requires layout { layout.now ≡ layout_of scene.now }
        requires stands { Stands scene.now self.old }
        ensures operation { result ≡ slice_get (passes scene.now) self.old.given }
        ensures some { OnSome result (self.new.given ≡ self.old.given + 1) }
        ensures end { IfNone result (self.old.given ≡ length (passes scene.now)) }
        ensures stays { IfNone result (self.new ≡ self.old) }
        ensures stands { Stands scene.now self.new }
    {
        laws_of_scenes(scene);
        match self.stage.step() {
            Some(step) => {
                let operation = step.operation(scene, layout, self.at);
                let count = step.count(scene);
                self.given += 1;
                self.at += 1;
                if self.at == count {
                    self.stage = self.stage.next(scene, plan.products.as_slice());
                    self.at = 0;
                }
                Some(operation)
            }
            None => None,
        }
    }
}
