//! What is counted of operations.
ghost use Rattle.std.specs.Prelude.{◌≡◌, ◌≤◌};
ghost use Rattle.px_macro.specs.Macros.{IsLawful};
ghost use Rattle.px_sched.specs.Layouts.{layout_of};
ghost use Rattle.px_sched.specs.Steps.{IsStep};
ghost use Rattle.px_control.specs.Costs.{bare_worth, but_edges, worth};
ghost use Rattle.px_control.specs.Program.{cycles_in};

use px_asm::cycles;
use px_macro::Macro;
use px_model::{Scene, laws_of_scenes};
use px_sched::{Layout, Step};

/// What is counted of operations.
#[derive(Clone, Copy)]
pub(crate) enum Measure {
    /// How many they are.
    Operations,
    /// The clocks that they take.
    Clocks,
}

impl Measure {
    /// One operation, on the grid of a scene.
    pub(crate) fn of(self, scene: &Scene, operation: &Macro) -> u64
        requires lawful { IsLawful operation.now 256 }
        ensures worth { result ≡ worth scene.now self operation.now }
        ensures few { result ≤ 82 }
    {
        match self {
            Measure::Operations => 1,
            Measure::Clocks => clocks(scene, operation),
        }
    }

    /// The operations of a step, but for those of its edges.
    #[tactic(auto, using(crate::proofs::CostLemmas::operation_lawful))]
    pub(crate) fn of_step(self, scene: &Scene, layout: &Layout, step: Step) -> u64
        requires layout { layout.now ≡ layout_of scene.now }
        requires step { IsStep scene.now step }
        ensures worth { result ≡ bare_worth scene.now self step }
        ensures few { result ≤ 8364 }
    {
        laws_of_scenes(scene);
        let count = step.count(scene);
        let mut sum = 0;
        for at in 0..count {
            let operation = step.operation(scene, layout, at);
            sum += self.but_edges(scene, &operation);
        }
        sum
    }

    /// One operation, where those of the edges of a face count nothing.
    fn but_edges(self, scene: &Scene, operation: &Macro) -> u64
        requires lawful { IsLawful operation.now 256 }
        ensures worth { result ≡ but_edges scene.now self operation.now }
        ensures few { result ≤ 82 }
    {
        match operation {
            Macro::KeepSign(_) => 0,
            _ => self.of(scene, operation),
        }
    }
}

/// The clocks of an operation on the grid of a scene.
#[tactic(auto, using(crate::proofs::PictureLemmas::scene_grid))]
fn clocks(scene: &Scene, operation: &Macro) -> u64
    requires lawful { IsLawful operation.now 256 }
    ensures clocks { result ≡ cycles_in scene.now operation.now }
    ensures few { result ≤ 82 }
{
    laws_of_scenes(scene);
    let (columns, rows) = scene.grid();
    u64::from(cycles(operation, columns, rows))
}
