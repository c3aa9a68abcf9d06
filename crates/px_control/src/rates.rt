//! What the steps of a scene come to, by their kinds.
ghost use Rattle.std.specs.Prelude.{◌≡◌, ◌+◌, ◌*◌, ◌≤◌};
ghost use Rattle.px_face.specs.Edges.{edge_count};
ghost use Rattle.px_sched.specs.Layouts.{layout_of};
ghost use Rattle.px_control.specs.Costs.{AreLow, AreRates};

use crate::measure::Measure;
use px_face::edge_count;
use px_macro::Macro;
use px_model::{Scene, Solid, laws_of_scenes};
use px_num::Linear;
use px_sched::{Layout, Step};

/// What each kind of step comes to in a scene: a face's apart from the edges of its solid, each of which is the same.
#[derive(Clone, Copy)]
pub(crate) struct Rates {
    pub(crate) start: u64,
    pub(crate) opening: u64,
    pub(crate) candidate: u64,
    pub(crate) drop: u64,
    pub(crate) clear: u64,
    pub(crate) front: u64,
    pub(crate) confirm: u64,
    pub(crate) begin: u64,
    pub(crate) turn: u64,
    pub(crate) close: u64,
    pub(crate) merge: u64,
    pub(crate) edge: u64,
}

impl Rates {
    /// Of a scene, by the faces of its first solid.
    pub(crate) fn of(scene: &Scene, layout: &Layout, measure: Measure) -> Rates
        requires layout { layout.now ≡ layout_of scene.now }
        ensures rates { AreRates scene.now measure result }
        ensures low { AreLow result }
    {
        laws_of_scenes(scene);
        let start = measure.of_step(scene, layout, Step::Start);
        let opening = measure.of_step(scene, layout, Step::Open);
        let candidate = measure.of_step(scene, layout, Step::Candidate(0, 0));
        let drop = measure.of_step(scene, layout, Step::Drop(0, 0));
        let clear = measure.of_step(scene, layout, Step::Clear);
        let front = measure.of_step(scene, layout, Step::Front(0, 0));
        let confirm = measure.of_step(scene, layout, Step::Confirm);
        let begin = measure.of_step(scene, layout, Step::Begin(0));
        let turn = measure.of_step(scene, layout, Step::Turn(0, 0, 0));
        let close = measure.of_step(scene, layout, Step::Close(0, true));
        let merge = measure.of_step(scene, layout, Step::Merge);
        let edge = measure.of(scene, &Macro::KeepSign(Linear { a: 0, b: 0, c: 0 }));
        Rates {
            start,
            opening,
            candidate,
            drop,
            clear,
            front,
            confirm,
            begin,
            turn,
            close,
            merge,
            edge,
        }
    }

    /// What a face's step comes to in all.
    pub(crate) fn with_edges(&self, bare: u64, solid: &Solid) -> u64
        requires low { AreLow self.now }
        requires bare { bare ≤ 8364 }
        ensures all { result ≡ bare + edge_count solid.now * self.now.edge }
        ensures few { result ≤ 16318 }
    {
        bare + edge_count(solid) as u64 * self.edge
    }
}
