//! A scene's broadcasts, made on an array.
ghost use Rattle.std.specs.Prelude.{◌≡◌, [], ◌∷◌, ◌+◌, ◌-◌, ◌^◌, ◌<◌, ◌≤◌, ℕ, Err, IfErr, IfOk, OnOk, Some, length, min, slice_get, None};
ghost use Rattle.px_num.specs.Want.{want};
ghost use Rattle.px_array.specs.Arrays.{pixel_of};
ghost use Rattle.px_array.specs.Slots.{HasWorked, IsRunOnce, no_slots};
ghost use Rattle.px_prune.specs.Kept.{crowd_of, plan_of};
ghost use Rattle.px_sched.specs.Layouts.{layout_of, need_of};
ghost use Rattle.px_sched.specs.Passes.{passes};
ghost use Rattle.px_sched.specs.PassesLaw.{ShowsThePicture};
ghost use Rattle.px_control.specs.Program.{
  CanRun,
  IsAt,
  ends_after,
  micro_at_clock,
  operation_at,
  program,
  total,
};
ghost use Rattle.px_control.specs.Standing.{JobView, LeavesOnRefusal, StandsFor};
ghost use Rattle.px_control.specs.declared.fault.JobFault.{JobFault};

use crate::drawing::memory_bits;
use crate::fault::JobFault;
use crate::law::law_of_pictures;
use crate::place::Place;
use crate::program::Program;
use px_array::{Array, Micro};
use px_asm::Operating;
use px_model::Scene;
use px_sched::Layout;
use std::alloc::Global;
use std::marker::Model;

/// A scene's broadcasts, and where they stand (docs/PASSES.md, "Clocks").
#[derive(Drop)]
pub struct Job<'s> {
    program: Program<'s>,
    place: Place,
    operations: u64,
    clocks: u64,
}

impl<'s> Model for Job<'s> {
    ghost use Rattle.px_control.specs.Standing.{JobView};
    ghost use Rattle.px_control.specs.Jobs.{IsJob};
    ghost use Rattle.px_expr.specs.TreeCode.{tree_code};
    ghost use Rattle.std.specs.Coded.{codes};

    ghost Value = { JobView };

    ghost coded = { Prim.hlevel (codes, tree_code) };

    ghost view = { λ j. record { scene = j.program; place = j.place } };

    ghost invariant = { λ j. IsJob j.program j.place j.operations j.clocks };
}

impl<'s> Job<'s> {
    /// Opens an array for a scene.
    ///
    /// The array is opened last: every refusal leaves it as it was, its slots and its work too, but
    /// where memory for the array itself runs out: then none is open. A new array has no slot
    /// saved, and its work is 0.
    pub fn open<A: Array>(
        alloc: Global,
        scene: &'s Scene,
        array: &mut A,
    ) -> Result<Job<'s>, JobFault>
        ensures job { IfOk result (λ job. (job.scene ≡ scene.now) × (job.place.clock ≡ 0)) }
        ensures at { OnOk result (IsAt A.BITS scene.now 0 (A.view array.new).device) }
        ensures slots { OnOk result ((A.view array.new).slots ≡ no_slots) }
        ensures work { OnOk result ((A.view array.new).work ≡ 0) }
        ensures once { OnOk result (IsRunOnce (A.view array.new)) }
        ensures short { A.BITS < need_of (layout_of scene.now) →
            result ≡ Err (JobFault.PixelMemory (need_of (layout_of scene.now))) }
        ensures need { (need : ℕ) → result ≡ Err (JobFault.PixelMemory need) →
            (A.BITS < need_of (layout_of scene.now)) × (need ≡ need_of (layout_of scene.now)) }
        ensures lawful { IfOk result (λ job. crowd_of scene.now ≡ None) }
        ensures many { (count : ℕ) → result ≡ Err (JobFault.Products count) →
            (need_of (layout_of scene.now) ≤ A.BITS) × (crowd_of scene.now ≡ Some count) }
        ensures memory { need_of (layout_of scene.now) ≤ A.BITS → crowd_of scene.now ≡ None →
            IfErr result (λ fault. fault ≡ JobFault.Memory want) }
        ensures array { IfErr result (λ fault.
            LeavesOnRefusal fault (A.view array.old) (A.view array.new)) }
    {
        let program = Program::new(alloc, scene, memory_bits::<A>(scene))?;
        program.laws();
        let (columns, rows) = program.grid();
        match array.open(columns, rows) {
            Ok(()) => {}
            Err(lack) => return Err(JobFault::Memory(lack)),
        }
        let (operations, clocks) = program.cost();
        let place = program.first();
        Ok(Job {
            program,
            place,
            operations,
            clocks,
        })
    }

    /// Makes so many clocks, or as many as are left, and answers how many.
    pub fn advance<A: Operating>(&mut self, array: &mut A, clocks: u64) -> u64
        requires at { IsAt A.BITS self.old.scene self.old.place.clock (A.view array.old).device }
        ensures made { result ≡ min clocks (total self.old.scene - self.old.place.clock) }
        ensures scene { self.new.scene ≡ self.old.scene }
        ensures clock { self.new.place.clock ≡ self.old.place.clock + result }
        ensures at { IsAt A.BITS self.new.scene self.new.place.clock (A.view array.new).device }
        ensures worked { HasWorked result (A.view array.old) (A.view array.new) }
    {
        let made = clocks.min(self.left());
        self.place = self.program.run_clocks(&self.place, array, made);
        made
    }

    /// Makes the clocks that are left: the keys that the array then stores are the picture.
    #[tactic(auto, using(crate::proofs::PlaceLemmas::clocks_at, px_array::proofs::WorkLaws::still_once))]
    pub fn finish<A: Operating>(&mut self, array: &mut A)
        requires at { IsAt A.BITS self.old.scene self.old.place.clock (A.view array.old).device }
        ensures scene { self.new.scene ≡ self.old.scene }
        ensures clock { self.new.place.clock ≡ total self.new.scene }
        ensures at { IsAt A.BITS self.new.scene (total self.new.scene) (A.view array.new).device }
        ensures picture { ShowsThePicture self.new.scene (layout_of self.new.scene)
            (λ x y. (pixel_of (A.view array.new).device.state x y).memory) }
        ensures worked { HasWorked (total self.new.scene - self.old.place.clock)
            (A.view array.old) (A.view array.new) }
        ensures once { IsRunOnce (A.view array.old) → IsRunOnce (A.view array.new) }
    {
        let left = self.left();
        self.advance(array, left);
        law_of_pictures();
    }

    /// How many clocks are left.
    #[tactic(auto, using(crate::proofs::PlaceLemmas::clock_within))]
    fn left(&self) -> u64
        ensures left { result ≡ total self.now.scene - self.now.place.clock }
        ensures within { self.now.place.clock ≤ total self.now.scene }
        ensures bound { total self.now.scene < 2 ^ 43 }
        ensures can_run { CanRun self.now.scene }
    {
        self.program.laws();
        self.clocks - self.place.clock
    }

    /// How many clocks were made.
    #[tactic(auto, using(crate::proofs::PlaceLemmas::clock_within))]
    pub fn now(&self) -> u64
        ensures clock { result ≡ self.now.place.clock }
        ensures within { result ≤ total self.now.scene }
        ensures bound { total self.now.scene < 2 ^ 43 }
        ensures can_run { CanRun self.now.scene }
    {
        self.program.laws();
        self.place.clock
    }

    /// How many clocks the program of the scene has, fewer than `2^43`.
    pub fn total_clocks(&self) -> u64
        ensures value { result ≡ total self.now.scene }
        ensures bound { result < 2 ^ 43 }
        ensures last { ends_after self.now.scene result ≡ [] }
    {
        self.program.laws();
        self.clocks
    }

    /// How many operations the passes of the scene have.
    pub fn total_macros(&self) -> u64
        ensures { result ≡ length (passes self.now.scene) }
    {
        self.operations
    }

    /// How many products the passes of the scene draw.
    pub fn total_products(&self) -> usize
        ensures { result ≡ length (plan_of self.now.scene) }
    {
        self.program.total_products()
    }

    /// The layout of the scene's keys in a pixel's memory.
    pub fn layout(&self) -> Layout
        ensures { result ≡ layout_of self.now.scene }
    {
        self.program.layout()
    }

    /// The operation of the next broadcast, counted from 0.
    pub fn macro_now(&self) -> u64
        requires { self.now.place.clock < total self.now.scene }
        ensures { result ≡ operation_at self.now.scene self.now.place.clock }
    {
        self.place.operation
    }

    /// The micro of the next broadcast in its operation, counted from 0.
    pub fn micro_now(&self) -> u32
        requires { self.now.place.clock < total self.now.scene }
        ensures { result ≡ micro_at_clock self.now.scene self.now.place.clock }
    {
        self.place.micro
    }

    /// The clock at which the operation of the next broadcast ends.
    pub fn next_end(&self) -> u64
        requires { self.now.place.clock < total self.now.scene }
        ensures next { ends_after self.now.scene self.now.place.clock
            ≡ result ∷ ends_after self.now.scene result }
        ensures later { self.now.place.clock < result }
        ensures within { result ≤ total self.now.scene }
    {
        self.program.next_end(&self.place)
    }

    /// The next broadcast.
    pub fn next_micro(&self) -> Micro
        requires { self.now.place.clock < total self.now.scene }
        ensures { slice_get (program self.now.scene) self.now.place.clock ≡ Some result }
    {
        self.program.next_micro(&self.place)
    }

    /// Where the job stands.
    pub fn place(&self) -> Place
        ensures value { result ≡ self.now.place }
        ensures stands { StandsFor self.now.scene result }
    {
        self.place
    }

    /// Stands at a place of the scene's program from now on.
    pub fn return_to(&mut self, place: Place)
        requires { StandsFor self.old.scene place }
        ensures { self.new ≡ record { scene = self.old.scene; place = place } }
    {
        self.place = place;
    }
}
