//! The program of a scene, given one operation at a time.
ghost use Rattle.std.specs.Prelude.{◌≡◌, ◌∷◌, ◌+◌, ◌-◌, ◌^◌, ◌<◌, ◌≤◌, ℕ, Err, IfErr, IfNone, IfOk, OnOk, OnSome, Some, None, length, slice_get};
ghost use Rattle.px_num.specs.Want.{want};
ghost use Rattle.px_sched.specs.Cursors.{Stands};
ghost use Rattle.px_asm.specs.Micros.{micro_at as micro_of};
ghost use Rattle.px_array.specs.Slots.{HasWorked};
ghost use Rattle.px_macro.specs.Macros.{IsLawful, IsLawfulInMore};
ghost use Rattle.px_prune.specs.Kept.{crowd_of, plan_of};
ghost use Rattle.px_array.specs.Acts.{HasPlace};
ghost use Rattle.px_model.specs.Scenes.{SceneView};
ghost use Rattle.px_sched.specs.Layouts.{layout_of, need_of};
ghost use Rattle.px_sched.specs.Passes.{passes};
ghost use Rattle.px_control.specs.Program.{CanRun, IsAt, columns_of, cycles_in, ends_after, program, rows_of, total};
ghost use Rattle.px_control.specs.ProgramLaws.{IsGoodProgram};
ghost use Rattle.px_control.specs.Standing.{StandsFor};
ghost use Rattle.px_control.specs.declared.fault.JobFault.{JobFault};

use crate::drawing::drawing_of;
use crate::fault::JobFault;
use crate::law::law_of_program;
use crate::place::Place;
use crate::total::cost;
use px_array::{Act, Array, Micro, TreeOp};
use px_asm::{cycles, make_micros, micro_at};
use px_macro::Macro;
use px_model::Scene;
use px_prune::Plan;
use px_sched::{Cursor, Layout};
use std::alloc::Global;
use std::marker::Model;

/// The program of a scene: what is broadcast, clock by clock.
#[derive(Drop)]
pub struct Program<'s> {
    scene: &'s Scene,
    plan: Plan,
    layout: Layout,
    columns: u32,
    rows: u32,
}

impl<'s> Model for Program<'s> {
    ghost use Rattle.px_model.specs.Scenes.{SceneView};
    ghost use Rattle.px_control.specs.Jobs.{IsProgram};
    ghost use Rattle.px_expr.specs.TreeCode.{tree_code};
    ghost use Rattle.std.specs.Coded.{codes};

    ghost Value = { SceneView };

    ghost coded = { Prim.hlevel (codes, tree_code) };

    ghost view = { λ p. p.scene.now };

    ghost invariant = { λ p. IsProgram p.scene.now p.plan.products.items p.layout p.columns p.rows };
}

impl<'s> Program<'s> {
    /// The program of a scene for pixels of so many memory bits.
    pub fn new(alloc: Global, scene: &'s Scene, bits: u32) -> Result<Program<'s>, JobFault>
        ensures ok { IfOk result (λ program. program ≡ scene.now) }
        ensures enough { OnOk result (need_of (layout_of scene.now) ≤ bits) }
        ensures short { bits < need_of (layout_of scene.now) →
            result ≡ Err (JobFault.PixelMemory (need_of (layout_of scene.now))) }
        ensures need { (need : ℕ) → result ≡ Err (JobFault.PixelMemory need) →
            (bits < need_of (layout_of scene.now)) × (need ≡ need_of (layout_of scene.now)) }
        ensures lawful { IfOk result (λ program. crowd_of scene.now ≡ None) }
        ensures many { (count : ℕ) → result ≡ Err (JobFault.Products count) →
            (need_of (layout_of scene.now) ≤ bits) × (crowd_of scene.now ≡ Some count) }
        ensures memory { need_of (layout_of scene.now) ≤ bits → crowd_of scene.now ≡ None →
            IfErr result (λ fault. fault ≡ JobFault.Memory want) }
    {
        let (layout, plan) = drawing_of(alloc, scene, bits)?;
        let (columns, rows) = scene.grid();
        Ok(Program {
            scene,
            plan,
            layout,
            columns,
            rows,
        })
    }

    /// What holds of it.
    pub fn laws(&self)
        ensures good { IsGoodProgram self.now }
        ensures can_run { CanRun self.now }
        ensures more { IsLawfulInMore }
    {
        law_of_program(self.scene);
    }

    /// The place before the first broadcast.
    pub fn first(&self) -> Place
        ensures stands { StandsFor self.now result }
        ensures clock { result.clock ≡ 0 }
    {
        self.laws();
        let mut cursor = self.start();
        let current = self.give(&mut cursor);
        Place {
            cursor,
            clock: 0,
            operation: 0,
            micro: 0,
            current,
        }
    }

    /// Before the first operation of the passes.
    pub fn start(&self) -> Cursor
        ensures given { result.given ≡ 0 }
        ensures stands { Stands self.now result }
    {
        self.laws();
        Cursor::start()
    }

    /// Goes past the micros of the operation that runs, up to one of them.
    #[tactic(auto, using(crate::proofs::PlaceLemmas::here_of))]
    pub(crate) fn go_on(&self, place: &mut Place, m: &Macro, cycles: u32, to: u32)
        requires stands { StandsFor self.now place.old }
        requires here { place.old.current ≡ Some m.now }
        requires cycles { cycles ≡ cycles_in self.now m.now }
        requires forth { place.old.micro ≤ to }
        requires within { to ≤ cycles }
        ensures stands { StandsFor self.now place.new }
        ensures clock { place.new.clock ≡ place.old.clock + (to - place.old.micro) }
        ensures micro { cycles ≤ to → place.new.micro ≡ 0 }
        ensures operation { cycles ≤ to → place.new.operation ≡ place.old.operation + 1 }
    {
        self.laws();
        place.clock += u64::from(to - place.micro);
        if to < cycles {
            place.micro = to;
        } else {
            place.operation += 1;
            place.micro = 0;
            place.current = self.give(&mut place.cursor);
        }
    }

    /// The next operation of the passes.
    #[inline(always)]
    pub fn give(&self, cursor: &mut Cursor) -> Option<Macro>
        requires { Stands self.now cursor.old }
        ensures operation { result ≡ slice_get (passes self.now) cursor.old.given }
        ensures some { OnSome result (cursor.new.given ≡ cursor.old.given + 1) }
        ensures end { IfNone result (cursor.old.given ≡ length (passes self.now)) }
        ensures stays { IfNone result (cursor.new ≡ cursor.old) }
        ensures stands { Stands self.now cursor.new }
    {
        cursor.next_macro(self.scene, &self.plan, &self.layout)
    }

    /// What is broadcast at a place, where an operation runs.
    pub fn micro(&self, place: &Place, m: &Macro) -> Micro
        requires stands { StandsFor self.now place.now }
        requires here { place.now.current ≡ Some m.now }
        ensures value { result
            ≡ micro_of m.now (columns_of self.now) (rows_of self.now) place.now.micro }
        ensures place { (bits : ℕ) → need_of (layout_of self.now) ≤ bits → HasPlace bits result.act }
    {
        self.laws();
        micro_at(m, self.columns, self.rows, place.micro)
    }

    /// Makes the broadcasts from a place up to a clock, one after another, and answers the place
    /// there.
    pub(crate) fn walk<A: Array>(&self, from: &Place, array: &mut A, end: u64) -> Place
        requires stands { StandsFor self.now from.now }
        requires order { from.now.clock ≤ end }
        requires within { end ≤ total self.now }
        requires at { IsAt A.BITS self.now from.now.clock (A.view array.old).device }
        ensures stands { StandsFor self.now result }
        ensures clock { result.clock ≡ end }
        ensures at { IsAt A.BITS self.now result.clock (A.view array.new).device }
        ensures worked { HasWorked (end - from.now.clock) (A.view array.old) (A.view array.new) }
    {
        self.laws();
        let mut place = *from;
        while place.clock < end {
            place = self.run_on(&place, array, end);
        }
        place
    }

    /// Makes the broadcasts of the operation at a place up to a clock, or all that it has left, and
    /// answers the place behind them.
    #[tactic(auto, using(crate::proofs::RunLemmas::grid_at, crate::proofs::PlaceLemmas::here_of, crate::proofs::RunLemmas::cycles_are, crate::proofs::PlaceLemmas::clocks_at, crate::proofs::PlaceLemmas::at_end))]
    pub(crate) fn run_on<A: Array>(&self, place: &Place, array: &mut A, end: u64) -> Place
        requires stands { StandsFor self.now place.now }
        requires before { place.now.clock < end }
        requires within { end ≤ total self.now }
        requires at { IsAt A.BITS self.now place.now.clock (A.view array.old).device }
        ensures stands { StandsFor self.now result }
        ensures later { place.now.clock < result.clock }
        ensures within { result.clock ≤ end }
        ensures whole { result.clock < end → result.micro ≡ 0 }
        ensures at { IsAt A.BITS self.now result.clock (A.view array.new).device }
        ensures worked { HasWorked (result.clock - place.now.clock)
            (A.view array.old) (A.view array.new) }
    {
        self.laws();
        match &place.current {
            Some(m) => {
                let cycles = self.cycles(m);
                let wanted = u64::from(place.micro) + (end - place.clock);
                let to = wanted.min(u64::from(cycles)) as u32;
                make_micros(array, m, place.micro, to);
                let mut behind = *place;
                self.go_on(&mut behind, m, cycles, to);
                behind
            }
            None => *place,
        }
    }

    /// The broadcast at a place.
    pub(crate) fn next_micro(&self, place: &Place) -> Micro
        requires stands { StandsFor self.now place.now }
        requires more { place.now.clock < total self.now }
        ensures { slice_get (program self.now) place.now.clock ≡ Some result }
    {
        self.laws();
        match place.current {
            Some(m) => self.micro(place, &m),
            None => Micro {
                tree: TreeOp::Hold,
                act: Act::Nop,
            },
        }
    }

    /// The clock at which the operation at a place ends.
    pub(crate) fn next_end(&self, place: &Place) -> u64
        requires stands { StandsFor self.now place.now }
        requires more { place.now.clock < total self.now }
        ensures next { ends_after self.now place.now.clock ≡ result ∷ ends_after self.now result }
        ensures later { place.now.clock < result }
        ensures within { result ≤ total self.now }
    {
        self.laws();
        match place.current {
            Some(m) => place.clock - u64::from(place.micro) + u64::from(self.cycles(&m)),
            None => place.clock,
        }
    }

    /// How many clocks an operation takes.
    pub(crate) fn cycles(&self, m: &Macro) -> u32
        requires { IsLawful m.now (need_of (layout_of self.now)) }
        ensures value { result ≡ cycles_in self.now m.now }
        ensures some { 1 ≤ result }
        ensures few { result ≤ 82 }
    {
        self.laws();
        cycles(m, self.columns, self.rows)
    }

    /// How many operations and how many clocks the program has.
    pub fn cost(&self) -> (u64, u64)
        ensures operations { result.0 ≡ length (passes self.now) }
        ensures clocks { result.1 ≡ total self.now }
        ensures few { total self.now < 2 ^ 43 }
        ensures can_run { CanRun self.now }
    {
        self.laws();
        cost(self.scene, &self.plan, &self.layout)
    }

    /// The scene itself.
    pub fn scene(&self) -> &Scene
        ensures { result.now ≡ self.now }
    {
        self.scene
    }

    /// The products of the scene that are drawn.
    pub fn plan(&self) -> &Plan
        ensures { result.now.products.items ≡ plan_of self.now }
    {
        &self.plan
    }

    /// The scene's layout.
    pub fn layout(&self) -> Layout
        ensures value { result ≡ layout_of self.now }
        ensures can_run { CanRun self.now }
    {
        self.layout
    }

    /// How many products the passes draw.
    pub(crate) fn total_products(&self) -> usize
        ensures { result ≡ length (plan_of self.now) }
    {
        self.plan.products.len()
    }

    /// The exponents of the scene's grid.
    pub fn grid(&self) -> (u32, u32)
        ensures { result ≡ (columns_of self.now, rows_of self.now) }
    {
        (self.columns, self.rows)
    }
}
