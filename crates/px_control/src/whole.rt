//! The way through a program, on which operations are made at once as long as that shows nowhere.
ghost use Rattle.std.specs.Prelude.{◌≡◌, ◌+◌, ◌-◌, ◌<◌, ◌≤◌, ℕ, All, IfNone, IfSome, OnSome};
ghost use Rattle.arrayvec.specs.ArrayVec.{array_vec_len};
ghost use Rattle.px_array.specs.Arrays.{Device};
ghost use Rattle.px_array.specs.Clocks.{all_clocked};
ghost use Rattle.px_array.specs.Slots.{HasRun, HasWorked};
ghost use Rattle.px_asm.specs.Making.{micros_on};
ghost use Rattle.px_asm.specs.Operations.{all_made};
ghost use Rattle.px_macro.specs.Macros.{IsLawful};
ghost use Rattle.px_sched.specs.Layouts.{layout_of, need_of};
ghost use Rattle.px_control.specs.Program.{IsAt, total};
ghost use Rattle.px_control.specs.Standing.{StandsFor};
ghost use Rattle.px_control.specs.Whole.{Holds};

use crate::place::Place;
use crate::program::Program;
use arrayvec::ArrayVec;
use px_array::Array;
use px_asm::{Operating, make_before};
use px_macro::Macro;

/// So many operations are looked at before the first of them is made.
const HELD: usize = 512;

impl<'s> Program<'s> {
    /// Makes so many broadcasts from a place on, and answers the place behind them.
    pub fn run_clocks<A: Operating>(&self, from: &Place, array: &mut A, clocks: u64) -> Place
        requires stands { StandsFor self.now from.now }
        requires left { from.now.clock + clocks ≤ total self.now }
        requires at { IsAt A.BITS self.now from.now.clock (A.view array.old).device }
        ensures stands { StandsFor self.now result }
        ensures clock { result.clock ≡ from.now.clock + clocks }
        ensures at { IsAt A.BITS self.now result.clock (A.view array.new).device }
        ensures worked { HasWorked clocks (A.view array.old) (A.view array.new) }
    {
        self.laws();
        let end = from.clock + clocks;
        let place = self.leave(from, array, end);
        if place.micro > 0 {
            return place;
        }
        self.march(&place, array, end)
    }

    /// Makes the rest of an operation that runs, up to a clock, and answers the place there.
    fn leave<A: Array>(&self, from: &Place, array: &mut A, end: u64) -> Place
        requires stands { StandsFor self.now from.now }
        requires order { from.now.clock ≤ end }
        requires within { end ≤ total self.now }
        requires at { IsAt A.BITS self.now from.now.clock (A.view array.old).device }
        ensures stands { StandsFor self.now result }
        ensures later { from.now.clock ≤ result.clock }
        ensures within { result.clock ≤ end }
        ensures whole { result.clock < end → result.micro ≡ 0 }
        ensures at { IsAt A.BITS self.now result.clock (A.view array.new).device }
        ensures worked { HasWorked (result.clock - from.now.clock)
            (A.view array.old) (A.view array.new) }
    {
        if from.micro == 0 || from.clock == end {
            return *from;
        }
        self.run_on(from, array, end)
    }

    /// Makes the broadcasts from an operation's first up to a clock, and answers the place there:
    /// operation by operation, each once those behind it are known, and at the end clock by clock.
    fn march<A: Operating>(&self, from: &Place, array: &mut A, end: u64) -> Place
        requires stands { StandsFor self.now from.now }
        requires micro { from.now.micro ≡ 0 }
        requires order { from.now.clock ≤ end }
        requires within { end ≤ total self.now }
        requires at { IsAt A.BITS self.now from.now.clock (A.view array.old).device }
        ensures stands { StandsFor self.now result }
        ensures clock { result.clock ≡ end }
        ensures at { IsAt A.BITS self.now result.clock (A.view array.new).device }
        ensures worked { HasWorked (end - from.now.clock) (A.view array.old) (A.view array.new) }
    {
        let mut place = *from;
        let mut held = ArrayVec::new();
        let mut behind = ArrayVec::new();
        self.hold(&mut place, end, &mut held);
        while !held.is_empty() {
            self.make_held(&mut place, array, end, &held, &mut behind);
            self.make_held(&mut place, array, end, &behind, &mut held);
        }
        self.walk(&place, array, end)
    }

    /// Makes the operations that are held, with those behind them held in their place.
    fn make_held<A: Operating>(
        &self,
        place: &mut Place,
        array: &mut A,
        end: u64,
        held: &ArrayVec<Macro, HELD>,
        behind: &mut ArrayVec<Macro, HELD>,
    )
        requires stands { StandsFor self.now place.old }
        requires micro { place.old.micro ≡ 0 }
        requires order { place.old.clock ≤ end }
        requires within { end ≤ total self.now }
        requires holds { Holds A.BITS self.now place.old.clock held.now.items (A.view array.old).device }
        ensures stands { StandsFor self.now place.new }
        ensures micro { place.new.micro ≡ 0 }
        ensures order { place.new.clock ≤ end }
        ensures operation { place.new.operation ≡ place.old.operation + array_vec_len behind.new }
        ensures holds { Holds A.BITS self.now place.new.clock behind.new.items (A.view array.new).device }
        ensures run { HasRun (A.view array.old) (A.view array.new) }
    {
        self.laws();
        self.hold(place, end, behind);
        make_before(array, held.as_slice(), behind.as_slice());
    }

    /// Goes past the next operations from a place on, as far as they end by a clock and can be
    /// held, and holds them.
    fn hold(&self, place: &mut Place, end: u64, held: &mut ArrayVec<Macro, HELD>)
        requires stands { StandsFor self.now place.old }
        requires micro { place.old.micro ≡ 0 }
        ensures stands { StandsFor self.now place.new }
        ensures micro { place.new.micro ≡ 0 }
        ensures within { place.old.clock ≤ end → place.new.clock ≤ end }
        ensures operation { place.new.operation ≡ place.old.operation + array_vec_len held.new }
        ensures lawful { All (λ m. IsLawful m (need_of (layout_of self.now))) held.new.items }
        ensures leads { (bits : ℕ) (d : Device) → IsAt bits self.now place.old.clock d
            → IsAt bits self.now place.new.clock (all_made held.new.items d) }
    {
        held.clear();
        while held.len() < HELD {
            match self.pass(place, end) {
                Some(m) => held.push(m),
                None => return,
            }
        }
    }

    /// Goes past the operation at a place, if it ends by a clock.
    fn pass(&self, place: &mut Place, end: u64) -> Option<Macro>
        requires stands { StandsFor self.now place.old }
        requires micro { place.old.micro ≡ 0 }
        ensures stands { StandsFor self.now place.new }
        ensures micro { place.new.micro ≡ 0 }
        ensures within { place.old.clock ≤ end → place.new.clock ≤ end }
        ensures operation { OnSome result (place.new.operation ≡ place.old.operation + 1) }
        ensures stays { IfNone result (place.new ≡ place.old) }
        ensures lawful { IfSome result (λ m. IsLawful m (need_of (layout_of self.now))) }
        ensures leads { IfSome result (λ m. (bits : ℕ) (d : Device)
            → IsAt bits self.now place.old.clock d
            → IsAt bits self.now place.new.clock (all_clocked (micros_on d m) d)) }
    {
        self.laws();
        let m = place.current?;
        let cycles = self.cycles(&m);
        if end < place.clock + u64::from(cycles) {
            return None;
        }
        self.go_on(place, &m, cycles, cycles);
        Some(m)
    }
}
