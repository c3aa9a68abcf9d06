//! What each command moves.
ghost use Rattle.std.specs.Prelude.{◌≡◌, ◌+◌, ◌-◌, ◌≤◌, max, min};
ghost use Rattle.px_control.specs.Program.{total};
ghost use Rattle.px_debug.specs.Courses.{IsOnCourse, IsSameCourse, IsTraced};
ghost use Rattle.px_debug.specs.Moves.{after_ends, back_clocks, most_clocks, moved, quarter_of};
ghost use Rattle.px_control.specs.Program.{ends_after};

use crate::command::Command;
use crate::course::Course;
use px_asm::Operating;

impl<'s> Course<'s> {
    /// Goes where a command leads.
    pub(crate) fn obey<A: Operating>(&mut self, array: &mut A, command: Command)
        requires course { IsOnCourse A.BITS self.old (A.view array.old) }
        requires quarter { self.old.quarter ≡ quarter_of self.old.job.scene }
        requires trace { IsTraced self.old }
        ensures course { IsOnCourse A.BITS self.new (A.view array.new) }
        ensures same { IsSameCourse self.old self.new }
        ensures clock { self.new.job.place.clock
            ≡ moved self.old.job.scene self.old.job.place.clock command }
        ensures trace { IsTraced self.new }
        ensures work { (A.view array.new).work ≤ (A.view array.old).work
            + most_clocks self.old.job.scene self.old.job.place.clock command }
    {
        match command {
            Command::Step(n) => {
                let target = self.ahead(n);
                self.forward(array, target);
            }
            Command::Macro(n) => self.go_ends(array, n),
            Command::Run => {
                let target = self.job.total_clocks();
                let _now = self.job.now();
                self.forward(array, target);
            }
            Command::Until(n) => {
                let target = self.until(n);
                self.forward(array, target);
            }
            Command::Back(n) => self.go_back(array, n),
            Command::At
            | Command::Pixel(..)
            | Command::Field(..)
            | Command::Tree(..)
            | Command::Trace
            | Command::Quit
            | Command::Nothing
            | Command::Unknown => {}
        }
    }

    /// The clock that is so many on, or the last one.
    fn ahead(&self, clocks: u64) -> u64
        ensures value { result ≡ min (self.now.job.place.clock + clocks) (total self.now.job.scene) }
        ensures forth { self.now.job.place.clock ≤ result }
        ensures within { result ≤ total self.now.job.scene }
    {
        let now = self.job.now();
        now + clocks.min(self.job.total_clocks() - now)
    }

    /// A clock where it is still to come, at most the last one.
    fn until(&self, clock: u64) -> u64
        ensures value { result ≡ max self.now.job.place.clock (min clock (total self.now.job.scene)) }
        ensures forth { self.now.job.place.clock ≤ result }
        ensures within { result ≤ total self.now.job.scene }
    {
        self.job.now().max(clock.min(self.job.total_clocks()))
    }

    /// Goes so many times to the end of the operation that runs.
    fn go_ends<A: Operating>(&mut self, array: &mut A, count: u64)
        requires course { IsOnCourse A.BITS self.old (A.view array.old) }
        requires quarter { self.old.quarter ≡ quarter_of self.old.job.scene }
        requires trace { IsTraced self.old }
        ensures course { IsOnCourse A.BITS self.new (A.view array.new) }
        ensures same { IsSameCourse self.old self.new }
        ensures clock { self.new.job.place.clock ≡ after_ends count
            (ends_after self.old.job.scene self.old.job.place.clock) self.old.job.place.clock
            (total self.old.job.scene) }
        ensures forth { self.old.job.place.clock ≤ self.new.job.place.clock }
        ensures trace { IsTraced self.new }
        ensures work { (A.view array.new).work ≤ (A.view array.old).work
            + (self.new.job.place.clock - self.old.job.place.clock) }
    {
        for _ in 0..count {
            if self.job.now() == self.job.total_clocks() {
                return;
            }
            let end = self.job.next_end();
            self.forward(array, end);
        }
    }

    /// Goes so many clocks back, at most to the first; if it is there already it does nothing.
    fn go_back<A: Operating>(&mut self, array: &mut A, clocks: u64)
        requires course { IsOnCourse A.BITS self.old (A.view array.old) }
        requires quarter { self.old.quarter ≡ quarter_of self.old.job.scene }
        requires trace { IsTraced self.old }
        ensures course { IsOnCourse A.BITS self.new (A.view array.new) }
        ensures same { IsSameCourse self.old self.new }
        ensures clock { self.new.job.place.clock ≡ self.old.job.place.clock - clocks }
        ensures trace { IsTraced self.new }
        ensures work { (A.view array.new).work ≤ (A.view array.old).work + back_clocks self.old.job.scene
            self.old.job.place.clock (self.old.job.place.clock - clocks) }
    {
        let now = self.job.now();
        let target = now.saturating_sub(clocks);
        if target < now {
            self.back(array, target);
        }
    }
}
