//! A job on its course: with the places of the passed quarters, and the last broadcasts.
ghost use Rattle.std.specs.Prelude.{◌≡◌, [], ◌+◌, ◌-◌, ◌*◌, ◌^◌, ◌<◌, ◌≤◌, ◌⊎◌, ◌++◌, length, min, take, drop};
ghost use Rattle.std.specs.Bool.{MatchBool};
ghost use Rattle.circular_buffer.specs.Buffer.{buffer, keep_last};
ghost use Rattle.px_control.specs.Program.{program, total};
ghost use Rattle.px_debug.specs.Courses.{IsAlmostOnCourse, IsKeptBySession, IsOnCourse, IsSameCourse, IsTraced};
ghost use Rattle.px_debug.specs.Moves.{quarter_of};

use circular_buffer::HeapCircularBuffer;
use px_array::{Array, Micro};
use px_asm::Operating;
use px_control::{Job, Place, law_of_grids};

/// How many checkpoints there are, and how many slots an array has.
const CHECKPOINTS: usize = 4;

/// How many broadcasts the trace shows.
pub(crate) const LAST: u64 = 32;

/// A job, with a place for each quarter of its program that was passed, and the last broadcasts.
#[derive(Drop)]
pub(crate) struct Course<'s> {
    pub(crate) job: Job<'s>,
    pub(crate) places: [Place; 4],
    pub(crate) passed: usize,
    pub(crate) trace: HeapCircularBuffer<Micro>,
    pub(crate) quarter: u64,
}

impl<'s> Course<'s> {
    /// A job before its first broadcast, whose state the first slot keeps, with an empty trace.
    pub(crate) fn start(job: Job<'s>, trace: HeapCircularBuffer<Micro>) -> Course<'s>
        requires start { job.place.clock ≡ 0 }
        requires trace { trace ≡ buffer [] 32 }
        ensures kept { IsKeptBySession result }
        ensures first { result.passed ≡ 1 }
        ensures job { result.job ≡ job.entry }
    {
        let place = job.place();
        let quarter = (job.total_clocks() / 4).max(1);
        Course {
            job,
            places: [place; 4],
            passed: 1,
            trace,
            quarter,
        }
    }

    /// Keeps the place and the state, where the next quarter has just been passed.
    fn mark<A: Array>(&mut self, array: &mut A)
        requires course { IsAlmostOnCourse A.BITS self.old (A.view array.old) }
        ensures course { IsOnCourse A.BITS self.new (A.view array.new) }
        ensures job { self.new.job ≡ self.old.job }
        ensures trace { self.new.trace ≡ self.old.trace }
        ensures quarter { self.new.quarter ≡ self.old.quarter }
        ensures work { (A.view array.new).work ≡ (A.view array.old).work }
    {
        let count = self.passed;
        if is_due(count, self.quarter, self.job.now()) {
            law_of_grids();
            self.places[count] = self.job.place();
            self.passed = count + 1;
            array.save(count as u32);
        }
    }

    /// Goes on to a clock before which no other quarter is passed.
    fn go<A: Operating>(&mut self, array: &mut A, stop: u64)
        requires course { IsOnCourse A.BITS self.old (A.view array.old) }
        requires forth { self.old.job.place.clock ≤ stop }
        requires within { stop ≤ total self.old.job.scene }
        requires near { self.old.passed < 4
            → stop ≤ self.old.passed * self.old.quarter }
        ensures course { IsOnCourse A.BITS self.new (A.view array.new) }
        ensures same { IsSameCourse self.old self.new }
        ensures clock { self.new.job.place.clock ≡ stop }
        ensures trace { self.new.trace ≡ self.old.trace }
        ensures work { (A.view array.new).work ≤ (A.view array.old).work + (stop - self.old.job.place.clock) }
    {
        let clocks = stop - self.job.now();
        self.job.advance(array, clocks);
        self.mark(array);
    }

    /// The next clock at which to stop on the way to another one.
    fn next_stop(&self, target: u64) -> u64
        requires before { self.now.job.place.clock < target }
        requires next { self.now.passed < 4
            → self.now.job.place.clock < self.now.passed * self.now.quarter }
        requires small { (self.now.passed ≤ 4) × (self.now.quarter ≤ 2 ^ 43) }
        ensures later { self.now.job.place.clock < result }
        ensures within { result ≤ target }
        ensures near { self.now.passed < 4
            → result ≤ self.now.passed * self.now.quarter }
    {
        if self.passed < CHECKPOINTS {
            target.min(self.passed as u64 * self.quarter)
        } else {
            target
        }
    }

    /// Goes on to a clock; what is broadcast on the way is not traced.
    fn run_to<A: Operating>(&mut self, array: &mut A, target: u64)
        requires course { IsOnCourse A.BITS self.old (A.view array.old) }
        requires forth { self.old.job.place.clock ≤ target }
        requires within { target ≤ total self.old.job.scene }
        requires small { self.old.quarter ≤ 2 ^ 43 }
        ensures course { IsOnCourse A.BITS self.new (A.view array.new) }
        ensures same { IsSameCourse self.old self.new }
        ensures clock { self.new.job.place.clock ≡ target }
        ensures trace { self.new.trace ≡ self.old.trace }
        ensures work { (A.view array.new).work ≤ (A.view array.old).work + (target - self.old.job.place.clock) }
    {
        while self.job.now() < target {
            let stop = self.next_stop(target);
            self.go(array, stop);
        }
    }

    /// One broadcast, which the trace takes.
    fn step<A: Operating>(&mut self, array: &mut A)
        requires course { IsOnCourse A.BITS self.old (A.view array.old) }
        requires more { self.old.job.place.clock < total self.old.job.scene }
        ensures course { IsOnCourse A.BITS self.new (A.view array.new) }
        ensures same { IsSameCourse self.old self.new }
        ensures clock { self.new.job.place.clock ≡ self.old.job.place.clock + 1 }
        ensures trace { self.new.trace ≡ buffer (keep_last self.old.trace.capacity
            (self.old.trace.items ++ take 1 (drop self.old.job.place.clock
            (program self.old.job.scene)))) self.old.trace.capacity }
        ensures work { (A.view array.new).work ≤ (A.view array.old).work + 1 }
    {
        self.trace.push_back(self.job.next_micro());
        let stop = self.job.now() + 1;
        self.go(array, stop);
    }

    /// So many broadcasts, which the trace takes.
    #[tactic(auto, using(crate::proofs::TraceLemmas::walk_more))]
    fn walk<A: Operating>(&mut self, array: &mut A, clocks: u64)
        requires course { IsOnCourse A.BITS self.old (A.view array.old) }
        requires left { self.old.job.place.clock + clocks ≤ total self.old.job.scene }
        requires room { length self.old.trace.items ≤ self.old.trace.capacity }
        ensures course { IsOnCourse A.BITS self.new (A.view array.new) }
        ensures same { IsSameCourse self.old self.new }
        ensures clock { self.new.job.place.clock ≡ self.old.job.place.clock + clocks }
        ensures trace { self.new.trace ≡ buffer (keep_last self.old.trace.capacity
            (self.old.trace.items ++ take clocks (drop self.old.job.place.clock
            (program self.old.job.scene)))) self.old.trace.capacity }
        ensures work { (A.view array.new).work ≤ (A.view array.old).work + clocks }
    {
        for _ in 0..clocks {
            self.step(array);
        }
    }

    /// Goes on to a clock, so that the trace has the last broadcasts before it.
    pub(crate) fn forward<A: Operating>(&mut self, array: &mut A, target: u64)
        requires course { IsOnCourse A.BITS self.old (A.view array.old) }
        requires forth { self.old.job.place.clock ≤ target }
        requires within { target ≤ total self.old.job.scene }
        requires quarter { self.old.quarter ≡ quarter_of self.old.job.scene }
        requires capacity { self.old.trace.capacity ≡ 32 }
        requires trace { IsTraced self.old ⊎ (self.old.job.place.clock + 32 ≤ target) }
        ensures course { IsOnCourse A.BITS self.new (A.view array.new) }
        ensures same { IsSameCourse self.old self.new }
        ensures clock { self.new.job.place.clock ≡ target }
        ensures trace { IsTraced self.new }
        ensures work { (A.view array.new).work ≤ (A.view array.old).work + (target - self.old.job.place.clock) }
    {
        let clocks = target - self.job.now();
        if clocks < LAST {
            self.walk(array, clocks);
        } else {
            self.run_to(array, target - LAST);
            self.trace.clear();
            self.walk(array, LAST);
        }
    }

    /// Goes back to a clock, from the latest quarter after which the trace fills again.
    #[tactic(auto, using(crate::proofs::TraceLemmas::none_before))]
    pub(crate) fn back<A: Operating>(&mut self, array: &mut A, target: u64)
        requires course { IsOnCourse A.BITS self.old (A.view array.old) }
        requires before { target ≤ self.old.job.place.clock }
        requires quarter { self.old.quarter ≡ quarter_of self.old.job.scene }
        requires capacity { self.old.trace.capacity ≡ 32 }
        ensures course { IsOnCourse A.BITS self.new (A.view array.new) }
        ensures same { IsSameCourse self.old self.new }
        ensures clock { self.new.job.place.clock ≡ target }
        ensures trace { IsTraced self.new }
        ensures work { (A.view array.new).work ≤ (A.view array.old).work + (self.old.quarter + 32) }
    {
        let _now = self.job.now();
        let checkpoint = checkpoint_for(self.quarter, target);
        self.return_to(array, checkpoint);
        self.trace.clear();
        self.forward(array, target);
    }

    /// Goes back to a checkpoint that was passed.
    fn return_to<A: Array>(&mut self, array: &mut A, checkpoint: usize)
        requires course { IsOnCourse A.BITS self.old (A.view array.old) }
        requires passed { checkpoint < self.old.passed }
        ensures course { IsOnCourse A.BITS self.new (A.view array.new) }
        ensures same { IsSameCourse self.old self.new }
        ensures clock { self.new.job.place.clock ≡ checkpoint * self.old.quarter }
        ensures trace { self.new.trace ≡ self.old.trace }
        ensures work { (A.view array.new).work ≡ (A.view array.old).work }
    {
        let _now = self.job.now();
        law_of_grids();
        array.restore(checkpoint as u32);
        self.job.return_to(self.places[checkpoint]);
        self.passed = checkpoint + 1;
    }
}

/// Which checkpoint to go back to for a clock: the latest that lies 32 clocks or more before it, or
/// the first.
fn checkpoint_for(quarter: u64, target: u64) -> usize
    requires some { 1 ≤ quarter }
    ensures few { result ≤ 3 }
    ensures behind { result * quarter ≤ target }
    ensures full { (result ≡ 0) ⊎ (result * quarter + 32 ≤ target) }
    ensures near { target < 4 * quarter + 4 → target - result * quarter ≤ quarter + 32 }
{
    if target < LAST {
        return 0;
    }
    let passed = (target - LAST) / quarter;
    passed.min(3) as usize
}

/// Whether the next quarter has just been passed, where so many have their places.
#[tactic(auto, using(crate::proofs::MarkingLemmas::due))]
fn is_due(count: usize, quarter: u64, now: u64) -> bool
    requires few { count ≤ 4 }
    requires some { 1 ≤ quarter }
    requires next { count < 4 → now ≤ count * quarter }
    ensures { MatchBool result ((count < 4) × (now ≡ count * quarter))
        (count < 4 → now < count * quarter) }
{
    count < CHECKPOINTS && now / quarter == count as u64
}
