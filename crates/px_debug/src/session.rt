//! A session: command lines, one after another, over a scene's broadcasts.
ghost use Rattle.std.specs.Prelude.{◌≡◌, ◌+◌, ◌-◌, ◌^◌, ◌<◌, ◌≤◌, IfOk, OnErr, OnOk};
ghost use Rattle.px_io.specs.Counts.{HasCause};
ghost use Rattle.px_io.specs.Reports.{TakesAll, TakesFront};
ghost use Rattle.px_array.specs.Slots.{after_save, no_slots};
ghost use Rattle.px_control.specs.Program.{IsAt};
ghost use Rattle.px_debug.specs.Answers.{answer, answer_in};
ghost use Rattle.px_debug.specs.Commands.{line_command};
ghost use Rattle.px_debug.specs.Moves.{Fits, SessionView, going, most_clocks, moved};

use crate::command::{Command, command_of};
use crate::course::Course;
use crate::machine_text::{field_answer, pixel_answer, tree_answer};
use crate::place_text::place_line;
use crate::text::{Text, number_line, unknown_line};
use crate::trace::trace_text;
use circular_buffer::HeapCircularBuffer;
use px_array::Array;
use px_asm::Operating;
use px_control::{Job, law_of_grids, law_of_sizes};
use px_io::{Failed, Sink, write_whole};
use px_num::Memory;
use std::alloc::Global;
use std::marker::Model;

/// Whether a session goes on after a line.
#[derive(Clone, Copy)]
pub enum Going {
    More,
    Quit,
}

impl Going {
    /// Whether a session goes on after a command.
    fn after(command: Command) -> Going
        ensures { result ≡ going command }
    {
        match command {
            Command::Quit => Going::Quit,
            _ => Going::More,
        }
    }
}

/// A session over the broadcasts of a scene, on an array that it is lent (docs/DEBUGGER.md).
#[derive(Drop)]
pub struct Session<'s> {
    course: Course<'s>,
    lines: u64,
}

impl<'s> Model for Session<'s> {
    ghost use Rattle.px_expr.specs.TreeCode.{tree_code};
    ghost use Rattle.std.specs.Coded.{codes};
    ghost use Rattle.px_debug.specs.Courses.{IsKeptBySession};
    ghost use Rattle.px_debug.specs.Moves.{SessionView};

    ghost Value = { SessionView };

    ghost coded = { Prim.hlevel (codes, tree_code) };

    ghost view = { λ s. record {
      scene = s.course.job.scene;
      now = s.course.job.place.clock;
      lines = s.lines;
    } };

    ghost invariant = { λ s. IsKeptBySession s.course };
}

impl<'s> Session<'s> {
    /// A session before the first broadcast, to which no line was given, on an array that was just opened.
    ///
    /// Slot 0 keeps the array as it is. After `Memory` the slots are as they were.
    pub fn new<A: Array>(alloc: Global, job: Job<'s>, array: &mut A) -> Result<Session<'s>, Memory>
        requires start { job.place.clock ≡ 0 }
        requires at { IsAt A.BITS job.scene 0 (A.view array.old).device }
        requires fresh { (A.view array.old).slots ≡ no_slots }
        requires few { A.BITS ≤ 256 }
        ensures session { IfOk result (λ s.
            s ≡ record { scene = job.entry.scene; now = 0; lines = 0 }) }
        ensures fits { IfOk result (λ s. Fits A.BITS s (A.view array.new)) }
        ensures device { (A.view array.new).device ≡ (A.view array.old).device }
        ensures slots { OnOk result ((A.view array.new).slots ≡ after_save 0 (A.view array.old).device (A.view array.old).slots) }
        ensures err { OnErr result ((A.view array.new).slots ≡ (A.view array.old).slots) }
        ensures work { (A.view array.new).work ≡ (A.view array.old).work }
    {
        let trace = HeapCircularBuffer::with_capacity(alloc, 32)?;
        let _now = job.now();
        law_of_grids();
        array.save(0);
        let course = Course::start(job, trace);
        Ok(Session { course, lines: 0 })
    }

    /// Obeys a command line, and answers it.
    ///
    /// After `Failed` the move is made, and a front of the answer is written. The sink is not finished.
    pub fn line<A: Operating, O: Sink>(
        &mut self,
        array: &mut A,
        line: &[u8],
        out: &mut O,
    ) -> Result<Going, Failed>
        requires fits { Fits A.BITS self.old (A.view array.old) }
        requires counted { self.old.lines < 2 ^ 64 - 1 }
        ensures session { self.new ≡ record {
          scene = self.old.scene;
          now = moved self.old.scene self.old.now (line_command line.now);
          lines = self.old.lines + 1;
        } }
        ensures fits { Fits A.BITS self.new (A.view array.new) }
        ensures ok { OnOk result (TakesAll (O.state out.old) (O.state out.new)
            (answer A.BITS self.new.scene self.new.now self.new.lines (line_command line.now))) }
        ensures going { IfOk result (λ on. on ≡ going (line_command line.now)) }
        ensures err { OnErr result (TakesFront (O.state out.old) (O.state out.new)
            (answer A.BITS self.new.scene self.new.now self.new.lines (line_command line.now))) }
        ensures cause { HasCause (O.state out.old).faults (O.state out.new).faults result }
        ensures work { (A.view array.new).work ≤ (A.view array.old).work
            + most_clocks self.old.scene self.old.now (line_command line.now) }
    {
        let command = command_of(line);
        self.obey(array, command);
        self.speak(array, command, out)?;
        Ok(Going::after(command))
    }

    /// Goes where a command leads, and counts its line.
    fn obey<A: Operating>(&mut self, array: &mut A, command: Command)
        requires fits { Fits A.BITS self.old (A.view array.old) }
        requires counted { self.old.lines < 2 ^ 64 - 1 }
        ensures session { self.new ≡ record {
          scene = self.old.scene;
          now = moved self.old.scene self.old.now command;
          lines = self.old.lines + 1;
        } }
        ensures fits { Fits A.BITS self.new (A.view array.new) }
        ensures work { (A.view array.new).work ≤ (A.view array.old).work
            + most_clocks self.old.scene self.old.now command }
    {
        self.course.obey(array, command);
        self.lines += 1;
    }

    /// Writes the answer to a command, after its move.
    fn speak<A: Array, O: Sink>(
        &self,
        array: &A,
        command: Command,
        out: &mut O,
    ) -> Result<(), Failed>
        requires fits { Fits A.BITS self.now (A.view array.now) }
        ensures ok { OnOk result (TakesAll (O.state out.old) (O.state out.new)
            (answer A.BITS self.now.scene self.now.now self.now.lines command)) }
        ensures err { OnErr result (TakesFront (O.state out.old) (O.state out.new)
            (answer A.BITS self.now.scene self.now.now self.now.lines command)) }
        ensures cause { HasCause (O.state out.old).faults (O.state out.new).faults result }
    {
        let text = self.answer(array, command);
        write_whole(out, text.as_bytes())
    }

    /// The answer to a command, after its move.
    #[tactic(auto, unfolding(crate::specs::Answers::answer_in), using(crate::proofs::TracingLemmas::short_trace, crate::proofs::TracingLemmas::traced_text))]
    fn answer<A: Array>(&self, array: &A, command: Command) -> Text
        requires fits { Fits A.BITS self.now (A.view array.now) }
        ensures { result.bytes ≡ answer_in self.now.scene (A.view array.now).device.state self.now.now
            self.now.lines command }
    {
        let job = &self.course.job;
        let now = job.now();
        let layout = job.layout();
        law_of_sizes();
        match command {
            Command::Step(_)
            | Command::Macro(_)
            | Command::Run
            | Command::Until(_)
            | Command::Back(_) => number_line("at ", now),
            Command::At => place_line(job),
            Command::Pixel(x, y) => pixel_answer(array, x, y, self.lines),
            Command::Field(x, y) => field_answer(array, &layout, x, y, self.lines),
            Command::Tree(level, index) => tree_answer(array, level, index, self.lines),
            Command::Trace => trace_text(&self.course.trace, now),
            Command::Quit | Command::Nothing => Text::new(),
            Command::Unknown => unknown_line(self.lines),
        }
    }

    /// How many broadcasts were made.
    pub fn now(&self) -> u64
        ensures { result ≡ self.now.now }
    {
        self.course.job.now()
    }
}
