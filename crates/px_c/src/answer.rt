//! What a call answers: its status, and what it found.
ghost use Rattle.std.specs.Prelude.{◌≡◌};
ghost use Rattle.px_control.specs.declared.fault.JobFault.{JobFault};
ghost use Rattle.px_c.specs.Answers.{limit_answer, malformed_answer, refused_answer, text_fault_of};
ghost use Rattle.px_c.specs.StateAnswers.{list_refused, state_refused};
ghost use Rattle.px_c.specs.declared.status.TheConstants.{OK};

use crate::found::{Found, cause_number, kind_number, list_number, nothing};
use crate::status::{LIMIT, MALFORMED, MEMORY, NO_CLOCK, NO_OPERATION, NO_ROOM};
use px_control::JobFault;
use px_listing::ListFault;
use px_scene::{Cause, LimitKind, SceneFault};
use px_state::StateFault;

/// What a call answers.
#[derive(Clone, Copy)]
pub(crate) struct Answer {
    pub(crate) status: u32,
    pub(crate) found: Found,
}

impl Answer {
    /// Writes down what was found, and returns the status.
    pub(crate) fn report_to(self, found: &mut Found) -> u32
        ensures status { result ≡ self.status }
        ensures found { found.new ≡ self.found }
    {
        *found = self.found;
        self.status
    }
}

/// The answer to a bad line.
pub(crate) fn malformed(line: u32, cause: Cause) -> Answer
    ensures { result ≡ malformed_answer line cause }
{
    Answer {
        status: MALFORMED,
        found: Found {
            line,
            cause: cause_number(cause),
            ..nothing()
        },
    }
}

/// The answer to what is past the limit of a kind.
pub(crate) fn past_limit(line: u32, kind: u32, number: i64) -> Answer
    ensures { result ≡ limit_answer line kind number }
{
    Answer {
        status: LIMIT,
        found: Found {
            line,
            kind,
            number,
            ..nothing()
        },
    }
}

/// The answer to a text that is refused.
pub(crate) fn refused(fault: SceneFault) -> Answer
    ensures { result ≡ refused_answer fault }
{
    match fault {
        SceneFault::Malformed { line, cause } => malformed(line, cause),
        SceneFault::Limit { line, kind, found } => past_limit(line, kind_number(kind), found),
        SceneFault::Memory(_) => Answer {
            status: MEMORY,
            found: nothing(),
        },
    }
}

/// A refusal of the array, as one of the text.
pub(crate) fn scene_fault(fault: JobFault) -> SceneFault
    ensures { result ≡ text_fault_of fault }
{
    match fault {
        JobFault::PixelMemory { need } => SceneFault::Limit {
            line: 0,
            kind: LimitKind::PixelMemory,
            found: i64::from(need),
        },
        JobFault::Products { count } => SceneFault::Limit {
            line: 0,
            kind: LimitKind::Products,
            found: i64::from(count),
        },
        JobFault::Memory(lack) => SceneFault::Memory(lack),
    }
}

/// The answer to a listing that is refused.
pub(crate) fn list_refused(fault: ListFault) -> Answer
    ensures { result ≡ list_refused fault }
{
    match fault {
        ListFault::Malformed { line, cause } => malformed(line, cause),
        ListFault::Limit { line, kind, found } => past_limit(line, list_number(kind), found),
        ListFault::Memory(lack) => refused(SceneFault::Memory(lack)),
    }
}

/// The answer where there is no state, or there are no micros or operations.
pub(crate) fn state_refused(fault: StateFault) -> Answer
    ensures answer { result ≡ state_refused fault }
    ensures refused { result.status ≡ OK → ⊥ }
{
    match fault {
        StateFault::Scene(fault) => refused(fault),
        StateFault::Job(fault) => refused(scene_fault(fault)),
        StateFault::Listing(fault) => list_refused(fault),
        StateFault::NoClock { clocks } => Answer {
            status: NO_CLOCK,
            found: Found {
                clocks,
                ..nothing()
            },
        },
        StateFault::NoOperation { operations } => Answer {
            status: NO_OPERATION,
            found: Found {
                operations,
                ..nothing()
            },
        },
        StateFault::NoRoom { room } => Answer {
            status: NO_ROOM,
            found: Found { room, ..nothing() },
        },
        StateFault::Memory(lack) => refused(SceneFault::Memory(lack)),
    }
}
