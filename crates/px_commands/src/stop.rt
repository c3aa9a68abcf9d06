//! Why a run does not do its work.
ghost use Rattle.std.specs.Prelude.{◌≡◌};
ghost use Rattle.px_control.specs.declared.fault.JobFault.{JobFault};
ghost use Rattle.px_normal.specs.declared.fault.NormalFault.{NormalFault};
ghost use Rattle.px_commands.specs.declared.stop.SceneStop.{SceneStop};
ghost use Rattle.px_commands.specs.Refusals.{scene_limit};
ghost use Rattle.px_commands.specs.Results.{status_of};
ghost use Rattle.px_commands.specs.JobStops.{job_stop, products_stop};

use crate::refusal::{Kind, Refusal};
use crate::status::Status;
use px_control::JobFault;
use px_frame::FineFault;
use px_io::{Failed, ReadError};
use px_listing::ListFault;
use px_normal::NormalFault;
use px_num::Memory;
use px_scene::{LimitKind, SceneFault};

/// Why the work was not done.
#[derive(Drop)]
pub enum Stop {
    Usage,
    Refused(Refusal),
    ReadFault,
    WriteFault,
    Memory(Memory),
}

/// Why a scene was not served: by what it is, or since memory ran out.
#[derive(Drop)]
pub enum SceneStop {
    Refused(Refusal),
    Memory(Memory),
}

impl Stop {
    /// The status of a run that ends so.
    pub fn status(self) -> Status
        ensures { result ≡ status_of self }
    {
        match self {
            Stop::Usage => Status::Usage,
            Stop::Refused(Refusal::Malformed { .. }) => Status::Malformed,
            Stop::Refused(Refusal::Limit { .. }) => Status::Limit,
            Stop::ReadFault => Status::ReadFault,
            Stop::WriteFault => Status::WriteFault,
            Stop::Memory(lack) => Status::Memory(lack),
        }
    }
}

impl From<ReadError> for Stop {
    ghost use Rattle.std.specs.Prelude.{◌≡◌};
    ghost use Rattle.px_commands.specs.Stops.{read_stop};

    ghost from_gives = { λ fault stop. stop ≡ read_stop fault };

    fn from(fault: ReadError) -> Self {
        match fault {
            ReadError::Failed => Stop::ReadFault,
            ReadError::Memory(lack) => Stop::Memory(lack),
        }
    }
}

impl From<Failed> for Stop {
    ghost use Rattle.std.specs.Prelude.{◌≡◌};
    ghost use Rattle.px_commands.specs.declared.stop.Stop.{Stop};

    ghost from_gives = { λ failed stop. stop ≡ Stop.WriteFault };

    /// What failed at a command's end is a write.
    fn from(_failed: Failed) -> Self {
        Stop::WriteFault
    }
}

impl From<SceneStop> for Stop {
    ghost use Rattle.std.specs.Prelude.{◌≡◌};
    ghost use Rattle.px_commands.specs.Stops.{stopped};

    ghost from_gives = { λ found stop. stop ≡ stopped found };

    fn from(found: SceneStop) -> Self {
        match found {
            SceneStop::Refused(reason) => Stop::Refused(reason),
            SceneStop::Memory(lack) => Stop::Memory(lack),
        }
    }
}

impl From<SceneFault> for SceneStop {
    ghost use Rattle.std.specs.Prelude.{◌≡◌};
    ghost use Rattle.px_commands.specs.Refusals.{refusal_in};
    ghost use Rattle.px_commands.specs.Stops.{stop_at};

    ghost from_gives = { λ fault stop. stop ≡ stop_at (refusal_in fault) };

    fn from(fault: SceneFault) -> Self {
        match fault {
            SceneFault::Malformed { line, cause } => {
                SceneStop::Refused(Refusal::Malformed { line, cause })
            }
            SceneFault::Limit { line, kind, found } => {
                let kind = Kind::Scene(kind);
                SceneStop::Refused(Refusal::Limit { line, kind, found })
            }
            SceneFault::Memory(lack) => SceneStop::Memory(lack),
        }
    }
}

impl From<ListFault> for SceneStop {
    ghost use Rattle.std.specs.Prelude.{◌≡◌};
    ghost use Rattle.px_commands.specs.Refusals.{list_refusal_in};
    ghost use Rattle.px_commands.specs.Stops.{stop_at};

    ghost from_gives = { λ fault stop. stop ≡ stop_at (list_refusal_in fault) };

    fn from(fault: ListFault) -> Self {
        match fault {
            ListFault::Malformed { line, cause } => {
                SceneStop::Refused(Refusal::Malformed { line, cause })
            }
            ListFault::Limit { line, kind, found } => {
                let kind = Kind::List(kind);
                SceneStop::Refused(Refusal::Limit { line, kind, found })
            }
            ListFault::Memory(lack) => SceneStop::Memory(lack),
        }
    }
}

impl From<FineFault> for SceneStop {
    ghost use Rattle.std.specs.Prelude.{◌≡◌};
    ghost use Rattle.px_commands.specs.Refusals.{fault_refusal};
    ghost use Rattle.px_commands.specs.Stops.{stop_at};

    ghost from_gives = { λ fault stop. stop ≡ stop_at (fault_refusal fault) };

    fn from(fault: FineFault) -> Self {
        match fault {
            FineFault::Fraction { found } => past_limit(LimitKind::Fraction, i64::from(found)),
            FineFault::Picture { found } => past_limit(LimitKind::Picture, i64::from(found)),
            FineFault::Coefficient { found } => past_limit(LimitKind::Coefficient, found),
            FineFault::Memory(lack) => SceneStop::Memory(lack),
        }
    }
}

/// A scene is past a limit that is not one line's.
pub fn past_limit(kind: LimitKind, found: i64) -> SceneStop
    ensures { result ≡ SceneStop.Refused (scene_limit kind found) }
{
    SceneStop::Refused(Refusal::Limit {
        line: 0,
        kind: Kind::Scene(kind),
        found,
    })
}

/// Why a job was not opened.
pub(crate) fn job_stop(fault: JobFault) -> SceneStop
    ensures { result ≡ job_stop fault }
{
    match fault {
        JobFault::PixelMemory { need } => past_limit(LimitKind::PixelMemory, i64::from(need)),
        JobFault::Products { count } => past_limit(LimitKind::Products, i64::from(count)),
        JobFault::Memory(lack) => SceneStop::Memory(lack),
    }
}

/// Why a scene has no plan.
pub(crate) fn products_stop(fault: NormalFault) -> SceneStop
    ensures { result ≡ products_stop fault }
{
    match fault {
        NormalFault::TooMany { count } => past_limit(LimitKind::Products, i64::from(count)),
        NormalFault::Memory(lack) => SceneStop::Memory(lack),
    }
}
