//! Why there is no state, or there are no micros or operations.
ghost use Rattle.std.specs.Prelude.{◌≡◌};

use px_control::JobFault;
use px_listing::ListFault;
use px_num::Memory;
use px_scene::SceneFault;
use thiserror::Error;

/// Why there is no state, or there are no micros or operations.
#[derive(Debug, Drop, Error)]
pub enum StateFault {
    /// The text is no scene, and no listing (docs/SCENES.md, "Refusals"), or it is too long.
    #[error(transparent)]
    Scene(SceneFault),
    /// The pixels have too few memory bits for the scene, or its products are too many.
    #[error(transparent)]
    Job(JobFault),
    /// The text begins as a listing, and is none (docs/LISTINGS.md, "Refusals").
    #[error(transparent)]
    Listing(ListFault),
    /// The clocks that are asked for lie past the last.
    #[error("past clock {clocks}, the last")]
    NoClock {
        /// How many clocks there are.
        clocks: u64,
    },
    /// The operations that are asked for lie past the last.
    #[error("past operation {operations}, the last")]
    NoOperation {
        /// How many operations there are.
        operations: u64,
    },
    /// The list of words is too short.
    #[error("{room} words are due")]
    NoRoom {
        /// How many words are needed.
        room: u64,
    },
    /// Memory was wanted and not given.
    #[error("out of memory")]
    Memory(Memory),
}

impl From<Memory> for StateFault {
    ghost use Rattle.std.specs.Prelude.{◌≡◌};
    ghost use Rattle.px_state.specs.declared.fault.StateFault.TheVariants.{Memory};

    ghost from_gives = { λ lack fault. fault ≡ Memory lack };

    fn from(lack: Memory) -> Self {
        StateFault::Memory(lack)
    }
}

impl From<SceneFault> for StateFault {
    ghost use Rattle.std.specs.Prelude.{◌≡◌};
    ghost use Rattle.px_state.specs.Refusals.{fault_of_scene};

    ghost from_gives = { λ cause fault. fault ≡ fault_of_scene cause };

    fn from(cause: SceneFault) -> Self {
        match cause {
            SceneFault::Memory(lack) => StateFault::Memory(lack),
            SceneFault::Malformed { .. } | SceneFault::Limit { .. } => StateFault::Scene(cause),
        }
    }
}

impl From<JobFault> for StateFault {
    ghost use Rattle.std.specs.Prelude.{◌≡◌};
    ghost use Rattle.px_state.specs.Refusals.{fault_of_job};

    ghost from_gives = { λ cause fault. fault ≡ fault_of_job cause };

    fn from(cause: JobFault) -> Self {
        match cause {
            JobFault::Memory(lack) => StateFault::Memory(lack),
            JobFault::PixelMemory { .. } | JobFault::Products { .. } => StateFault::Job(cause),
        }
    }
}

impl From<ListFault> for StateFault {
    ghost use Rattle.std.specs.Prelude.{◌≡◌};
    ghost use Rattle.px_state.specs.Refusals.{list_fault};

    ghost from_gives = { λ cause fault. fault ≡ list_fault cause };

    fn from(cause: ListFault) -> Self {
        match cause {
            ListFault::Memory(lack) => StateFault::Memory(lack),
            ListFault::Malformed { .. } | ListFault::Limit { .. } => StateFault::Listing(cause),
        }
    }
}
