//! How a run ends.
ghost use Rattle.std.specs.Prelude.{◌≡◌};
ghost use Rattle.px_commands.specs.Statuses.{code};

use px_num::Memory;

/// How a run ends (docs/SCENES.md, "Refusals").
#[derive(Debug, Drop, PartialEq, Eq)]
pub enum Status {
    /// The defined output was written and finished.
    Done,
    /// The words of the command line name no command.
    Usage,
    /// The text is bad by its form.
    Malformed,
    /// A number or a count passes its limit.
    Limit,
    /// The input could not be read.
    ReadFault,
    /// The output could not be written.
    WriteFault,
    /// Memory was wanted and not given.
    Memory(Memory),
}

impl Status {
    /// The status with which the process ends.
    pub fn code(self) -> u8
        ensures { result ≡ code self }
    {
        match self {
            Status::Done => 0,
            Status::Usage => 2,
            Status::Malformed => 3,
            Status::Limit => 4,
            Status::ReadFault => 5,
            Status::WriteFault => 6,
            Status::Memory(_) => 7,
        }
    }
}
