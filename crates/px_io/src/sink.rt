//! Where bytes go to.
ghost use Rattle.std.specs.Prelude.{◌≡◌, true, OnOk, OnErr};
ghost use Rattle.std.specs.Io.{WritesAtMost};
ghost use Rattle.std.specs.Io.KnownBytes.{WriteAppends, Keeps};
ghost use Rattle.px_io.specs.Counts.{HasCause, HasWriteCause};
ghost use Rattle.px_io.specs.Reports.{SinkState, Tells, WriteReopens};

use crate::Failed;

/// A sink of bytes, which is finished after the last of them.
pub trait Sink {
    /// The bytes taken so far and whether it is finished, where the sink reports that; and how often a
    /// call failed, or took no byte of a piece that is not empty, which never falls.
    ghost state: { Self → SinkState };

    /// Takes some of the first bytes of `buf`, and says how many.
    ///
    /// `Ok(0)` for a piece that is not empty is a fault, as `Failed` does: none was taken.
    fn write(&mut self, buf: &[u8]) -> Result<usize, Failed>
        ensures bound { WritesAtMost result buf.now }
        ensures bytes { WriteAppends (state self.old).written (state self.new).written result buf.now }
        ensures end { WriteReopens (state self.old).finished (state self.new).finished result }
        ensures cause { HasWriteCause (state self.old).faults (state self.new).faults result buf.now };

    /// Passes on all that was taken. A later byte makes the sink unfinished again.
    fn finish(&mut self) -> Result<(), Failed>
        ensures bytes { Keeps (state self.old).written (state self.new).written }
        ensures ok { OnOk result (Tells (state self.new).finished true) }
        ensures err { OnErr result ((state self.new).finished ≡ (state self.old).finished) }
        ensures cause { HasCause (state self.old).faults (state self.new).faults result };
}
