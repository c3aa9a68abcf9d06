//! Where bytes come from.
ghost use Rattle.std.specs.Prelude.{◌<◌, ℕ, List, Option, length};
ghost use Rattle.std.specs.Io.{ReadsAtMost};
ghost use Rattle.std.specs.Io.KnownBytes.{ReadConsumes};
ghost use Rattle.px_io.specs.Counts.{HasCause};

use crate::Failed;

/// A source of bytes, which is read to its end.
pub trait Source {
    /// The bytes still to come, where the source reports them.
    ghost rest: { Self → Option (List ℕ) };

    /// How often a call failed. It never falls.
    ghost faults: { Self → ℕ };

    /// Reads the next bytes into the front of `buf`, which is not empty, and says how many.
    ///
    /// `Ok(0)` is the end of input. After `Failed` none was taken, and the buffer may hold any bytes.
    fn read(&mut self, buf: &mut [u8]) -> Result<usize, Failed>
        requires { 0 < length buf.old }
        ensures bound { ReadsAtMost result buf.new }
        ensures bytes { ReadConsumes (rest self.old) (rest self.new) result buf.new }
        ensures cause { HasCause (faults self.old) (faults self.new) result };
}
