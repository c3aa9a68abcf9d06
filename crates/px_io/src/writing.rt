//! Writing a piece whole.
ghost use Rattle.std.specs.Prelude.{OnOk, OnErr};
ghost use Rattle.px_io.specs.Counts.{HasCause};
ghost use Rattle.px_io.specs.Reports.{TakesAll, TakesFront};

use crate::{Failed, Sink};

/// Writes until all of the bytes are taken. After `Failed` a front of them was, and the sink is not
/// finished behind it.
pub fn write_whole<O: Sink>(out: &mut O, bytes: &[u8]) -> Result<(), Failed>
    ensures ok { OnOk result (TakesAll (O.state out.old) (O.state out.new) bytes.now) }
    ensures err { OnErr result (TakesFront (O.state out.old) (O.state out.new) bytes.now) }
    ensures cause { HasCause (O.state out.old).faults (O.state out.new).faults result }
{
    let mut at = 0;
    while at < bytes.len() {
        let count = out.write(&bytes[at..])?;
        if count == 0 {
            return Err(Failed);
        }
        at += count;
    }
    Ok(())
}
