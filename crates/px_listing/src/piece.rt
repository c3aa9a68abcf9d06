//! Lines that wait to be written in larger pieces.
ghost use Rattle.std.specs.Prelude.{◌≡◌, ◌≤◌, ◌+◌, ◌++◌, [], length, OnErr, OnOk};
ghost use Rattle.arrayvec.specs.ArrayString.{array_string_len};
ghost use Rattle.px_io.specs.Counts.{HasCause};
ghost use Rattle.px_io.specs.Reports.{TakesFront};
ghost use Rattle.px_listing.specs.Pieces.{Puts};

use arrayvec::ArrayString;
use px_io::{Failed, Sink, write_whole};

/// How many bytes a write has at most.
pub const PIECE_BYTES: usize = 4096;

/// Bytes that wait to be written.
pub type Piece = ArrayString<PIECE_BYTES>;

/// Writes a line, once enough of them wait.
pub fn put<O: Sink>(out: &mut O, piece: &mut Piece, line: &str) -> Result<(), Failed>
    requires short { length line.now ≤ 4096 }
    ensures ok { OnOk result (Puts (O.state out.old) (O.state out.new) piece.old.bytes line.now piece.new.bytes) }
    ensures err { OnErr result (TakesFront (O.state out.old) (O.state out.new) (piece.old.bytes ++ line.now)) }
    ensures cause { HasCause (O.state out.old).faults (O.state out.new).faults result }
{
    make_room(out, piece, line.len())?;
    piece.push_str(line);
    Ok(())
}

/// Writes what waits, where so many bytes more have no room next to it.
fn make_room<O: Sink>(out: &mut O, piece: &mut Piece, count: usize) -> Result<(), Failed>
    requires short { count ≤ 4096 }
    ensures ok { OnOk result (Puts (O.state out.old) (O.state out.new) piece.old.bytes [] piece.new.bytes) }
    ensures room { OnOk result (array_string_len piece.new + count ≤ 4096) }
    ensures err { OnErr result (TakesFront (O.state out.old) (O.state out.new) piece.old.bytes) }
    ensures cause { HasCause (O.state out.old).faults (O.state out.new).faults result }
{
    if piece.len() + count > PIECE_BYTES {
        flush(out, piece)
    } else {
        Ok(())
    }
}

/// Writes what waits.
pub fn flush<O: Sink>(out: &mut O, piece: &mut Piece) -> Result<(), Failed>
    ensures ok { OnOk result (Puts (O.state out.old) (O.state out.new) piece.old.bytes [] piece.new.bytes) }
    ensures empty { OnOk result (piece.new.bytes ≡ []) }
    ensures err { OnErr result (TakesFront (O.state out.old) (O.state out.new) piece.old.bytes) }
    ensures cause { HasCause (O.state out.old).faults (O.state out.new).faults result }
{
    write_whole(out, piece.as_str().as_bytes())?;
    piece.clear();
    Ok(())
}
