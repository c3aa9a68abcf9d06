//! Writing a listing.
ghost use Rattle.std.specs.Prelude.{◌≡◌, ◌≤◌, [], ◌++◌, length, OnErr, OnOk};
ghost use Rattle.px_io.specs.Counts.{HasCause};
ghost use Rattle.px_io.specs.Reports.{TakesAll, TakesFront};
ghost use Rattle.px_macro.specs.Macros.{IsLawful};
ghost use Rattle.px_listing.specs.Listings.{canonical_listing, end_line, listing_head, grid_line, header_line, macro_line};
ghost use Rattle.px_listing.specs.Pieces.{Puts};

use crate::kind::{Kind, operands_of};
use crate::line::{Line, line_of};
use crate::listing::Listing;
use crate::piece::{Piece, flush, put};
use px_io::{Failed, Sink};
use px_macro::Macro;

/// Writes the canonical text of a listing (docs/LISTINGS.md, "Canonical text").
///
/// After `Failed` a front of it was written. The sink is not finished.
pub fn write_listing<O: Sink>(listing: &Listing, out: &mut O) -> Result<(), Failed>
    ensures ok { OnOk result (TakesAll (O.state out.old) (O.state out.new) (canonical_listing listing.now)) }
    ensures err { OnErr result (TakesFront (O.state out.old) (O.state out.new) (canonical_listing listing.now)) }
    ensures cause { HasCause (O.state out.old).faults (O.state out.new).faults result }
{
    let mut piece = Piece::new();
    put_first_lines(out, &mut piece, listing.nx, listing.ny)?;
    for m in listing.macros.iter() {
        put(out, &mut piece, macro_line(m).as_str())?;
    }
    put_end(out, &mut piece)
}

/// The header and the grid.
#[tactic(auto, using(crate::proofs::PieceLaws::ok_both))]
pub fn put_first_lines<O: Sink>(
    out: &mut O,
    piece: &mut Piece,
    nx: u32,
    ny: u32,
) -> Result<(), Failed>
    ensures ok { OnOk result (Puts (O.state out.old) (O.state out.new) piece.old.bytes (listing_head nx ny) piece.new.bytes) }
    ensures err { OnErr result (TakesFront (O.state out.old) (O.state out.new) (piece.old.bytes ++ listing_head nx ny)) }
    ensures cause { HasCause (O.state out.old).faults (O.state out.new).faults result }
{
    put(out, piece, header_line())?;
    put(out, piece, grid_line(nx, ny).as_str())
}

#[tactic(auto, unfolding(crate::specs::Listings::header_line))]
fn header_line() -> &'static str
    ensures text { result.now ≡ header_line }
    ensures short { length result.now ≤ 16 }
{
    "pxlist 1\n"
}

fn grid_line(nx: u32, ny: u32) -> Line
    ensures { result.bytes ≡ grid_line nx ny }
{
    line_of("grid", &[i64::from(nx), i64::from(ny)])
}

/// The end of a listing, with which all of it is written.
pub fn put_end<O: Sink>(out: &mut O, piece: &mut Piece) -> Result<(), Failed>
    ensures ok { OnOk result (TakesAll (O.state out.old) (O.state out.new) (piece.old.bytes ++ end_line)) }
    ensures err { OnErr result (TakesFront (O.state out.old) (O.state out.new) (piece.old.bytes ++ end_line)) }
    ensures cause { HasCause (O.state out.old).faults (O.state out.new).faults result }
{
    put(out, piece, line_of("end", &[]).as_str())?;
    flush(out, piece)
}

/// The line of an operation (docs/LISTINGS.md, "Operations").
pub fn macro_line(m: &Macro) -> Line
    requires lawful { IsLawful m.now 256 }
    ensures { result.bytes ≡ macro_line m.now }
{
    line_of(Kind::of(m).word(), operands_of(m).as_slice())
}
