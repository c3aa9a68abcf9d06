//! Reading an input until its scene part is whole.
ghost use Rattle.std.specs.Prelude.{◌≡◌, ◌+◌, ◌-◌, ◌<◌, ◌≤◌, Option, None, length, take, OnOk, OnErr, IfOk, IsErrOf, vec_len};
ghost use Rattle.std.specs.Io.KnownBytes.{Consumes, IsAtEnd};
ghost use Rattle.px_num.specs.Want.{want};
ghost use Rattle.px_io.specs.Counts.{Rose};
ghost use Rattle.px_io.specs.Reports.{ConsumesAtMost};
ghost use Rattle.px_asked.specs.Hearings.{HearingBegun, Heard, Waits};
ghost use Rattle.px_asked.specs.Listenings.{ListenedTo, Listens};
ghost use Rattle.px_asked.specs.Parts.{part_end};
ghost use Rattle.px_asked.specs.Readings.{TookNoPart};

use crate::asks::Asks;
use crate::search::Search;
use px_io::{ReadError, Sink};
use std::alloc::Global;

/// What was read of an input, and where its scene part ends in it.
#[derive(Drop)]
pub struct Opening {
    /// The bytes that were read.
    pub text: Vec<u8>,
    /// How many of them are the scene part, where it is whole.
    pub part: Option<usize>,
}

/// Reads an input until its scene part is whole, or to its end, in reads of at most 4096 bytes, each
/// in the sight of a sink to which nothing is written.
///
/// No more than `limit` bytes are taken, and the part is looked for in all but the last of these.
/// Once it is whole nothing more is read.
pub fn read_part<S: Asks<O>, O: Sink>(
    alloc: Global,
    input: &mut S,
    out: &O,
    limit: usize,
) -> Result<Opening, ReadError>
    requires some { 0 < limit }
    ensures taken { IfOk result (λ o. Consumes (S.rest input.old) (S.rest input.new) o.text.items) }
    ensures bound { IfOk result (λ o. vec_len o.text ≤ limit) }
    ensures part { IfOk result (λ o. o.part ≡ part_end (take (limit - 1) o.text.items)) }
    ensures end { IfOk result (λ o. o.part ≡ None → vec_len o.text < limit →
        IsAtEnd (S.rest input.new)) }
    ensures failed { IsErrOf result ReadError.Failed →
        TookNoPart (S.rest input.old) (S.rest input.new) limit }
    ensures err { OnErr result (ConsumesAtMost (S.rest input.old) (S.rest input.new) limit) }
    ensures rose { IsErrOf result ReadError.Failed →
        Rose (S.faults input.old) (S.faults input.new) }
    ensures calm { OnOk result (S.faults input.new ≡ S.faults input.old) }
    ensures memory { IsErrOf result (ReadError.Memory want) → S.faults input.new ≡ S.faults input.old }
    ensures listens { IfOk result (λ o. Listens limit (S.asks input.old) (S.asks input.new)
        (O.state out.now).written o.text.items) }
    ensures listened { OnErr result (ListenedTo limit (S.asks input.old) (S.asks input.new)
        (O.state out.now).written (S.rest input.old) (S.rest input.new)) }
{
    let mut text = Vec::new(alloc);
    let mut piece = [0; 4096];
    let mut search = Search::start();
    while text.len() < limit {
        let room = piece.len().min(limit - text.len());
        let count = read_piece(input, out, &mut piece[..room], &mut text)?;
        let part = search.find(&text[..text.len().min(limit - 1)]);
        if count == 0 || part.is_some() {
            return Ok(Opening { text, part });
        }
    }
    Ok(Opening { text, part: None })
}

/// Makes one read of at most the length of the piece, and adds what it gave to the bytes.
fn read_piece<S: Asks<O>, O: Sink>(
    input: &mut S,
    out: &O,
    piece: &mut [u8],
    bytes: &mut Vec<u8>,
) -> Result<usize, ReadError>
    requires { 0 < length piece.old }
    ensures heard { (begun : HearingBegun) → Waits begun (S.asks input.old) (S.rest input.old)
        (O.state out.now).written bytes.old.items →
        OnOk result (Heard begun (S.asks input.new) (S.rest input.new) (O.state out.now).written
        bytes.new.items) }
    ensures bytes { OnOk result (take (vec_len bytes.old) bytes.new.items ≡ bytes.old.items) }
    ensures failed { (begun : HearingBegun) → Heard begun (S.asks input.old) (S.rest input.old)
        (O.state out.now).written bytes.old.items →
        IsErrOf result ReadError.Failed → Consumes begun.rest (S.rest input.new) bytes.old.items }
    ensures err { (begun : HearingBegun) → Heard begun (S.asks input.old) (S.rest input.old)
        (O.state out.now).written bytes.old.items →
        OnErr result (ConsumesAtMost begun.rest (S.rest input.new)
        (vec_len bytes.old + length piece.old)) }
    ensures count { IfOk result (λ n.
        (n ≤ length piece.old) × (vec_len bytes.new ≡ vec_len bytes.old + n)) }
    ensures end { IfOk result (λ n. n ≡ 0 → IsAtEnd (S.rest input.new)) }
    ensures rose { IsErrOf result ReadError.Failed →
        Rose (S.faults input.old) (S.faults input.new) }
    ensures calm { OnOk result (S.faults input.new ≡ S.faults input.old) }
    ensures memory { IsErrOf result (ReadError.Memory want) → S.faults input.new ≡ S.faults input.old }
    ensures listened { (begun : HearingBegun) → Waits begun (S.asks input.old) (S.rest input.old)
        (O.state out.now).written bytes.old.items →
        OnErr result (ListenedTo begun.limit begun.asks (S.asks input.new) (O.state out.now).written
        begun.rest (S.rest input.new)) }
{
    let count = input.ask(out, piece)?;
    bytes.extend_from_slice(&piece[..count])?;
    Ok(count)
}
