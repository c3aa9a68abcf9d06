//! Reading a source to its end.
ghost use Rattle.std.specs.Prelude.{◌≡◌, ◌≤◌, ◌<◌, ◌+◌, ℕ, List, Option, length, OnOk, OnErr, IfOk, IsErrOf, vec_len};
ghost use Rattle.std.specs.Io.KnownBytes.{Consumes, IsAtEnd};
ghost use Rattle.px_num.specs.Want.{want};
ghost use Rattle.px_io.specs.Counts.{Rose};
ghost use Rattle.px_io.specs.Reports.{ConsumesAtMost, IsFrontOf};

use crate::{Failed, Source};
use px_num::Memory;
use std::alloc::{AllocError, Global};

/// Why a source was not read to its end.
#[derive(Debug, Drop, PartialEq, Eq)]
pub enum ReadError {
    /// A read failed.
    Failed,
    /// Memory was wanted for the bytes and not given.
    Memory(Memory),
}

impl From<Failed> for ReadError {
    ghost use Rattle.std.specs.Prelude.{◌≡◌};
    ghost use Rattle.px_io.specs.declared.reading.ReadError.TheVariants.{Failed};

    ghost from_gives = { λ _ error. error ≡ Failed };

    fn from(_: Failed) -> Self {
        ReadError::Failed
    }
}

impl From<AllocError> for ReadError {
    ghost use Rattle.std.specs.Prelude.{◌≡◌};
    ghost use Rattle.px_io.specs.declared.reading.ReadError.TheVariants.{Memory};
    ghost use Rattle.px_num.specs.Want.{want};

    ghost from_gives = { λ _ error. error ≡ Memory want };

    fn from(refused: AllocError) -> Self {
        ReadError::Memory(Memory::from(refused))
    }
}

/// Reads a source to its end, but no more than `limit` bytes, in reads of at most 4096.
///
/// Each read but the last takes a byte. After an error a front of at most `limit` bytes is gone.
pub fn read_whole<S: Source>(
    alloc: Global,
    input: &mut S,
    limit: usize,
) -> Result<Vec<u8>, ReadError>
    ensures taken { IfOk result (λ v. Consumes (S.rest input.old) (S.rest input.new) v.items) }
    ensures bound { IfOk result (λ v. vec_len v ≤ limit) }
    ensures end { IfOk result (λ v. vec_len v < limit → IsAtEnd (S.rest input.new)) }
    ensures front { IfOk result (λ v. IsFrontOf (S.rest input.old) limit v.items) }
    ensures err { OnErr result (ConsumesAtMost (S.rest input.old) (S.rest input.new) limit) }
    ensures failed { IsErrOf result ReadError.Failed →
        Rose (S.faults input.old) (S.faults input.new) }
    ensures calm { OnOk result (S.faults input.new ≡ S.faults input.old) }
    ensures memory { IsErrOf result (ReadError.Memory want) → S.faults input.new ≡ S.faults input.old }
{
    let mut bytes = Vec::new(alloc);
    let mut piece = [0; 4096];
    while bytes.len() < limit {
        let room = piece.len().min(limit - bytes.len());
        let count = read_piece(input, &mut piece[..room], &mut bytes)?;
        if count == 0 {
            return Ok(bytes);
        }
    }
    Ok(bytes)
}

/// Makes one read of at most the length of the piece, and adds what it gave to the bytes.
fn read_piece<S: Source>(
    input: &mut S,
    piece: &mut [u8],
    bytes: &mut Vec<u8>,
) -> Result<usize, ReadError>
    requires { 0 < length piece.old }
    ensures taken { (start : Option (List ℕ)) → Consumes start (S.rest input.old) bytes.old.items →
        OnOk result (Consumes start (S.rest input.new) bytes.new.items) }
    ensures err { (start : Option (List ℕ)) → Consumes start (S.rest input.old) bytes.old.items →
        let limit = vec_len bytes.old + length piece.old in
        OnErr result (ConsumesAtMost start (S.rest input.new) limit) }
    ensures count { IfOk result (λ n.
        (n ≤ length piece.old) × (vec_len bytes.new ≡ vec_len bytes.old + n)) }
    ensures end { IfOk result (λ n. n ≡ 0 → IsAtEnd (S.rest input.new)) }
    ensures failed { IsErrOf result ReadError.Failed →
        Rose (S.faults input.old) (S.faults input.new) }
    ensures calm { OnOk result (S.faults input.new ≡ S.faults input.old) }
    ensures memory { IsErrOf result (ReadError.Memory want) → S.faults input.new ≡ S.faults input.old }
{
    let count = input.read(piece)?;
    bytes.extend_from_slice(&piece[..count])?;
    Ok(count)
}
