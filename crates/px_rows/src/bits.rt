//! Single bits and parts of rows, and rows that are 0.
ghost use Rattle.std.specs.Prelude.{◌≡◌, ℕ, ◌<◌, ◌≤◌, ◌+◌, ◌-◌, ◌*◌, length, replicate, IfOk};
ghost use Rattle.px_rows.specs.Rows.{row_bit};

use px_num::Memory;
use std::alloc::Global;

/// Bit `p` of a row.
pub fn bit_of_row(row: &[u64], p: usize) -> bool
    requires { p < 64 * length row.now }
    ensures { result ≡ row_bit row.now p }
{
    (row[p / 64] >> (p % 64)) & 1 == 1
}

/// The words from `from` on and below `to`.
pub fn part(row: &[u64], from: usize, to: usize) -> &[u64]
    requires from { from ≤ to }
    requires to { to ≤ length row.now }
    ensures words { length result.now ≡ to - from }
    ensures bits { (p : ℕ) → p < 64 * (to - from) → row_bit result.now p
        ≡ row_bit row.now (64 * from + p) }
{
    &row[from..to]
}

/// So many words that are 0.
pub fn zero_row(alloc: Global, words: usize) -> Result<Vec<u64>, Memory>
    ensures { IfOk result (λ row. row.items ≡ replicate words 0) }
{
    Ok(vec![in alloc; 0; words]?)
}
