//! Two words of a row as a vector.
ghost use Rattle.std.specs.Prelude.{◌≤◌, ◌+◌, length};
ghost use Rattle.px_plane_tree.specs.Lanes.{IsPart, IsStored};

use std::simd::prelude::*;

/// The two words from `at` on.
#[inline(always)]
pub fn load(row: &[u64], at: usize) -> u64x2
    requires { at + 2 ≤ length row.now }
    ensures { IsPart at row.now result }
{
    u64x2::from_slice(&row[at..])
}

/// The two words from `at` on become these.
#[inline(always)]
pub fn store(row: &mut [u64], at: usize, words: u64x2)
    requires { at + 2 ≤ length row.old }
    ensures { IsStored at words row.old row.new }
{
    words.copy_to_slice(&mut row[at..]);
}
