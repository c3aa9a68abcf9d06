//! The lines of the nodes in the first four words of a heap, where levels 1 to 7 stand together.
ghost use Rattle.std.specs.Prelude.{◌≡◌, ◌≤◌, length, IfOk};
ghost use Rattle.px_plane_tree.specs.Heap.{HasLines};
ghost use Rattle.px_plane_tree.specs.Trees.{AreHeads};

use crate::heap::line_word;
use px_num::Memory;
use std::alloc::Global;

/// The lines for each choice of a and b; the levels of line b begin at place `first_b`.
#[derive(Drop)]
pub struct Heads {
    pub first_b: usize,
    pub none: Vec<u64>,
    pub only_a: Vec<u64>,
    pub only_b: Vec<u64>,
    pub both: Vec<u64>,
}

impl Heads {
    pub fn new(alloc: Global, first_b: usize) -> Result<Heads, Memory>
        ensures first_b { IfOk result (λ heads. heads.first_b ≡ first_b) }
        ensures lines { IfOk result AreHeads }
    {
        let none = head_words(alloc, first_b, false, false)?;
        let only_a = head_words(alloc, first_b, true, false)?;
        let only_b = head_words(alloc, first_b, false, true)?;
        let both = head_words(alloc, first_b, true, true)?;
        Ok(Heads {
            first_b,
            none,
            only_a,
            only_b,
            both,
        })
    }

    /// The lines for these a and b.
    #[inline(always)]
    pub fn of(&self, a: bool, b: bool) -> &[u64]
        requires { AreHeads self.now }
        ensures room { 4 ≤ length result.now }
        ensures lines { HasLines a b self.now.first_b result.now }
    {
        if a {
            if b { &self.both } else { &self.only_a }
        } else if b {
            &self.only_b
        } else {
            &self.none
        }
    }
}

/// The lines for one choice of a and b.
fn head_words(alloc: Global, first_b: usize, a: bool, b: bool) -> Result<Vec<u64>, Memory>
    ensures long { IfOk result (λ lines. length lines.items ≡ 4) }
    ensures lines { IfOk result (λ lines. HasLines a b first_b lines.items) }
{
    let mut lines = Vec::new(alloc);
    for w in 0..4 {
        lines.push(line_word(first_b, w, a, b))?;
    }
    Ok(lines)
}
