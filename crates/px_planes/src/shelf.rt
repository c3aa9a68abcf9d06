//! Room for rows of words, which is filled only where something is kept there.
ghost use Rattle.std.specs.Prelude.{◌≡◌, ◌+◌, ◌*◌, ◌<◌, ◌≤◌, ◌++◌, ℕ, [], IfOk, length};
ghost use Rattle.std.specs.Prelude.{slice_index};

use px_num::Memory;
use std::alloc::Global;
use std::marker::Model;

/// So many words at most. No page of its memory is touched before words are put there.
#[derive(Drop)]
pub struct Shelf {
    words: Vec<u64>,
    room: usize,
}

impl Model for Shelf {
    ghost use Rattle.std.specs.Prelude.{◌≤◌, vec_capacity};
    ghost use Rattle.px_planes.specs.Shelves.{ShelfView};

    ghost Value = { ShelfView };

    ghost view = { λ s. record { words = s.words.items; room = s.room } };

    ghost invariant = { λ s. s.room ≤ vec_capacity s.words };
}

impl Shelf {
    /// Room for so many words, and none there.
    pub fn new(alloc: Global, room: usize) -> Result<Shelf, Memory>
        ensures { IfOk result (λ shelf. shelf ≡ record { words = []; room = room }) }
    {
        let words = Vec::with_capacity(alloc, room)?;
        Ok(Shelf { words, room })
    }

    /// Leaves no word there.
    pub fn clear(&mut self)
        ensures { self.new ≡ record self.old { words = [] } }
    {
        self.words.clear();
    }

    /// Puts the words of a row behind those that are there.
    pub fn push(&mut self, row: &[u64])
        requires { length self.old.words + length row.now ≤ self.old.room }
        ensures { self.new ≡ record self.old { words = self.old.words ++ row.now } }
    {
        self.words.extend_from_slice(row).unwrap();
    }

    /// Row `at` of rows of so many words each, one behind another.
    pub fn row(&self, at: usize, words: usize) -> &[u64]
        requires { at * words + words ≤ length self.now.words }
        ensures long { length result.now ≡ words }
        ensures words { (j : ℕ) → j < words → slice_index result.now j
            ≡ slice_index self.now.words (at * words + j) }
    {
        &self.words[at * words..at * words + words]
    }
}
