//! How the words of a state are laid out for a grid.
ghost use Rattle.std.specs.Prelude.{◌≡◌, ◌≤◌, ◌<◌, ◌+◌, ◌*◌, ◌^◌, ℕ, nat_lt};
ghost use Rattle.px_num.specs.Bits.{nat_bit};
ghost use Rattle.px_tree.specs.Nodes.{IsGrid};
ghost use Rattle.px_state.specs.Words.{node_words, plane_words, row_words};

use crate::words::{node_words, plane_words};
use px_num::power;
use px_planes::full_word;

/// The grid of a state, and how many words its parts have. The type keeps that the numbers are those of the grid.
#[derive(Clone, Copy)]
pub(crate) struct Shape {
    pub(crate) bits: usize,
    pub(crate) nx: u32,
    pub(crate) ny: u32,
    /// How many words a plane has.
    pub(crate) plane: usize,
    /// How many words the outputs of the nodes have, and as many their carries.
    pub(crate) nodes: usize,
    /// A word with 1 where a pixel stands.
    pub(crate) full: u64,
    ghost few_bits: { bits ≤ 256 },
    ghost grid: { IsGrid nx ny },
    ghost plane_is: { plane ≡ plane_words nx ny },
    ghost few_words: { plane ≤ 2 ^ 12 },
    ghost nodes_are: { nodes ≡ node_words nx ny },
    ghost few_nodes: { nodes ≤ 2 ^ 13 },
    ghost full_is: { (c i : ℕ) → c < row_words nx → i < 64 → nat_bit full i ≡ nat_lt (64 * c + i) (2 ^ nx) },
}

impl Shape {
    #[tactic(auto, using(crate::proofs::ShapeLemmas::full_law))]
    pub(crate) fn of(bits: usize, nx: u32, ny: u32) -> Shape
        requires bits { bits ≤ 256 }
        requires grid { IsGrid nx ny }
        ensures bits { result.bits ≡ bits }
        ensures columns { result.nx ≡ nx }
        ensures rows { result.ny ≡ ny }
    {
        Shape {
            bits,
            nx,
            ny,
            plane: plane_words(nx, ny),
            nodes: node_words(nx, ny),
            full: full_word(power(nx)),
        }
    }

    /// Where the words of a plane begin, and behind those of the last plane the words of the nodes.
    pub(crate) fn start(&self, plane: usize) -> usize
        requires plane { plane ≤ self.now.bits + 4 }
        ensures start { result ≡ plane * self.now.plane }
        ensures few { result ≤ 2 ^ 21 }
    {
        plane * self.plane
    }
}
