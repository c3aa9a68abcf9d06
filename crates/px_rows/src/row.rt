//! One bit of every pixel.
ghost use Rattle.std.specs.Prelude.{◌≡◌, ◌<◌, ◌≤◌, ◌+◌, ◌*◌, ◌/◌, ◌%◌, ◌&&◌, ◌⊎◌, ℕ, cond, not, true};
ghost use Rattle.std.specs.Prelude.{IfOk, length, replicate, slice_index, slice_set};
ghost use Rattle.std.specs.Bool.{beq};
ghost use Rattle.px_num.specs.Bits.{majority, nat_bit, xor};
ghost use Rattle.px_rows.specs.Rows.{EachBit, row_bit};
ghost use Rattle.px_rows.specs.Sums.{value_in, value_on};

use crate::bits::{bit_of_row, zero_row};
use crate::rows::{add_row, choose_row, flip_row, keep_row, majority_row, paint_row};
use crate::sums::add_steps_row;
use px_num::Memory;
use std::alloc::Global;
use std::marker::Model;

/// A row of bits, which contracts see as its words.
#[derive(Drop)]
pub struct Row {
    words: Vec<u64>,
}

impl Model for Row {
    ghost use Rattle.std.specs.Prelude.{ℕ, List};

    ghost Value = { List ℕ };

    ghost view = { λ r. r.words.items };
}

impl Row {
    /// So many words that are 0.
    pub fn zero(alloc: Global, words: usize) -> Result<Row, Memory>
        ensures { IfOk result (λ row. row ≡ replicate words 0) }
    {
        Ok(Row {
            words: zero_row(alloc, words)?,
        })
    }

    pub fn words(&self) -> &[u64]
        ensures { result.now ≡ self.now }
    {
        &self.words
    }

    /// The bit of the pixel at a place.
    pub fn bit(&self, place: usize) -> bool
        requires { place < 64 * length self.now }
        ensures { result ≡ row_bit self.now place }
    {
        bit_of_row(&self.words, place)
    }

    /// The word of the pixels from place `64 * w` on.
    #[inline(always)]
    pub fn word(&self, w: usize) -> u64
        requires { w < length self.now }
        ensures { result ≡ slice_index self.now w }
    {
        self.words[w]
    }

    /// That word becomes another.
    #[inline(always)]
    pub fn set_word(&mut self, w: usize, word: u64)
        requires { w < length self.old }
        ensures { self.new ≡ slice_set self.old w word }
    {
        self.words[w] = word;
    }

    /// Each bit stays 1 where the other is the one that is wanted.
    pub fn keep(&mut self, other: &[u64], want: bool)
        requires { length self.old ≡ length other.now }
        ensures bits { EachBit self.new (λ p. row_bit self.old p && beq
            (row_bit other.now p) want) }
        ensures words { length self.new ≡ length self.old }
    {
        keep_row(&mut self.words, other, want);
    }

    /// The value's bits where the mask's are 1.
    pub fn choose(&mut self, value: &[u64], mask: &[u64])
        requires value { length self.old ≡ length value.now }
        requires mask { length self.old ≡ length mask.now }
        ensures bits { EachBit self.new (λ p. cond (row_bit mask.now p) (row_bit value.now p)
            (row_bit self.old p)) }
        ensures words { length self.new ≡ length self.old }
    {
        choose_row(&mut self.words, value, mask);
    }

    /// Each bit becomes the majority of itself, the other's and the value's turned over.
    pub fn outvote(&mut self, value: &[u64], other: &[u64])
        requires value { length self.old ≡ length value.now }
        requires other { length self.old ≡ length other.now }
        ensures bits { EachBit self.new (λ p. majority (row_bit self.old p)
            (row_bit other.now p) (xor (row_bit value.now p) true)) }
        ensures words { length self.new ≡ length self.old }
    {
        majority_row(&mut self.words, value, other, true);
    }

    /// Adds the value where the mask's bits are 1; the carry takes part everywhere.
    pub fn add(&mut self, carry: &mut Row, value: &[u64], mask: &[u64])
        requires carry { length self.old ≡ length carry.old }
        requires value { length self.old ≡ length value.now }
        requires mask { length self.old ≡ length mask.now }
        ensures bits { EachBit self.new (λ p. cond (row_bit mask.now p) (xor
            (row_bit value.now p) (xor (row_bit self.old p) (row_bit carry.old p)))
            (row_bit self.old p)) }
        ensures carry { EachBit carry.new (λ p. majority (row_bit value.now p)
            (row_bit self.old p) (row_bit carry.old p)) }
        ensures words { length self.new ≡ length self.old }
        ensures carry_words { length carry.new ≡ length carry.old }
    {
        add_row(&mut self.words, &mut carry.words, value, mask);
    }

    /// Adds a value that grows by steps to the words from `at` on, as many as the carries have
    /// (`add_steps_row`).
    #[tactic(auto, using(crate::proofs::PartLemmas::bit_in_part))]
    pub fn add_steps(
        &mut self,
        at: usize,
        first: &mut [u64],
        second: &mut [u64],
        value: &mut [u64; 8],
        step: bool,
        mask: &[u64],
    )
        requires blocks { length first.old % 8 ≡ 0 }
        requires second { length second.old ≡ length first.old }
        requires room { at + length first.old ≤ length self.old }
        requires mask { length mask.now ≡ length self.old }
        ensures inside { (p : ℕ) → p < 64 * length first.old → row_bit self.new (64 * at + p)
            ≡ cond (row_bit mask.now (64 * at + p)) (xor (value_on value.old step first.old p)
            (xor (row_bit self.old (64 * at + p)) (row_bit second.old p)))
            (row_bit self.old (64 * at + p)) }
        ensures outside { (p : ℕ) → (p / 64 < at) ⊎ (at + length first.old ≤ p / 64)
            → row_bit self.new p ≡ row_bit self.old p }
        ensures value { (i : ℕ) → i < 512 → nat_bit (slice_index value.new (i / 64)) (i % 64)
            ≡ value_in value.old step first.old (length first.old / 8) i }
        ensures first { EachBit first.new (λ p. majority (value_on value.old step first.old p) step
            (row_bit first.old p)) }
        ensures second { EachBit second.new (λ p. majority (value_on value.old step first.old p)
            (row_bit self.old (64 * at + p)) (row_bit second.old p)) }
        ensures words { length self.new ≡ length self.old }
        ensures first_words { length first.new ≡ length first.old }
        ensures second_words { length second.new ≡ length second.old }
    {
        let to = at + first.len();
        let words = &mut self.words[at..to];
        add_steps_row(words, first, second, value, step, &mask[at..to]);
    }

    /// The bits where the mask's are 1 become `v`.
    pub fn paint(&mut self, mask: &[u64], v: bool)
        requires { length self.old ≡ length mask.now }
        ensures bits { EachBit self.new (λ p. cond (row_bit mask.now p) v (row_bit self.old p)) }
        ensures words { length self.new ≡ length self.old }
    {
        paint_row(&mut self.words, mask, v);
    }

    /// The bits where the mask's are 1 are turned over.
    pub fn flip(&mut self, mask: &[u64])
        requires { length self.old ≡ length mask.now }
        ensures bits { EachBit self.new (λ p. cond (row_bit mask.now p) (not
            (row_bit self.old p)) (row_bit self.old p)) }
        ensures words { length self.new ≡ length self.old }
    {
        flip_row(&mut self.words, mask);
    }

    /// The bits become those of another row.
    pub fn copy(&mut self, from: &[u64])
        requires { length self.old ≡ length from.now }
        ensures { self.new ≡ from.now }
    {
        self.words.copy_from_slice(from);
    }

    /// Every word becomes this one.
    pub fn fill(&mut self, word: u64)
        ensures { self.new ≡ replicate (length self.old) word }
    {
        self.words.fill(word);
    }
}
