//! What is done to the 64 pixels of one word.
ghost use Rattle.std.specs.Prelude.{◌≡◌, ℕ, ◌<◌, ◌≤◌, ◌+◌, ◌*◌, ◌/◌, ◌%◌, length, slice_index};
ghost use Rattle.px_num.specs.Bits.{bit_at, nat_bit};
ghost use Rattle.px_array.specs.Acts.{kept, stored};
ghost use Rattle.px_planes.specs.Operations.{IsWorked, stored_bits};
ghost use Rattle.px_planes.specs.Pixels.{HasWords, pixel_in};

use crate::planes::Planes;
use px_rows::chosen_word;

/// Stores the word's bits at a place of the memory, where the pixels are enabled.
#[inline(always)]
pub(crate) fn put_word(planes: &mut Planes, at: usize, w: usize, value: u64)
    requires words { HasWords (length planes.old.enable) planes.old }
    requires place { at < length planes.old.memory.items }
    requires word { w < length planes.old.enable }
    ensures { IsWorked w (length planes.old.enable) (λ p x. stored at (nat_bit value (p % 64)) x)
        planes.old planes.new }
{
    let mask = planes.enable.word(w);
    let old = planes.memory[at].word(w);
    planes.memory[at].set_word(w, chosen_word(old, value, mask));
}

/// Keeps the pixels enabled where the mask is 1.
#[inline(always)]
pub(crate) fn keep_word(planes: &mut Planes, w: usize, mask: u64)
    requires words { HasWords (length planes.old.enable) planes.old }
    requires word { w < length planes.old.enable }
    ensures { IsWorked w (length planes.old.enable) (λ p x. kept (nat_bit mask (p % 64)) x)
        planes.old planes.new }
{
    let word = planes.enable.word(w);
    planes.enable.set_word(w, word & mask);
}

/// Stores bits from a place of the memory on, where the pixels are enabled.
#[inline(always)]
pub(crate) fn store_words(planes: &mut Planes, at: u32, w: usize, values: &[u64])
    requires words { HasWords (length planes.old.enable) planes.old }
    requires room { at + length values.now ≤ length planes.old.memory.items }
    requires word { w < length planes.old.enable }
    ensures { IsWorked w (length planes.old.enable) (λ p x. stored_bits at
        (λ t. nat_bit (slice_index values.now t) (p % 64)) (length values.now) x)
        planes.old planes.new }
{
    for t in 0..values.len() {
        put_word(planes, at as usize + t, w, values[t]);
    }
}

/// The bits of a word's pixels at a place of the memory.
#[inline(always)]
#[tactic(auto, using(std::proofs::lemmas::List::get_or_default, crate::proofs::OperationLemmas::bit_of_word))]
pub(crate) fn memory_word(planes: &Planes, at: usize, w: usize) -> u64
    requires words { HasWords (length planes.now.enable) planes.now }
    requires place { at < length planes.now.memory.items }
    requires word { w < length planes.now.enable }
    ensures { (p : ℕ) → p < 64 * length planes.now.enable → p / 64 ≡ w
        → nat_bit result (p % 64) ≡ bit_at (pixel_in planes.now p).memory at }
{
    planes.memory[at].word(w)
}

/// Reads bits from a place of the memory on.
#[inline(always)]
pub(crate) fn read_words(planes: &Planes, at: u32, w: usize, values: &mut [u64])
    requires words { HasWords (length planes.now.enable) planes.now }
    requires room { at + length values.old ≤ length planes.now.memory.items }
    requires word { w < length planes.now.enable }
    ensures words { length values.new ≡ length values.old }
    ensures bits { (t p : ℕ) → t < length values.old → p < 64 * length planes.now.enable → p / 64 ≡ w
        → nat_bit (slice_index values.new t) (p % 64) ≡ bit_at (pixel_in planes.now p).memory (at + t) }
{
    for t in 0..values.len() {
        values[t] = planes.memory[at as usize + t].word(w);
    }
}
