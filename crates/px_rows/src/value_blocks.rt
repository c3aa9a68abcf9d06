//! The values of a form at the 512 pixels of a block of eight words.
ghost use Rattle.std.specs.Prelude.{◌≡◌, ◌≢◌, ◌<◌, ◌≤◌, ◌+◌, ◌*◌, ◌/◌, ◌%◌, ◌^◌, ℕ, [], length};
ghost use Rattle.std.specs.Prelude.{slice_index, slice_index_or};
ghost use Rattle.px_num.specs.Forms.{IsInTreeRange, value_at};
ghost use Rattle.px_rows.specs.ValueBlocks.{IsPut};
ghost use Rattle.px_rows.specs.Lanes.{AreBlockValues, HasValue, offset};

use crate::values::{offsets, word_values};
use px_num::Linear;

/// The words of a block. It has whole columns, whatever the height of the grid.
pub const BLOCK: usize = 8;

/// Makes words the values at the 512 pixels of the first block, in so many bits: a bit has eight
/// words.
pub fn block_values(form: &Linear, ny: u32, words: &mut [[u64; 8]])
    requires range { IsInTreeRange form.now }
    requires rows { ny ≤ 9 }
    requires few { length words.old ≤ 40 }
    ensures words { length words.new ≡ length words.old }
    ensures value { AreBlockValues form.now ny 0 (length words.old) words.new }
{
    let mut room = [0; 40];
    let lanes = &mut room[..words.len()];
    offsets(form, ny, lanes);
    for k in 0..BLOCK {
        put_word_values(form, ny, k, lanes, words);
    }
}

/// How much greater a value is at a pixel than at that of the block before.
pub fn block_step(form: &Linear, ny: u32) -> i64
    requires range { IsInTreeRange form.now }
    requires rows { ny ≤ 9 }
    ensures { result ≡ offset form.now ny 512 }
{
    let steps = Linear { c: 0, ..*form };
    let height = 1 << ny;
    steps.value(512 / height, 512 % height)
}

/// Makes word `k` of each bit the values of a form at the pixels of word `k`.
fn put_word_values(form: &Linear, ny: u32, k: usize, lanes: &[u64], words: &mut [[u64; 8]])
    requires range { IsInTreeRange form.now }
    requires rows { ny ≤ 9 }
    requires word { k < 8 }
    requires few { length words.old ≤ 40 }
    requires long { length lanes.now ≡ length words.old }
    requires lanes { (j : ℕ) → j < 64 → HasValue lanes.now j (offset form.now ny j) }
    ensures words { length words.new ≡ length words.old }
    ensures put { IsPut k (λ j. value_at form.now ((64 * k + j) / 2 ^ ny) ((64 * k + j) % 2 ^ ny))
        words.old words.new }
{
    let mut room = [0; 40];
    let values = &mut room[..words.len()];
    word_values(form, ny, k, lanes, values);
    put_words(k, values, words);
}

/// Makes word `k` of each bit one of these words.
fn put_words(k: usize, values: &[u64], words: &mut [[u64; 8]])
    requires word { k < 8 }
    requires long { length values.now ≡ length words.old }
    ensures words { length words.new ≡ length words.old }
    ensures here { (t : ℕ) → t < length words.old
        → slice_index (slice_index_or words.new t []) k ≡ slice_index values.now t }
    ensures beside { (t i : ℕ) → t < length words.old → i ≢ k
        → slice_index (slice_index_or words.new t []) i ≡ slice_index (slice_index_or words.old t []) i }
{
    for t in 0..words.len() {
        words[t][k] = values[t];
    }
}
