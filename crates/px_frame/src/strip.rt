//! The numbers that eight rows of pixels store in a field, read by words.
ghost use Rattle.std.specs.Prelude.{◌≡◌, ◌≢◌, ◌+◌, ◌*◌, ◌/◌, ◌%◌, ◌^◌, ◌<◌, ◌≤◌, ℕ, [], List, length};
ghost use Rattle.std.specs.Prelude.{get_or, if◌then◌else◌};
ghost use Rattle.px_array.specs.Arrays.{IsOpen, levels_of};
ghost use Rattle.px_array.specs.Words.{memory_bit};
ghost use Rattle.px_macro.specs.Fields.{number_from_bits};
ghost use Rattle.px_num.specs.Bits.{nat_bit};
ghost use Rattle.px_frame.specs.Strips.{HasNumbers, HoldsRow, strip_number};

use arrayvec::ArrayVec;
use px_array::Array;
use px_macro::Field;
use px_model::MAX_PICTURE_SIZE;
use px_tree::leaf_index;
use std::marker::Model;

/// So many rows are read at once: a word has as many pixels of one column, or whole columns.
const ROWS: u32 = 8;

/// A number for each pixel of the rows.
const NUMBERS: usize = ROWS as usize * MAX_PICTURE_SIZE as usize;

/// The numbers that the pixels of eight rows store in a field, column by column.
#[derive(Drop)]
pub struct Strip {
    numbers: ArrayVec<u32, NUMBERS>,
}

impl Model for Strip {
    ghost use Rattle.std.specs.Prelude.{ℕ, List};

    ghost Value = { List ℕ };

    ghost view = { λ s. s.numbers.items };
}

impl Strip {
    /// The numbers of no column.
    pub fn new() -> Strip
        ensures { result ≡ [] }
    {
        Strip {
            numbers: ArrayVec::new(),
        }
    }

    /// Reads the eight rows that row `y` is one of, where it is the first of them: a strip that is
    /// handed over from row to row has the numbers of each.
    pub fn enter_row<A: Array>(&mut self, array: &A, field: Field, width: u32, y: u32)
        requires numbers { HasNumbers A.BITS (A.view array.now).device field width y }
        requires before { y % 8 ≢ 0 → HoldsRow self.old field (A.view array.now).device.state width y }
        ensures { HoldsRow self.new field (A.view array.now).device.state width y }
    {
        if y % ROWS == 0 {
            read_rows(&mut self.numbers, array, field, width, y);
        }
    }

    /// The number of the pixel in column `x` and row `y`.
    pub fn at(&self, x: u32, y: u32) -> u32
        requires column { 8 * x + 8 ≤ length self.now }
        ensures { result ≡ strip_number self.now x y }
    {
        self.numbers[ROWS as usize * x as usize + (y % ROWS) as usize]
    }
}

/// Reads the numbers of so many columns in the eight rows from row `top` on, in place of those that were there.
fn read_rows<A: Array>(
    numbers: &mut ArrayVec<u32, NUMBERS>,
    array: &A,
    field: Field,
    width: u32,
    top: u32,
)
    requires numbers { HasNumbers A.BITS (A.view array.now).device field width top }
    requires first { top % 8 ≡ 0 }
    ensures { HoldsRow numbers.new.items field (A.view array.now).device.state width top }
{
    let (nx, ny) = array.size();
    numbers.clear();
    for x in 0..width {
        let column = eight_numbers(array, field, leaf_index(nx, ny, x, top));
        numbers.try_extend_from_slice(&column).unwrap();
    }
}

/// The numbers in a field of the memories of eight pixels, from a place on.
#[tactic(auto, using(crate::proofs::StripLemmas::moved_bit, crate::proofs::StripLemmas::small_more, px_num::proofs::TruthLaws::power_grows, std::proofs::Common::suc, std::proofs::Common::get_or, std::proofs::Common::subst))]
fn eight_numbers<A: Array>(array: &A, field: Field, place: usize) -> [u32; 8]
    requires is_open { IsOpen (A.view array.now).device }
    requires room { field.at + field.len ≤ A.BITS }
    requires low { field.at ≤ 256 }
    requires few { field.len ≤ 24 }
    requires place { place < 2 ^ levels_of (A.view array.now).device.state.tree }
    ensures numbers { (j : ℕ) → j < 8 → place % 64 + j < 64 → get_or result j 0
        ≡ number_from_bits (λ t. memory_bit (A.view array.now).device.state (field.at + t) (place + j))
        field.len }
    ensures small { (j : ℕ) → j < 8 → get_or result j 0 < 2 ^ field.len }
{
    let mut numbers = [0; 8];
    let mut value = 1;
    for t in 0..field.len {
        let word = array.word(field.at + t, place / 64);
        add_bits(&mut numbers, ((word >> (place % 64)) % 256) as u32, value);
        value *= 2;
    }
    numbers
}

/// Adds a bit to each number, which counts so much.
#[inline(always)]
fn add_bits(numbers: &mut [u32; 8], bits: u32, value: u32)
    requires few { value < 2 ^ 24 }
    requires small { (j : ℕ) → j < 8 → get_or numbers.old j 0 < value }
    ensures { (j : ℕ) → j < 8 → get_or numbers.new j 0
        ≡ get_or numbers.old j 0 + (if nat_bit bits j then value else 0) }
{
    if bits == 0 {
        return;
    }
    for j in 0..8 {
        numbers[j] += bit_value(bits, j, value);
    }
}

/// What bit `j` of eight counts.
#[inline(always)]
fn bit_value(bits: u32, j: usize, value: u32) -> u32
    requires { j < 32 }
    ensures { result ≡ (if nat_bit bits j then value else 0) }
{
    if (bits >> j) & 1 == 1 { value } else { 0 }
}
