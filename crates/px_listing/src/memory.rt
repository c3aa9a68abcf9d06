//! Printing the memory of every pixel of an array.
ghost use Rattle.std.specs.Prelude.{◌≡◌, ◌<◌, ◌≤◌, ◌^◌, ◌++◌, OnErr, OnOk};
ghost use Rattle.px_array.specs.Arrays.{HasPixel, IsOpen, pixel_of};
ghost use Rattle.px_asm.specs.Microprograms.{bits_of};
ghost use Rattle.px_io.specs.Counts.{HasCause};
ghost use Rattle.px_io.specs.Reports.{TakesAll, TakesFront};
ghost use Rattle.px_listing.specs.Memories.{bit_digit as digit_of, digits_of, memory_text, line_of_pixel, row_lines};
ghost use Rattle.px_listing.specs.Pieces.{Puts};

use crate::piece::{Piece, flush, put};
use arrayvec::ArrayString;
use itoa::Buffer;
use px_array::Array;
use px_io::{Failed, Sink};
use px_num::power;

/// Writes a line for each pixel of an array: its memory bits and its enable register, the rows from
/// the top (docs/LISTINGS.md, "Memory").
///
/// After `Failed` a front of the lines was written. The sink is not finished.
pub fn write_memory<A: Array, O: Sink>(array: &A, out: &mut O) -> Result<(), Failed>
    requires is_open { IsOpen (A.view array.now).device }
    requires few { A.BITS ≤ 256 }
    ensures ok { OnOk result (TakesAll (O.state out.old) (O.state out.new)
        (memory_text A.BITS (A.view array.now).device.state)) }
    ensures err { OnErr result (TakesFront (O.state out.old) (O.state out.new)
        (memory_text A.BITS (A.view array.now).device.state)) }
    ensures cause { HasCause (O.state out.old).faults (O.state out.new).faults result }
{
    let (nx, ny) = array.size();
    let mut piece = Piece::new();
    for y in 0..power(ny) as u32 {
        put_row(array, power(nx) as u32, y, out, &mut piece)?;
    }
    flush(out, &mut piece)
}

/// The lines of a row, from the left.
fn put_row<A: Array, O: Sink>(
    array: &A,
    columns: u32,
    y: u32,
    out: &mut O,
    piece: &mut Piece,
) -> Result<(), Failed>
    requires is_open { IsOpen (A.view array.now).device }
    requires few { A.BITS ≤ 256 }
    requires columns { columns ≡ 2 ^ (A.view array.now).device.state.tree.nx }
    requires row { y < 2 ^ (A.view array.now).device.state.tree.ny }
    ensures ok { OnOk result (Puts (O.state out.old) (O.state out.new) piece.old.bytes
        (row_lines A.BITS columns (λ x y. bits_of (pixel_of (A.view array.now).device.state x y)) y)
        piece.new.bytes) }
    ensures err { OnErr result (TakesFront (O.state out.old) (O.state out.new) (piece.old.bytes
        ++ row_lines A.BITS columns (λ x y. bits_of (pixel_of (A.view array.now).device.state x y)) y)) }
    ensures cause { HasCause (O.state out.old).faults (O.state out.new).faults result }
{
    for x in 0..columns {
        put(out, piece, pixel_line(array, x, y).as_str())?;
    }
    Ok(())
}

/// The line of a pixel.
#[tactic(auto, unfolding(crate::specs::Memories::line_of_pixel))]
fn pixel_line<A: Array>(array: &A, x: u32, y: u32) -> ArrayString<320>
    requires pixel { HasPixel (A.view array.now).device x y }
    requires few { A.BITS ≤ 256 }
    ensures { result.bytes ≡ line_of_pixel A.BITS x y (bits_of (pixel_of (A.view array.now).device.state x y)) }
{
    let mut digits = Buffer::new();
    let mut line = ArrayString::new();
    line.push_str("pixel ");
    line.push_str(digits.format(x));
    line.push_str(" ");
    line.push_str(digits.format(y));
    line.push_str(" m ");
    line.push_str(memory_digits(array, x, y).as_str());
    line.push_str(" e ");
    line.push_str(digit(array.registers(x, y).enable));
    line.push_str("\n");
    line
}

/// The memory bits of a pixel, from bit 0 on.
fn memory_digits<A: Array>(array: &A, x: u32, y: u32) -> ArrayString<256>
    requires pixel { HasPixel (A.view array.now).device x y }
    requires few { A.BITS ≤ 256 }
    ensures { result.bytes ≡ digits_of A.BITS (pixel_of (A.view array.now).device.state x y).memory }
{
    let mut text = ArrayString::new();
    for at in 0..A::BITS {
        text.push_str(digit(array.bit(x, y, at as u32)));
    }
    text
}

/// A bit as a digit.
fn digit(bit: bool) -> &'static str
    ensures { result.now ≡ digit_of bit }
{
    if bit { "1" } else { "0" }
}
