//! Image files in the raw form of Netpbm's pixel maps.
ghost use Rattle.std.specs.Prelude.{◌≡◌, ◌+◌, ◌*◌, ◌^◌, ◌<◌, ◌≤◌, ℕ, List, OnErr, OnOk, take};
ghost use Rattle.arrayvec.specs.ArrayVec.{array_vec_len};
ghost use Rattle.px_io.specs.Counts.{HasCause};
ghost use Rattle.px_io.specs.Reports.{SinkState, TakesAll, TakesFront};
ghost use Rattle.px_array.specs.Arrays.{IsOpen};
ghost use Rattle.px_sched.specs.Layouts.{need_of};
ghost use Rattle.px_frame.specs.MeanSums.{HoldsShown};
ghost use Rattle.px_frame.specs.Picture.{header, row_of_pixels, three_bytes};
ghost use Rattle.px_frame.specs.Stored.{HasColumns, HasRows, doublings_of, field_image};
ghost use Rattle.px_frame.specs.Stored.{shown_pixel, stored_image};
ghost use Rattle.px_frame.specs.Strips.{strip_number};
ghost use Rattle.px_frame.specs.Waiting.{TakesAllBut};

use crate::plane::{Plane, across_of, field_of, shown_pixel, side_shown};
use crate::strip::Strip;
use arrayvec::{ArrayString, ArrayVec};
use itoa::Buffer;
use px_array::Array;
use px_io::{Failed, Sink, write_whole};
use px_macro::Field;
use px_model::{MAX_PICTURE_SIZE, Scene};
use px_sched::Layout;

/// So many bytes are gathered before they are written: who reads a pipe takes each of its pieces by itself.
const MAX_WAITING: usize = 16384;

/// Three bytes a pixel, for the widest picture.
const ROW_BYTES: usize = 3 * MAX_PICTURE_SIZE as usize;

/// Appends one image of what the array stores to the sink, or a front of it where a write fails
/// (docs/PICTURE.md, "Images"). The sink is not finished.
pub fn write_picture<A: Array, O: Sink>(
    array: &A,
    layout: &Layout,
    scene: &Scene,
    plane: Plane,
    out: &mut O,
) -> Result<(), Failed>
    requires open { IsOpen (A.view array.now).device }
    requires columns { HasColumns scene.now (A.view array.now).device.state }
    requires rows { HasRows scene.now (A.view array.now).device.state }
    requires room { need_of layout.now ≤ A.BITS }
    ensures ok { OnOk result (TakesAll (O.state out.old) (O.state out.new)
        (stored_image scene.now layout.now (A.view array.now).device.state plane)) }
    ensures err { OnErr result (TakesFront (O.state out.old) (O.state out.new)
        (stored_image scene.now layout.now (A.view array.now).device.state plane)) }
    ensures cause { HasCause (O.state out.old).faults (O.state out.new).faults result }
{
    write_rows(array, field_of(plane, layout), scene, plane, out)
}

/// Appends one image of the numbers that the array stores in a field of at most 24 bits, which are shown as those
/// of this plane are.
pub fn write_rows<A: Array, O: Sink>(
    array: &A,
    field: Field,
    scene: &Scene,
    plane: Plane,
    out: &mut O,
) -> Result<(), Failed>
    requires open { IsOpen (A.view array.now).device }
    requires columns { HasColumns scene.now (A.view array.now).device.state }
    requires rows { HasRows scene.now (A.view array.now).device.state }
    requires room { field.at + field.len ≤ A.BITS }
    requires low { field.at ≤ 256 }
    requires few { field.len ≤ 24 }
    ensures ok { OnOk result (TakesAll (O.state out.old) (O.state out.new)
        (field_image scene.now field (A.view array.now).device.state plane)) }
    ensures err { OnErr result (TakesFront (O.state out.old) (O.state out.new)
        (field_image scene.now field (A.view array.now).device.state plane)) }
    ensures cause { HasCause (O.state out.old).faults (O.state out.new).faults result }
{
    let width = side_shown(plane, scene.width());
    let height = side_shown(plane, scene.height());
    let header = header(width, height);
    let mut waiting = ArrayVec::new();
    let text = header.as_str().as_bytes();
    waiting.try_extend_from_slice(text).unwrap();
    let across = across_of(plane);
    let mut strip = Strip::new();
    for y in 0..height {
        strip.enter_row(array, field, scene.width(), across * y);
        let row = row_bytes(&strip, scene, plane, width, y);
        make_room(out, &mut waiting, 3 * width as usize)?;
        waiting
            .try_extend_from_slice(&row[..3 * width as usize])
            .unwrap();
    }
    write_whole(out, waiting.as_slice())?;
    Ok(())
}

/// Writes the bytes that wait, where so many more have no room behind them.
#[tactic(auto, using(crate::proofs::RowLaws::none_waits))]
fn make_room<O: Sink>(
    out: &mut O,
    waiting: &mut ArrayVec<u8, MAX_WAITING>,
    more: usize,
) -> Result<(), Failed>
    requires { more ≤ MAX_WAITING }
    ensures ok { (before : SinkState) (bytes : List ℕ) →
        TakesAllBut waiting.old.items before (O.state out.old) bytes →
        OnOk result (TakesAllBut waiting.new.items before (O.state out.new) bytes) }
    ensures room { OnOk result (array_vec_len waiting.new + more ≤ MAX_WAITING) }
    ensures err { (before : SinkState) (bytes : List ℕ) →
        TakesAllBut waiting.old.items before (O.state out.old) bytes →
        OnErr result (TakesFront before (O.state out.new) bytes) }
    ensures cause { HasCause (O.state out.old).faults (O.state out.new).faults result }
{
    if waiting.remaining_capacity() < more {
        write_whole(out, waiting.as_slice())?;
        waiting.clear();
    }
    Ok(())
}

/// The three lines before the pixels of an image.
#[tactic(auto, unfolding(crate::specs::Picture::header))]
pub fn header(width: u32, height: u32) -> ArrayString<128>
    ensures { result.bytes ≡ header width height }
{
    let mut digits = Buffer::new();
    let mut text = ArrayString::new();
    text.push_str("P6\n");
    text.push_str(digits.format(width));
    text.push_str(" ");
    text.push_str(digits.format(height));
    text.push_str("\n255\n");
    text
}

/// The pixels of row `y`, from the left, and then zeros.
///
/// Each byte has a place of its own: bytes that are appended would wait for the length that the last one left.
fn row_bytes(strip: &Strip, scene: &Scene, plane: Plane, width: u32, y: u32) -> [u8; ROW_BYTES]
    requires across { 2 ^ doublings_of plane * width ≤ scene.now.width }
    requires holds { HoldsShown scene.now plane strip.now y }
    ensures { take (3 * width) result
        ≡ row_of_pixels width (shown_pixel scene.now plane (strip_number strip.now)) y }
{
    let mut bytes = [0; ROW_BYTES];
    for x in 0..width {
        let pixel = shown_pixel(plane, scene, strip, x, y);
        let at = 3 * x as usize;
        bytes[at] = pixel[0];
        bytes[at + 1] = pixel[1];
        bytes[at + 2] = pixel[2];
    }
    bytes
}

/// A number as one pixel of an image, its highest byte first.
#[tactic(auto, unfolding(crate::specs::Picture::three_bytes))]
pub fn three_bytes(number: u32) -> [u8; 3]
    requires { number < 2 ^ 24 }
    ensures { result ≡ three_bytes number }
{
    [
        (number / 65536) as u8,
        (number / 256 % 256) as u8,
        (number % 256) as u8,
    ]
}
