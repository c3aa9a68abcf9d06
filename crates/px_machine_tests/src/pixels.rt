//! One pixel: the table of acts, worked by hand.
ghost use Rattle.std.specs.Prelude.{◌<◌, ◌≤◌};
ghost use Rattle.px_array.specs.Acts.{HasPlace};

use px_array::{Act, Pixel};
use std::process::Abort;

/// An act and the bit of the tree; then, as the digits of a number, enable, carry, latch and the bit of
/// memory that the act names, before it and after it.
type Row = (Act, u32, u32, u32);

const ROWS: [Row; 42] = [
    (Act::Nop, 1, 0b0101, 0b0101),
    (Act::Nop, 1, 0b1010, 0b1010),
    (Act::EnableAll, 0, 0b0101, 0b1101),
    (Act::EnableAll, 0, 0b1010, 0b1010),
    (Act::EnableCarry(true), 0, 0b0101, 0b0101),
    (Act::EnableCarry(true), 0, 0b1100, 0b1100),
    (Act::EnableCarry(true), 1, 0b1011, 0b0011),
    (Act::EnableCarry(false), 1, 0b1100, 0b0100),
    (Act::EnableTree(true), 1, 0b0111, 0b0111),
    (Act::EnableTree(true), 1, 0b1000, 0b1000),
    (Act::EnableTree(true), 0, 0b1111, 0b0111),
    (Act::EnableTree(false), 1, 0b1000, 0b0000),
    (Act::EnableBit(0, true), 0, 0b0001, 0b0001),
    (Act::EnableBit(0, true), 0, 0b1001, 0b1001),
    (Act::EnableBit(0, true), 1, 0b1110, 0b0110),
    (Act::EnableBit(0, false), 0, 0b1001, 0b0001),
    (Act::SetCarry(true), 0, 0b0010, 0b0110),
    (Act::SetCarry(false), 1, 0b0101, 0b0001),
    (Act::SetCarry(true), 0, 0b1001, 0b1101),
    (Act::Fetch(0), 0, 0b0101, 0b0111),
    (Act::Fetch(0), 1, 0b1010, 0b1000),
    (Act::StoreTree(0), 1, 0b0000, 0b0000),
    (Act::StoreTree(0), 1, 0b1000, 0b1001),
    (Act::StoreTree(0), 0, 0b1111, 0b1110),
    (Act::StoreLatch(0), 0, 0b0010, 0b0010),
    (Act::StoreLatch(0), 0, 0b1010, 0b1011),
    (Act::StoreLatch(0), 1, 0b1101, 0b1100),
    (Act::StoreConst(0, true), 0, 0b0000, 0b0000),
    (Act::StoreConst(0, true), 0, 0b1100, 0b1101),
    (Act::StoreConst(0, false), 1, 0b1011, 0b1010),
    (Act::Toggle(0), 1, 0b0001, 0b0001),
    (Act::Toggle(0), 0, 0b1001, 0b1000),
    (Act::Toggle(0), 0, 0b1110, 0b1111),
    (Act::CarryTree(0), 0, 0b0011, 0b0111),
    (Act::CarryTree(0), 1, 0b1100, 0b1000),
    (Act::CarryTree(0), 1, 0b1001, 0b1001),
    (Act::CarryLatch(0), 1, 0b0001, 0b0101),
    (Act::CarryLatch(0), 0, 0b1110, 0b1010),
    (Act::AddTree(0), 1, 0b0001, 0b0101),
    (Act::AddTree(0), 1, 0b1001, 0b1100),
    (Act::AddTree(0), 1, 0b1111, 0b1111),
    (Act::AddTree(0), 0, 0b1100, 0b1001),
];

/// The act with the place `at`, where it names one.
fn placed<const N: usize>(act: Act, at: u32) -> Act
    requires { at < N }
    ensures { HasPlace N result }
{
    match act {
        Act::EnableBit(_, v) => Act::EnableBit(at, v),
        Act::Fetch(_) => Act::Fetch(at),
        Act::StoreTree(_) => Act::StoreTree(at),
        Act::StoreLatch(_) => Act::StoreLatch(at),
        Act::StoreConst(_, v) => Act::StoreConst(at, v),
        Act::Toggle(_) => Act::Toggle(at),
        Act::CarryTree(_) => Act::CarryTree(at),
        Act::CarryLatch(_) => Act::CarryLatch(at),
        Act::AddTree(_) => Act::AddTree(at),
        other => other,
    }
}

/// Every row at the place `at`.
fn try_rows<const N: usize>(rt: &impl Abort, at: u32)
    requires bits { N ≤ 256 }
    requires place { at < N }
{
    for (act, tree, before, after) in &ROWS {
        try_row::<N>(rt, placed::<N>(*act, at), *tree, at, *before, *after);
    }
}

/// The act on the pixel of the bits `before`.
fn try_row<const N: usize>(rt: &impl Abort, act: Act, tree: u32, at: u32, before: u32, after: u32)
    requires bits { N ≤ 256 }
    requires place { at < N }
    requires act { HasPlace N act }
{
    let mut pixel = pixel_of::<N>(at, before);
    pixel.act(act, tree == 1);
    let bits = pixel.memory;
    assert!(rt; pixel.enable == has_digit(after, 3));
    assert!(rt; pixel.carry == has_digit(after, 2));
    assert!(rt; pixel.latch == has_digit(after, 1));
    assert!(rt; bits.get(at) == has_digit(after, 0));
    for other in 0..N as u32 {
        let is_kept = other == at || bits.get(other) == (other % 3 == 0);
        assert!(rt; is_kept, "another bit");
    }
}

/// A pixel of the four bits, with 1 at every third of the other places.
fn pixel_of<const N: usize>(at: u32, bits: u32) -> Pixel<N>
    requires bits { N ≤ 256 }
    requires place { at < N }
{
    let mut pixel = Pixel::zero();
    for place in 0..N as u32 {
        pixel.memory.set(place, place % 3 == 0);
    }
    pixel.memory.set(at, has_digit(bits, 0));
    pixel.enable = has_digit(bits, 3);
    pixel.carry = has_digit(bits, 2);
    pixel.latch = has_digit(bits, 1);
    pixel
}

fn has_digit(bits: u32, place: u32) -> bool
    requires { place < 32 }
{
    bits >> place & 1 == 1
}

#[test]
fn act_table(rt: HostRuntime) {
    try_rows::<1>(&rt, 0);
    try_rows::<5>(&rt, 3);
    try_rows::<72>(&rt, 70);
}
