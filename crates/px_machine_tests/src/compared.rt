//! Two arrays side by side: what is not the same ends the test.
ghost use Rattle.std.specs.Prelude.{◌≡◌, ◌≤◌, ◌<◌, ◌^◌};
ghost use Rattle.px_array.specs.Arrays.{HasPixel, IsOpen, levels_of};

use px_array::{Array, Registers};
use px_num::power;
use std::process::Abort;

/// Every bit, register, leaf and node of both arrays is the same, and so are their clocks.
pub(crate) fn compare<A: Array, B: Array>(rt: &impl Abort, one: &A, other: &B) {
    compare_memories(rt, one, other);
    let (nx, ny) = one.size();
    assert!(rt; 1 <= nx);
    for x in 0..power(nx) {
        for y in 0..power(ny) {
            compare_registers(rt, one, other, x as u32, y as u32);
        }
    }
    for level in 1..nx + ny + 1 {
        for index in 0..power(level) {
            compare_node(rt, one, other, level, index as u32);
        }
    }
}

/// The memory and the enable register of every pixel are the same, and the clocks and the size of both
/// arrays.
pub(crate) fn compare_memories<A: Array, B: Array>(rt: &impl Abort, one: &A, other: &B) {
    assert!(rt; one.clocks() == other.clocks());
    let (nx, ny) = one.size();
    try_size(rt, other, nx, ny);
    assert!(rt; 1 <= nx);
    for x in 0..power(nx) {
        for y in 0..power(ny) {
            compare_memory(rt, one, other, x as u32, y as u32);
        }
    }
}

fn compare_memory<A: Array, B: Array>(rt: &impl Abort, one: &A, other: &B, x: u32, y: u32) {
    try_pixel(rt, one, x, y);
    try_pixel(rt, other, x, y);
    assert!(rt; A::BITS == B::BITS);
    assert!(rt; A::BITS <= 256);
    assert!(rt; one.registers(x, y).enable == other.registers(x, y).enable);
    for at in 0..A::BITS as u32 {
        assert!(rt; one.bit(x, y, at) == other.bit(x, y, at));
    }
}

fn compare_registers<A: Array, B: Array>(rt: &impl Abort, one: &A, other: &B, x: u32, y: u32) {
    try_pixel(rt, one, x, y);
    try_pixel(rt, other, x, y);
    try_registers(rt, one, x, y, &other.registers(x, y));
    assert!(rt; one.tree_bit(x, y) == other.tree_bit(x, y));
}

/// The pixel has these registers.
pub(crate) fn try_registers<A: Array>(rt: &impl Abort, array: &A, x: u32, y: u32, want: &Registers)
    requires pixel { HasPixel (A.view array.now).device x y }
{
    let Registers {
        enable,
        carry,
        latch,
    } = array.registers(x, y);
    assert!(rt; enable == want.enable);
    assert!(rt; carry == want.carry);
    assert!(rt; latch == want.latch);
}

/// The array has so many levels of columns and of rows.
pub(crate) fn try_size<A: Array>(rt: &impl Abort, array: &A, nx: u32, ny: u32)
    ensures columns { (A.view array.now).device.state.tree.nx ≡ nx }
    ensures rows { (A.view array.now).device.state.tree.ny ≡ ny }
{
    let (columns, rows) = array.size();
    assert!(rt; columns == nx);
    assert!(rt; rows == ny);
}

/// The array has the pixel.
pub(crate) fn try_pixel<A: Array>(rt: &impl Abort, array: &A, x: u32, y: u32)
    ensures { HasPixel (A.view array.now).device x y }
{
    let (nx, ny) = array.size();
    assert!(rt; 1 <= nx);
    assert!(rt; (x as usize) < power(nx));
    assert!(rt; (y as usize) < power(ny));
}

fn compare_node<A: Array, B: Array>(rt: &impl Abort, one: &A, other: &B, level: u32, index: u32) {
    try_node(rt, one, level, index);
    try_node(rt, other, level, index);
    let (output, carry) = one.node(level, index);
    let (other_output, other_carry) = other.node(level, index);
    assert!(rt; output == other_output);
    assert!(rt; carry == other_carry);
}

/// The array has the node.
pub(crate) fn try_node<A: Array>(rt: &impl Abort, array: &A, level: u32, index: u32)
    ensures is_open { IsOpen (A.view array.now).device }
    ensures from_one { 1 ≤ level }
    ensures in_tree { level ≤ levels_of (A.view array.now).device.state.tree }
    ensures in_level { index < 2 ^ level }
{
    let (nx, ny) = array.size();
    assert!(rt; 1 <= nx);
    assert!(rt; 1 <= level);
    assert!(rt; level <= nx + ny);
    assert!(rt; (index as usize) < power(level));
}
