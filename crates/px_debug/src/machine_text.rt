//! The answers that show a pixel or a node.
ghost use Rattle.std.specs.Prelude.{◌≡◌, ◌+◌, ◌<◌, ◌≤◌, ◌^◌, ◌++◌, if◌then◌else◌, ◌&&◌, codes, decimal, length, map, nat_le, true};
ghost use Rattle.px_array.specs.Arrays.{HasPixel, IsOpen, levels_of, pixel_of};
ghost use Rattle.px_macro.specs.Fields.{number_in};
ghost use Rattle.px_sched.specs.Layouts.{need_of};
ghost use Rattle.px_debug.specs.Lines.{digit as digit_of, field_line, is_node, is_pixel, pixel_line, tree_line, unknown_line};
ghost use Rattle.px_array.specs.Arrays.{HasGrid};
ghost use Rattle.px_tree.specs.Nodes.{IsGrid};

use crate::text::{Text, digit, unknown_line};
use arrayvec::ArrayString;
use itoa::Buffer;
use px_array::Array;
use px_asm::number_in;
use px_macro::Field;
use px_num::power;
use px_sched::Layout;

/// The answer to `pixel x y` (docs/DEBUGGER.md, "Lines"): the memory bits of a pixel from bit 0 on,
/// and its registers.
///
/// `x` counts pixels from the left, and `y` from the top; both may be any number. Where the grid
/// has no such pixel it is `? line` with the number of the line.
pub fn pixel_answer<A: Array>(array: &A, x: u64, y: u64, number: u64) -> Text
    requires few { A.BITS ≤ 256 }
    requires grid { IsGrid (A.view array.now).device.state.tree.nx (A.view array.now).device.state.tree.ny }
    requires pixels { HasGrid A.BITS (A.view array.now).device.state.tree.nx
        (A.view array.now).device.state.tree.ny (A.view array.now).device.state }
    ensures { result.bytes ≡ (if is_pixel (A.view array.now).device.state x y
        then pixel_line (A.view array.now).device.state x y else unknown_line number) }
{
    if is_pixel(array, x, y) {
        pixel_line(array, x as u32, y as u32)
    } else {
        unknown_line(number)
    }
}

/// The answer to `field x y` (docs/DEBUGGER.md, "Lines"): depth and face number of the best key and
/// of the candidate's, and the bits alive and par, where `layout` has them in a pixel's memory.
///
/// `x` and `y`, and a pixel that is not there, are as in `pixel_answer`.
pub fn field_answer<A: Array>(array: &A, layout: &Layout, x: u64, y: u64, number: u64) -> Text
    requires room { need_of layout.now ≤ A.BITS }
    requires grid { IsGrid (A.view array.now).device.state.tree.nx (A.view array.now).device.state.tree.ny }
    ensures { result.bytes ≡ (if is_pixel (A.view array.now).device.state x y
        then field_line layout.now (A.view array.now).device.state x y else unknown_line number) }
{
    if is_pixel(array, x, y) {
        field_line(array, layout, x as u32, y as u32)
    } else {
        unknown_line(number)
    }
}

/// The answer to `tree level index` (docs/DEBUGGER.md, "Lines"): output and carry of a node.
///
/// Levels are counted from 1, below the root, and the nodes of a level from 0. Where the tree has
/// no such node it is `? line` with the number of the line.
pub fn tree_answer<A: Array>(array: &A, level: u64, index: u64, number: u64) -> Text
    requires grid { IsGrid (A.view array.now).device.state.tree.nx (A.view array.now).device.state.tree.ny }
    ensures { result.bytes ≡ (if is_node (A.view array.now).device.state level index
        then tree_line (A.view array.now).device.state level index else unknown_line number) }
{
    if is_node(array, level, index) {
        tree_line(array, level as u32, index as u32)
    } else {
        unknown_line(number)
    }
}

/// Whether a pixel is one of the grid.
fn is_pixel<A: Array>(array: &A, x: u64, y: u64) -> bool
    requires grid { IsGrid (A.view array.now).device.state.tree.nx (A.view array.now).device.state.tree.ny }
    ensures is { result ≡ is_pixel (A.view array.now).device.state x y }
    ensures column { result ≡ true → x < 2 ^ (A.view array.now).device.state.tree.nx }
    ensures row { result ≡ true → y < 2 ^ (A.view array.now).device.state.tree.ny }
    ensures small { result ≡ true → (x < 2 ^ 9) × (y < 2 ^ 9) }
{
    let (nx, ny) = array.size();
    x < power(nx) as u64 && y < power(ny) as u64
}

/// Whether a node is one of the tree.
fn is_node<A: Array>(array: &A, level: u64, index: u64) -> bool
    requires grid { IsGrid (A.view array.now).device.state.tree.nx (A.view array.now).device.state.tree.ny }
    ensures is { result ≡ is_node (A.view array.now).device.state level index }
    ensures from_one { result ≡ true → 1 ≤ level }
    ensures in_tree { result ≡ true → level ≤ levels_of (A.view array.now).device.state.tree }
    ensures in_level { result ≡ true → index < 2 ^ level }
    ensures small { result ≡ true → (level ≤ 18) × (index < 2 ^ 18) }
{
    let (nx, ny) = array.size();
    is_level(level, nx + ny) && index < power(level as u32) as u64
}

/// Whether a tree of so many levels has this one.
fn is_level(level: u64, levels: u32) -> bool
    ensures is { result ≡ (nat_le 1 level && nat_le level levels) }
    ensures from_one { result ≡ true → 1 ≤ level }
    ensures in_tree { result ≡ true → level ≤ levels }
{
    1 <= level && level <= u64::from(levels)
}

/// The memory bits of a pixel, and its registers.
fn pixel_line<A: Array>(array: &A, x: u32, y: u32) -> Text
    requires pixel { HasPixel (A.view array.now).device x y }
    requires few { A.BITS ≤ 256 }
    requires memory { length (pixel_of (A.view array.now).device.state x y).memory ≡ A.BITS }
    ensures { result.bytes ≡ pixel_line (A.view array.now).device.state x y }
{
    let mut digits = Buffer::new();
    let registers = array.registers(x, y);
    let mut line = ArrayString::new();
    line.push_str("pixel ");
    line.push_str(digits.format(x));
    line.push_str(" ");
    line.push_str(digits.format(y));
    line.push_str(" m ");
    line.push_str(memory_text(array, x, y).as_str());
    line.push_str(" e ");
    line.push_str(digit(registers.enable));
    line.push_str(" k ");
    line.push_str(digit(registers.carry));
    line.push_str(" l ");
    line.push_str(digit(registers.latch));
    line.push_str(" t ");
    line.push_str(digit(array.tree_bit(x, y)));
    line.push_str("\n");
    line
}

/// The memory bits of a pixel as digits, from bit 0 on.
fn memory_text<A: Array>(array: &A, x: u32, y: u32) -> ArrayString<256>
    requires pixel { HasPixel (A.view array.now).device x y }
    requires few { A.BITS ≤ 256 }
    requires memory { length (pixel_of (A.view array.now).device.state x y).memory ≡ A.BITS }
    ensures { result.bytes ≡ map digit_of (pixel_of (A.view array.now).device.state x y).memory }
{
    let mut text = ArrayString::new();
    for at in 0..A::BITS {
        text.push_str(digit(array.bit(x, y, at as u32)));
    }
    text
}

/// The keys of a pixel, and its two bits behind them.
fn field_line<A: Array>(array: &A, layout: &Layout, x: u32, y: u32) -> Text
    requires pixel { HasPixel (A.view array.now).device x y }
    requires room { need_of layout.now ≤ A.BITS }
    ensures { result.bytes ≡ field_line layout.now (A.view array.now).device.state x y }
{
    let mut digits = Buffer::new();
    let best = key_text(array, layout.b_depth(), layout.b_number(), x, y);
    let candidate = key_text(array, layout.t_depth(), layout.t_number(), x, y);
    let mut line = ArrayString::new();
    line.push_str("field ");
    line.push_str(digits.format(x));
    line.push_str(" ");
    line.push_str(digits.format(y));
    line.push_str(" b ");
    line.push_str(best.as_str());
    line.push_str(" t ");
    line.push_str(candidate.as_str());
    line.push_str(" alive ");
    line.push_str(digit(array.bit(x, y, layout.alive)));
    line.push_str(" par ");
    line.push_str(digit(array.bit(x, y, layout.par)));
    line.push_str("\n");
    line
}

/// The numbers of two fields of a pixel.
fn key_text<A: Array>(array: &A, depth: Field, number: Field, x: u32, y: u32) -> ArrayString<64>
    requires pixel { HasPixel (A.view array.now).device x y }
    requires depth { (depth.at ≤ 100) × (depth.len ≤ 24) × (depth.at + depth.len ≤ A.BITS) }
    requires number { (number.at ≤ 100) × (number.len ≤ 24) × (number.at + number.len ≤ A.BITS) }
    ensures { result.bytes
        ≡ decimal (number_in depth (pixel_of (A.view array.now).device.state x y).memory)
        ++ codes " " ++ decimal (number_in number (pixel_of (A.view array.now).device.state x y).memory) }
{
    let mut digits = Buffer::new();
    let mut text = ArrayString::new();
    text.push_str(digits.format(number_in(array, depth, x, y)));
    text.push_str(" ");
    text.push_str(digits.format(number_in(array, number, x, y)));
    text
}

/// The two latches of a node.
fn tree_line<A: Array>(array: &A, level: u32, index: u32) -> Text
    requires is_open { IsOpen (A.view array.now).device }
    requires from_one { 1 ≤ level }
    requires in_tree { level ≤ levels_of (A.view array.now).device.state.tree }
    requires in_level { index < 2 ^ level }
    ensures { result.bytes ≡ tree_line (A.view array.now).device.state level index }
{
    let mut digits = Buffer::new();
    let (output, carry) = array.node(level, index);
    let mut line = ArrayString::new();
    line.push_str("tree ");
    line.push_str(digits.format(level));
    line.push_str(" ");
    line.push_str(digits.format(index));
    line.push_str(" out ");
    line.push_str(digit(output));
    line.push_str(" carry ");
    line.push_str(digit(carry));
    line.push_str("\n");
    line
}
