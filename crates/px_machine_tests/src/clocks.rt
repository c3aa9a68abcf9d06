//! A linear form that is loaded by hand, on four pixels, and an array that is turned back.
ghost use Rattle.std.specs.Prelude.{◌≡◌};
ghost use Rattle.px_array.specs.Arrays.{IsOpen};
ghost use Rattle.px_array.specs.Slots.{IsSaved};
ghost use Rattle.px_array.specs.Acts.{HasPlace};
ghost use Rattle.px_machine_tests.specs.Ready.{AreSaved};

use crate::compared::{compare, try_node, try_pixel, try_registers, try_size};
use crate::words::placed;
use px_array::{Act, Array, Micro, PixelArray, Registers, TreeOp};
use px_num::Memory;
use std::process::Abort;
use std::test::Fail;

/// Loads `x + 2 * y + 1` into three bits. The first two feeds go down the two levels of the tree
/// before its lowest bit is at the leaves.
#[test]
fn a_form_is_loaded(rt: HostRuntime) -> Result<(), Fail> {
    load(&rt, &mut PixelArray::<5>::new(rt.alloc()))
}

fn load<A: Array>(rt: &impl Abort, array: &mut A) -> Result<(), Fail> {
    assert!(rt; A::BITS == 5);
    let micros = [
        (TreeOp::Clear, Act::EnableAll),
        (feed(true, false, true), Act::SetCarry(true)),
        (feed(false, false, false), Act::Nop),
        (feed(false, true, false), Act::StoreTree(0)),
        (feed(false, false, false), Act::StoreTree(1)),
        (feed(false, false, false), Act::StoreTree(2)),
    ];
    try_size(rt, array, 0, 0);
    array.open(1, 1)?;
    make_all(rt, array, &micros[..4]);
    try_latches(rt, array);
    make_all(rt, array, &micros[4..]);
    try_numbers(rt, array);
    array.open(2, 1)?;
    try_opened(rt, array);
    Ok(())
}

/// Where the lowest bit is stored.
fn try_latches<A: Array>(rt: &impl Abort, array: &A) {
    assert!(rt; array.clocks() == 4);
    try_size(rt, array, 1, 1);
    try_latch(rt, array, 2, 0, false, false);
    try_latch(rt, array, 2, 3, false, true);
    assert!(rt; array.tree_bit(0, 1));
    assert!(rt; !array.tree_bit(1, 1));
}

/// The output and the carry latch of a node.
fn try_latch<A: Array>(
    rt: &impl Abort,
    array: &A,
    level: u32,
    index: u32,
    output: bool,
    carry: bool,
) {
    try_node(rt, array, level, index);
    let found = array.node(level, index);
    assert!(rt; found.0 == output);
    assert!(rt; found.1 == carry);
}

/// The value at each pixel, and registers.
fn try_numbers<A: Array>(rt: &impl Abort, array: &A)
    requires bits { A.BITS ≡ 5 }
{
    for (x, y, want) in [(0, 0, 1), (1, 0, 2), (0, 1, 3), (1, 1, 4)] {
        try_number(rt, array, x, y, want);
    }
    let registers = Registers {
        enable: true,
        carry: true,
        latch: false,
    };
    try_size(rt, array, 1, 1);
    try_registers(rt, array, 1, 0, &registers);
}

fn try_number<A: Array>(rt: &impl Abort, array: &A, x: u32, y: u32, want: u32)
    requires bits { A.BITS ≡ 5 }
{
    try_pixel(rt, array, x, y);
    for at in 0..5 {
        assert!(rt;
            array.bit(x, y, at) == ((want >> at) & 1 == 1),
            "a bit of the value"
        );
    }
}

/// Eight pixels on which no clock was made.
fn try_opened<A: Array>(rt: &impl Abort, array: &A)
    requires bits { A.BITS ≡ 5 }
{
    assert!(rt; array.clocks() == 0);
    try_size(rt, array, 2, 1);
    assert!(rt; !array.bit(0, 0, 0));
    assert!(rt; !array.registers(3, 1).enable);
}

/// Makes a clock for each of these on pixels of five bits.
pub(crate) fn make_all<A: Array>(rt: &impl Abort, array: &mut A, micros: &[(TreeOp, Act)])
    requires is_open { IsOpen (A.view array.old).device }
    requires bits { A.BITS ≡ 5 }
    ensures { IsOpen (A.view array.new).device }
{
    for (tree, act) in micros {
        let act = placed(*act);
        make_one(rt, array, Micro { tree: *tree, act });
    }
}

fn micro(tree: TreeOp, act: Act) -> Micro
    ensures { result ≡ record { tree = tree; act = act } }
{
    Micro { tree, act }
}

pub(crate) fn feed(a: bool, b: bool, c: bool) -> TreeOp {
    TreeOp::Feed { a, b, c }
}

/// Saves after 0, 2, 4 and 6 of eight clocks, turns back in another order, and compares each clock
/// from there on with an array that never turned back.
#[test]
fn turning_back(rt: HostRuntime) -> Result<(), Fail> {
    let mut array = PixelArray::<5>::new(rt.alloc());
    turn(&rt, &mut array, &mut PixelArray::<5>::new(rt.alloc()))
}

fn turn<A: Array>(rt: &impl Abort, array: &mut A, plain: &mut A) -> Result<(), Fail> {
    assert!(rt; A::BITS == 5);
    array.open(1, 1)?;
    save_each(rt, array);
    assert!(rt; array.work() == 8);
    turn_back(rt, array, plain)?;
    assert!(rt; array.work() == 8 + 4 + 8 + 2 + 6 + 4);
    array.open(1, 1)?;
    assert!(rt; array.work() == 0);
    Ok(())
}

fn save_each<A: Array>(rt: &impl Abort, array: &mut A)
    requires bits { A.BITS ≡ 5 }
    requires is_open { IsOpen (A.view array.old).device }
    ensures is_open { IsOpen (A.view array.new).device }
    ensures saved { AreSaved (A.view array.new).slots }
{
    array.save(2);
    make_clocks(rt, array, 0, 2);
    array.save(0);
    make_clocks(rt, array, 2, 4);
    array.save(3);
    make_clocks(rt, array, 4, 6);
    array.save(1);
    make_clocks(rt, array, 6, 8);
}

fn turn_back<A: Array>(rt: &impl Abort, array: &mut A, plain: &mut A) -> Result<(), Memory>
    requires bits { A.BITS ≡ 5 }
    requires is_open { IsOpen (A.view array.old).device }
    requires saved { AreSaved (A.view array.old).slots }
{
    try_back(rt, array, plain, 3, 4)?;
    try_back(rt, array, plain, 2, 0)?;
    try_back(rt, array, plain, 1, 6)?;
    try_back(rt, array, plain, 0, 2)?;
    try_back(rt, array, plain, 3, 4)
}

/// Turns back to a slot that was saved after so many clocks, and goes on from there.
fn try_back<A: Array>(
    rt: &impl Abort,
    array: &mut A,
    plain: &mut A,
    slot: u32,
    clock: u32,
) -> Result<(), Memory>
    requires bits { A.BITS ≡ 5 }
    requires is_open { IsOpen (A.view array.old).device }
    requires saved { IsSaved (A.view array.old).slots slot }
    ensures is_open { IsOpen (A.view array.new).device }
    ensures slots { (A.view array.new).slots ≡ (A.view array.old).slots }
{
    array.restore(slot);
    go_on(rt, array, plain, clock)
}

/// Brings the second array to a clock, and then both to the end, equal at each clock.
fn go_on<A: Array>(rt: &impl Abort, array: &mut A, plain: &mut A, clock: u32) -> Result<(), Memory>
    requires bits { A.BITS ≡ 5 }
    ensures is_open { IsOpen (A.view array.new).device }
    ensures slots { (A.view array.new).slots ≡ (A.view array.old).slots }
{
    try_size(rt, array, 1, 1);
    plain.open(1, 1)?;
    make_clocks(rt, plain, 0, clock);
    compare(rt, array, plain);
    for k in clock..8 {
        make_clock(rt, array, k);
        make_clock(rt, plain, k);
        compare(rt, array, plain);
    }
    Ok(())
}

fn make_clocks<A: Array>(rt: &impl Abort, array: &mut A, from: u32, to: u32)
    requires bits { A.BITS ≡ 5 }
    requires is_open { IsOpen (A.view array.old).device }
    ensures is_open { IsOpen (A.view array.new).device }
    ensures slots { (A.view array.new).slots ≡ (A.view array.old).slots }
{
    for k in from..to {
        make_clock(rt, array, k);
    }
}

fn make_clock<A: Array>(rt: &impl Abort, array: &mut A, k: u32)
    requires bits { A.BITS ≡ 5 }
    requires is_open { IsOpen (A.view array.old).device }
    ensures is_open { IsOpen (A.view array.new).device }
    ensures slots { (A.view array.new).slots ≡ (A.view array.old).slots }
{
    make_one(rt, array, eighth(k));
}

/// Makes one clock.
pub(crate) fn make_one<A: Array>(rt: &impl Abort, array: &mut A, m: Micro)
    requires is_open { IsOpen (A.view array.old).device }
    requires place { HasPlace A.BITS m.act }
    ensures is_open { IsOpen (A.view array.new).device }
    ensures slots { (A.view array.new).slots ≡ (A.view array.old).slots }
{
    assert!(rt; array.clocks() < 1000);
    array.clock(m);
    assert!(rt; array.size().0 >= 1);
}

/// One of eight micros, which load `x + 2 * y + 1` and add it to itself.
fn eighth(k: u32) -> Micro
    ensures { HasPlace 5 result.act }
{
    match k {
        0 => micro(TreeOp::Clear, Act::EnableAll),
        1 => micro(feed(true, false, true), Act::SetCarry(false)),
        2 => micro(feed(false, false, false), Act::Fetch(4)),
        3 => micro(feed(false, true, false), Act::StoreTree(0)),
        4 => micro(feed(false, false, false), Act::StoreTree(1)),
        5 => micro(TreeOp::Hold, Act::AddTree(0)),
        6 => micro(feed(true, true, true), Act::EnableBit(1, true)),
        _ => micro(feed(true, true, false), Act::AddTree(1)),
    }
}
