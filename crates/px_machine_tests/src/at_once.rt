//! Each operation at once compared with its micros, from one random state to the next.
ghost use Rattle.std.specs.Prelude.{◌≡◌, ◌≤◌, OnOk};
ghost use Rattle.px_array.specs.Arrays.{IsOpen};
ghost use Rattle.px_array.specs.Acts.{HasPlace};
ghost use Rattle.px_machine_tests.specs.Ready.{IsReady};

use crate::compared::{compare, compare_memories};
use crate::drawn::operation;
use crate::words::{Draw, agree};
use px_array::{Array, Micro, PixelArray};
use px_asm::{Operating, cycles, make_micros};
use px_macro::{Field, Macro, lawful};
use px_num::{Linear, Memory};
use px_planes::PlaneArray;
use std::alloc::Global;
use std::process::Abort;
use std::test::Fail;

/// `(nx, ny)` of grids of less than a word, of one word and of many.
const GRIDS: [(u32, u32); 10] = [
    (1, 1),
    (2, 1),
    (1, 3),
    (3, 3),
    (4, 4),
    (6, 1),
    (1, 6),
    (9, 1),
    (1, 9),
    (5, 6),
];

/// More clocks than a test makes.
const MANY: u64 = 1 << 40;

const LOW: Field = Field { at: 0, len: 2 };

const HIGH: Field = Field { at: 2, len: 2 };

const SLOPE: Linear = Linear { a: 3, b: -2, c: 5 };

/// A field of a pixel of seven bits.
const WIDE: Field = Field { at: 0, len: 7 };

const INNER: Field = Field { at: 1, len: 5 };

const FALL: Linear = Linear {
    a: -5,
    b: 7,
    c: -100,
};

const STEEP: Linear = Linear {
    a: 134217727,
    b: -134217727,
    c: 274877906943,
};

/// Operations after each of which pixels are enabled in most words of a large grid: additions, made in
/// strips of words there, and others, made by their clocks.
const CROWDED: [Macro; 14] = [
    Macro::All,
    Macro::LoadLinear(FALL, WIDE),
    Macro::AddLinear(SLOPE, WIDE),
    Macro::AddLinear(STEEP, INNER),
    Macro::KeepBit(2, true),
    Macro::AddLinear(FALL, WIDE),
    Macro::KeepAtMost(SLOPE, INNER),
    Macro::AddLinear(STEEP, WIDE),
    Macro::Toggle(1),
    Macro::All,
    Macro::KeepLess(LOW, HIGH),
    Macro::LoadConst(LOW, 2),
    Macro::Copy(HIGH, LOW),
    Macro::AddLinear(SLOPE, INNER),
];

/// What is tried on both arrays.
#[derive(Clone, Copy)]
pub(crate) enum Trial {
    /// The operations that crowd words.
    Crowd,
    /// A random operation in a state that random micros made.
    Stirred,
    /// So many random operations.
    Operations(u32),
    /// Random micros, with saves and restores.
    Saved,
}

#[test]
fn five_bits(rt: HostRuntime) -> Result<(), Fail> {
    try_grids::<5>(&rt, rt.alloc(), 60)?;
    Ok(())
}

#[test]
fn seventy_two_bits(rt: HostRuntime) -> Result<(), Fail> {
    try_grids::<72>(&rt, rt.alloc(), 60)?;
    Ok(())
}

#[test]
fn the_most_bits(rt: HostRuntime) -> Result<(), Fail> {
    try_grids::<256>(&rt, rt.alloc(), 20)?;
    Ok(())
}

/// The operations on a grid of 512 words.
#[test]
fn a_crowd_of_words(rt: HostRuntime) -> Result<(), Fail> {
    for (nx, ny) in [(8, 7), (6, 9)] {
        try_both::<7>(&rt, rt.alloc(), nx, ny, Trial::Crowd, &mut Draw::from(0))?;
    }
    Ok(())
}

/// A random operation in each of some states that random micros made.
#[test]
fn after_random_micros(rt: HostRuntime) -> Result<(), Fail> {
    for (nx, ny) in GRIDS {
        let mut draw = Draw::from(8 * u64::from(nx) + u64::from(ny));
        for _ in 0..20 {
            try_both::<5>(&rt, rt.alloc(), nx, ny, Trial::Stirred, &mut draw)?;
        }
    }
    Ok(())
}

/// So many random operations on each grid.
fn try_grids<const N: usize>(rt: &impl Abort, alloc: Global, count: u32) -> Result<(), Memory>
    requires bits { N ≤ 256 }
{
    for (nx, ny) in GRIDS {
        let mut draw = Draw::from(8 * u64::from(nx) + u64::from(ny));
        try_both::<N>(rt, alloc, nx, ny, Trial::Operations(count), &mut draw)?;
    }
    Ok(())
}

/// A trial on two new arrays with as many columns and rows.
pub(crate) fn try_both<const N: usize>(
    rt: &impl Abort,
    alloc: Global,
    nx: u32,
    ny: u32,
    trial: Trial,
    draw: &mut Draw,
) -> Result<(), Memory>
    requires bits { N ≤ 256 }
{
    let mut planes = PlaneArray::<N>::new(alloc);
    let mut pixels = PixelArray::<N>::new(alloc);
    try_on(rt, &mut planes, &mut pixels, nx, ny, trial, draw)
}

fn try_on<A: Operating, B: Operating>(
    rt: &impl Abort,
    planes: &mut A,
    pixels: &mut B,
    nx: u32,
    ny: u32,
    trial: Trial,
    draw: &mut Draw,
) -> Result<(), Memory> {
    assert!(rt; A::BITS <= 256);
    open_both(rt, planes, pixels, nx, ny)?;
    match trial {
        Trial::Crowd => crowd(rt, planes, pixels),
        Trial::Stirred => stir(rt, planes, pixels, draw),
        Trial::Operations(count) => operate_often(rt, planes, pixels, count, draw),
        Trial::Saved => agree(rt, planes, pixels, draw),
    }
    Ok(())
}

/// Opens both arrays with as many columns and rows, in which every bit is 0.
fn open_both<A: Array, B: Array>(
    rt: &impl Abort,
    planes: &mut A,
    pixels: &mut B,
    nx: u32,
    ny: u32,
) -> Result<(), Memory>
    ensures planes { OnOk result (IsReady A.BITS (A.view planes.new)) }
    ensures pixels { OnOk result (IsReady B.BITS (B.view pixels.new)) }
{
    assert!(rt; 1 <= nx && nx <= 9);
    assert!(rt; 1 <= ny && ny <= 9);
    planes.open(nx, ny)?;
    pixels.open(nx, ny)
}

fn crowd<A: Operating, B: Operating>(rt: &impl Abort, planes: &mut A, pixels: &mut B)
    requires planes { IsReady A.BITS (A.view planes.old) }
    requires pixels { IsReady B.BITS (B.view pixels.old) }
{
    for m in &CROWDED {
        operate_both(rt, planes, pixels, m);
    }
    renew_both(rt, planes, pixels);
}

fn stir<A: Operating, B: Operating>(
    rt: &impl Abort,
    planes: &mut A,
    pixels: &mut B,
    draw: &mut Draw,
)
    requires planes { IsReady A.BITS (A.view planes.old) }
    requires pixels { IsReady B.BITS (B.view pixels.old) }
{
    assert!(rt; A::BITS == 5);
    assert!(rt; B::BITS == 5);
    for _ in 0..60 {
        clock_each(rt, planes, pixels, draw.micro());
    }
    let m = operation(draw.numbers(), 5);
    operate_both(rt, planes, pixels, &m);
    renew_both(rt, planes, pixels);
}

fn operate_often<A: Operating, B: Operating>(
    rt: &impl Abort,
    planes: &mut A,
    pixels: &mut B,
    count: u32,
    draw: &mut Draw,
)
    requires bits { A.BITS ≤ 256 }
    requires planes { IsReady A.BITS (A.view planes.old) }
    requires pixels { IsReady B.BITS (B.view pixels.old) }
{
    for _ in 0..count {
        let m = operation(draw.numbers(), A::BITS as u32);
        operate_both(rt, planes, pixels, &m);
        renew_both(rt, planes, pixels);
    }
}

/// Makes a clock on both arrays.
pub(crate) fn clock_each<A: Array, B: Array>(
    rt: &impl Abort,
    planes: &mut A,
    pixels: &mut B,
    m: Micro,
)
    requires plane_place { HasPlace A.BITS m.act }
    requires pixel_place { HasPlace B.BITS m.act }
    requires planes { IsReady A.BITS (A.view planes.old) }
    requires pixels { IsReady B.BITS (B.view pixels.old) }
    ensures planes { IsReady A.BITS (A.view planes.new) }
    ensures pixels { IsReady B.BITS (B.view pixels.new) }
    ensures plane_slots { (A.view planes.new).slots ≡ (A.view planes.old).slots }
    ensures pixel_slots { (B.view pixels.new).slots ≡ (B.view pixels.old).slots }
{
    clock_ready(rt, planes, m);
    clock_ready(rt, pixels, m);
}

fn clock_ready<A: Array>(rt: &impl Abort, array: &mut A, m: Micro)
    requires place { HasPlace A.BITS m.act }
    requires ready { IsReady A.BITS (A.view array.old) }
    ensures ready { IsReady A.BITS (A.view array.new) }
    ensures slots { (A.view array.new).slots ≡ (A.view array.old).slots }
{
    assert!(rt; array.clocks() < MANY);
    array.clock(m);
}

/// Makes an operation at once on one array and by its micros on the other.
fn operate_both<A: Operating, B: Operating>(
    rt: &impl Abort,
    planes: &mut A,
    pixels: &mut B,
    m: &Macro,
)
    requires planes { IsReady A.BITS (A.view planes.old) }
    requires pixels { IsReady B.BITS (B.view pixels.old) }
    ensures planes { IsReady A.BITS (A.view planes.new) }
    ensures pixels { IsReady B.BITS (B.view pixels.new) }
{
    operate(rt, planes, m);
    operate(rt, pixels, m);
    compare_memories(rt, pixels, planes);
}

/// Makes an operation that the array can carry out.
fn operate<A: Operating>(rt: &impl Abort, array: &mut A, m: &Macro)
    requires ready { IsReady A.BITS (A.view array.old) }
    ensures ready { IsReady A.BITS (A.view array.new) }
{
    assert!(rt; A::BITS <= 256);
    assert!(rt; array.clocks() < MANY);
    if lawful(m, A::BITS as u32) && lawful(m, 256) {
        array.operate(m);
    }
}

/// Makes operations by their micros that reset the tree, the carry and the latch, and takes
/// both arrays back.
fn renew_both<A: Array, B: Array>(rt: &impl Abort, planes: &mut A, pixels: &mut B)
    requires planes { IsReady A.BITS (A.view planes.old) }
    requires pixels { IsReady B.BITS (B.view pixels.old) }
    ensures planes { IsReady A.BITS (A.view planes.new) }
    ensures pixels { IsReady B.BITS (B.view pixels.new) }
{
    planes.save(0);
    pixels.save(0);
    renew(rt, planes);
    renew(rt, pixels);
    compare(rt, pixels, planes);
    planes.restore(0);
    pixels.restore(0);
}

fn renew<A: Array>(rt: &impl Abort, array: &mut A)
    requires { IsOpen (A.view array.old).device }
    ensures is_open { IsOpen (A.view array.new).device }
    ensures slots { (A.view array.new).slots ≡ (A.view array.old).slots }
{
    clock(rt, array, &Macro::AddLinear(SLOPE, LOW));
    clock(rt, array, &Macro::Copy(HIGH, LOW));
    clock(rt, array, &Macro::KeepLess(LOW, HIGH));
}

/// Makes the clocks of an operation.
fn clock<A: Array>(rt: &impl Abort, array: &mut A, m: &Macro)
    requires { IsOpen (A.view array.old).device }
    ensures is_open { IsOpen (A.view array.new).device }
    ensures slots { (A.view array.new).slots ≡ (A.view array.old).slots }
{
    assert!(rt; A::BITS <= 256);
    assert!(rt; array.clocks() < MANY);
    assert!(rt; lawful(m, A::BITS as u32));
    assert!(rt; lawful(m, 256));
    let (nx, ny) = array.size();
    make_micros(array, m, 0, cycles(m, nx, ny));
    assert!(rt; array.size().0 >= 1);
}
