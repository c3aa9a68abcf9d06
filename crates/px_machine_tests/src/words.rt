//! Words worked out by hand, and both arrays side by side.
ghost use Rattle.std.specs.Prelude.{◌≡◌, ◌<◌};
ghost use Rattle.px_array.specs.Acts.{HasPlace};
ghost use Rattle.px_machine_tests.specs.Ready.{IsReady};

use crate::at_once::{Trial, clock_each, try_both};
use crate::clocks::{feed, make_all};
use crate::compared::{compare, try_size};
use crate::numbers::Numbers;
use crate::trees::{try_largest, try_six};
use px_array::{Act, Array, Micro, TreeOp};
use px_num::{Linear, Memory};
use px_planes::{PlaneArray, PlaneTree};
use px_tree::{Tree, feed_form};
use std::process::Abort;
use std::test::Fail;

#[test]
fn the_smallest_tree(rt: HostRuntime) -> Result<(), Fail> {
    let tree = PlaneTree::new(rt.alloc(), 1, 1)?;
    assert!(rt; !tree.leaf(1, 1));
    Ok(())
}

#[test]
fn four_by_four(rt: HostRuntime) -> Result<(), Fail> {
    let mut tree = PlaneTree::new(rt.alloc(), 2, 2)?;
    try_six(&rt, &mut tree);
    Ok(())
}

#[test]
fn largest_tree(rt: HostRuntime) -> Result<(), Fail> {
    try_largest(&rt, &mut PlaneTree::new(rt.alloc(), 9, 9)?);
    Ok(())
}

/// Bit 0 of `x + 1`: the leaves over even columns, eight to a column.
#[test]
fn outputs_of_whole_words(rt: HostRuntime) -> Result<(), Fail> {
    let form = Linear { a: 1, b: 0, c: 1 };
    let mut tree = PlaneTree::new(rt.alloc(), 3, 3)?;
    feed_form(&mut tree, 3, 3, &form, 6);
    are_words(&rt, tree.outputs(6), 1, 0x00ff_00ff_00ff_00ff);
    let mut tree = PlaneTree::new(rt.alloc(), 4, 3)?;
    feed_form(&mut tree, 4, 3, &form, 7);
    are_words(&rt, tree.outputs(7), 2, 0x00ff_00ff_00ff_00ff);
    Ok(())
}

/// After three feeds level 3 has bit 0 of `x + 1`, level 2 bit 1, and level 1 bit 2 of `2 * i + 1`.
#[test]
fn outputs_of_small_levels(rt: HostRuntime) -> Result<(), Fail> {
    let form = Linear { a: 1, b: 0, c: 1 };
    let mut tree = PlaneTree::new(rt.alloc(), 2, 1)?;
    feed_form(&mut tree, 2, 1, &form, 3);
    are_words(&rt, tree.outputs(3), 1, 0b0011_0011);
    are_words(&rt, tree.outputs(2), 1, 0b0110);
    are_words(&rt, tree.outputs(1), 1, 0b00);
    Ok(())
}

/// So many words, each of which is this one.
fn are_words(rt: &impl Abort, found: &[u64], count: usize, word: u64) {
    assert!(rt; found.len() == count);
    for each in found {
        assert!(rt; *each == word);
    }
}

/// `x + 2 * y + 1` on four pixels is 1, 3, 2 and 4, in the order of their places.
#[test]
fn rows_of_a_form(rt: HostRuntime) -> Result<(), Fail> {
    try_rows(&rt, &mut PlaneArray::new(rt.alloc()))
}

fn try_rows(rt: &impl Abort, array: &mut PlaneArray<5>) -> Result<(), Fail> {
    load(rt, array)?;
    for (at, word) in [(0, 0b0011), (1, 0b0110), (2, 0b1000), (3, 0b1111), (4, 0)] {
        try_row(rt, array, at, word);
    }
    Ok(())
}

/// Loads the form into the first bits of pixels, and toggles the bit behind them.
fn load<A: Array>(rt: &impl Abort, array: &mut A) -> Result<(), Memory> {
    assert!(rt; A::BITS == 5);
    let micros = [
        (TreeOp::Clear, Act::EnableAll),
        (feed(true, false, true), Act::Nop),
        (feed(false, false, false), Act::Nop),
        (feed(false, true, false), Act::StoreTree(0)),
        (feed(false, false, false), Act::StoreTree(1)),
        (feed(false, false, false), Act::StoreTree(2)),
        (TreeOp::Hold, Act::Toggle(3)),
    ];
    try_size(rt, array, 0, 0);
    array.open(1, 1)?;
    make_all(rt, array, &micros);
    Ok(())
}

/// The row of four pixels is this word.
fn try_row(rt: &impl Abort, array: &PlaneArray<5>, at: u32, word: u64) {
    assert!(rt; at < 5);
    try_size(rt, array, 1, 1);
    are_words(rt, array.row(at), 1, word);
}

/// Random micros on both arrays, with saves and restores, in grids of one word and of many.
#[test]
fn both_arrays_agree(rt: HostRuntime) -> Result<(), Fail> {
    for (nx, ny) in [(1, 1), (2, 1), (1, 3), (3, 3), (4, 4), (6, 1), (5, 5)] {
        let mut draw = Draw::from(7);
        try_both::<5>(&rt, rt.alloc(), nx, ny, Trial::Saved, &mut draw)?;
    }
    Ok(())
}

/// Micros with saves and restores.
pub(crate) fn agree<A: Array, B: Array>(
    rt: &impl Abort,
    planes: &mut A,
    pixels: &mut B,
    draw: &mut Draw,
)
    requires planes { IsReady A.BITS (A.view planes.old) }
    requires pixels { IsReady B.BITS (B.view pixels.old) }
{
    assert!(rt; A::BITS == 5);
    assert!(rt; B::BITS == 5);
    for _ in 0..6 {
        try_saved(rt, planes, pixels, draw);
    }
}

/// Random micros on both arrays, and more of them that are taken back.
fn try_saved<A: Array, B: Array>(rt: &impl Abort, planes: &mut A, pixels: &mut B, draw: &mut Draw)
    requires plane_bits { A.BITS ≡ 5 }
    requires pixel_bits { B.BITS ≡ 5 }
    requires planes { IsReady A.BITS (A.view planes.old) }
    requires pixels { IsReady B.BITS (B.view pixels.old) }
    ensures planes { IsReady A.BITS (A.view planes.new) }
    ensures pixels { IsReady B.BITS (B.view pixels.new) }
{
    clock_both(rt, planes, pixels, draw, 40);
    planes.save(2);
    pixels.save(2);
    clock_both(rt, planes, pixels, draw, 30);
    planes.restore(2);
    pixels.restore(2);
    compare(rt, pixels, planes);
    assert!(rt; pixels.work() == planes.work());
}

/// Random numbers, and the lines of the last feed.
#[derive(Drop)]
pub(crate) struct Draw {
    numbers: Numbers,
    lines: u32,
}

impl Draw {
    /// Those that come after a first one.
    pub(crate) fn from(state: u64) -> Draw {
        Draw {
            numbers: Numbers::from(state),
            lines: 0,
        }
    }

    pub(crate) fn numbers(&mut self) -> &mut Numbers {
        &mut self.numbers
    }

    fn number(&mut self) -> u32 {
        self.numbers.draw()
    }

    /// A micro, which mostly feeds the tree, and more often than not by the lines of the feed before.
    pub(crate) fn micro(&mut self) -> Micro
        ensures { HasPlace 5 result.act }
    {
        if self.number() % 3 == 0 {
            self.lines = self.number() % 8;
        }
        let lines = self.lines;
        let tree = match self.number() % 24 {
            0 => TreeOp::Clear,
            1 | 2 => TreeOp::Hold,
            _ => feed(lines % 2 == 1, lines / 2 % 2 == 1, lines / 4 == 1),
        };
        let act = act_of(
            self.number() % 14,
            self.number() % 5,
            self.number() % 2 == 1,
        );
        Micro {
            tree,
            act: placed(act),
        }
    }
}

fn act_of(kind: u32, at: u32, v: bool) -> Act {
    match kind {
        0 => Act::Nop,
        1 => Act::EnableAll,
        2 => Act::EnableCarry(v),
        3 => Act::EnableTree(v),
        4 => Act::EnableBit(at, v),
        5 => Act::SetCarry(v),
        6 => Act::Fetch(at),
        7 => Act::StoreTree(at),
        8 => Act::StoreLatch(at),
        9 => Act::StoreConst(at, v),
        10 => Act::Toggle(at),
        11 => Act::CarryTree(at),
        12 => Act::CarryLatch(at),
        _ => Act::AddTree(at),
    }
}

/// The act with its place below 5.
pub(crate) fn placed(act: Act) -> Act
    ensures { HasPlace 5 result }
{
    match act {
        Act::EnableBit(at, v) => Act::EnableBit(at % 5, v),
        Act::Fetch(at) => Act::Fetch(at % 5),
        Act::StoreTree(at) => Act::StoreTree(at % 5),
        Act::StoreLatch(at) => Act::StoreLatch(at % 5),
        Act::StoreConst(at, v) => Act::StoreConst(at % 5, v),
        Act::Toggle(at) => Act::Toggle(at % 5),
        Act::CarryTree(at) => Act::CarryTree(at % 5),
        Act::CarryLatch(at) => Act::CarryLatch(at % 5),
        Act::AddTree(at) => Act::AddTree(at % 5),
        other => other,
    }
}

/// So many random micros on both arrays, which are compared after each.
fn clock_both<A: Array, B: Array>(
    rt: &impl Abort,
    planes: &mut A,
    pixels: &mut B,
    draw: &mut Draw,
    count: u32,
)
    requires plane_bits { A.BITS ≡ 5 }
    requires pixel_bits { B.BITS ≡ 5 }
    requires planes { IsReady A.BITS (A.view planes.old) }
    requires pixels { IsReady B.BITS (B.view pixels.old) }
    ensures planes { IsReady A.BITS (A.view planes.new) }
    ensures pixels { IsReady B.BITS (B.view pixels.new) }
    ensures plane_slots { (A.view planes.new).slots ≡ (A.view planes.old).slots }
    ensures pixel_slots { (B.view pixels.new).slots ≡ (B.view pixels.old).slots }
{
    for _ in 0..count {
        clock_each(rt, planes, pixels, draw.micro());
        compare(rt, pixels, planes);
    }
}
