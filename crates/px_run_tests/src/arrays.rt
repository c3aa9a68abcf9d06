//! What is asked of an array: its openings, operations at once, and clocks.
use crate::runs::{Given, render, run_words};
use arrayvec::ArrayVec;
use px_array::{Array, Micro, Registers};
use px_asm::Operating;
use px_draw::Status;
use px_macro::Macro;
use px_num::Memory;
use std::test::Fail;

/// Two slopes that meet at the third column, at depth 4.
const SLOPES: &[u8] = b"pxscene 1\npicture 2 1\ndepth 6\nsolid a 0 0 0\n\
    front 2 0 0\nfront -2 0 8\nshow a\nend\n";

/// Of each opening the levels of the grid, and the clocks that were made before; and how often an operation at once was asked
/// for, and a clock.
#[derive(Drop)]
pub(crate) struct Counts {
    openings: ArrayVec<(u32, u32, u64), 8>,
    operations: u64,
    clocks: u64,
}

/// An array that counts.
#[derive(Drop)]
pub(crate) struct Watched<A: Array> {
    array: A,
    counts: Counts,
}

impl<A: Array + Drop> Watched<A> {
    pub(crate) fn new(array: A) -> Watched<A> {
        Watched {
            array,
            counts: Counts {
                openings: ArrayVec::new(),
                operations: 0,
                clocks: 0,
            },
        }
    }

    pub(crate) fn counts(self) -> Counts {
        self.counts
    }
}

impl<A: Array> Array for Watched<A> {
    const BITS: usize = A::BITS;

    ghost BITS = { A.BITS };

    ghost view = { λ a. A.view a.array };

    fn open(&mut self, nx: u32, ny: u32) -> Result<(), Memory> {
        // A ninth opening is not kept.
        let _ = self.counts.openings.try_push((nx, ny, self.array.clocks()));
        self.array.open(nx, ny)
    }

    fn clock(&mut self, m: Micro) {
        self.counts.clocks = self.counts.clocks.saturating_add(1);
        self.array.clock(m);
    }

    fn size(&self) -> (u32, u32) {
        self.array.size()
    }

    fn bit(&self, x: u32, y: u32, at: u32) -> bool {
        self.array.bit(x, y, at)
    }

    fn word(&self, at: u32, w: usize) -> u64 {
        self.array.word(at, w)
    }

    fn registers(&self, x: u32, y: u32) -> Registers {
        self.array.registers(x, y)
    }

    fn tree_bit(&self, x: u32, y: u32) -> bool {
        self.array.tree_bit(x, y)
    }

    fn node(&self, level: u32, index: u32) -> (bool, bool) {
        self.array.node(level, index)
    }

    fn clocks(&self) -> u64 {
        self.array.clocks()
    }

    fn save(&mut self, slot: u32) {
        self.array.save(slot);
    }

    fn restore(&mut self, slot: u32) {
        self.array.restore(slot);
    }

    fn work(&self) -> u64 {
        self.array.work()
    }
}

impl<A: Operating> Operating for Watched<A> {
    fn operate(&mut self, m: &Macro) {
        self.counts.operations = self.counts.operations.saturating_add(1);
        self.array.operate(m);
    }
}

/// Each of the three tiles is opened, and its 29 operations take 473 clocks on 2 by 2 pixels.
#[test]
fn each_tile_is_opened_and_clocked(rt: HostRuntime) -> Result<(), Fail> {
    let given = Given {
        words: &["tile", "5", "1"],
        scene: SLOPES,
        ..render()
    };
    let left = run_words(rt.alloc(), &given)?;
    left.ended(&rt, Status::Done, b"", 473);
    assert_eq!(rt;
        left.counts.openings.as_slice(),
        [(1, 1, 0), (1, 1, 473), (1, 1, 473)].as_slice()
    );
    Ok(())
}

/// Of the 22 operations of one solid 19 are made at once; the last one that clears the tree, `load-linear`, `keep-less` and
/// `copy` take 7, 14 and 12 of the 317 clocks.
#[test]
fn most_operations_are_made_at_once(rt: HostRuntime) -> Result<(), Fail> {
    let left = run_words(rt.alloc(), &render())?;
    left.ended(&rt, Status::Done, b"", 317);
    assert_eq!(rt; left.counts.operations, 19);
    assert_eq!(rt; left.counts.clocks, 33);
    Ok(())
}
