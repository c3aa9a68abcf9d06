//! The texts of errors. The program prints its own.
use px_control::JobFault;
use px_expr::ExprFault;
use px_frame::FineFault;
use px_listing::{ListFault, ListKind};
use px_normal::NormalFault;
use px_num::Memory;
use px_scene::{Cause, LimitKind, SceneFault};
use px_sched::NeedBits;
use px_shadow::LightFault;
use px_tile::{TileFault, WideFault};
use std::alloc::Global;
use std::fmt::Display;
use std::process::Abort;

fn expressions() -> [(ExprFault, &'static str); 2] {
    [
        (
            ExprFault::Leaves { found: 513 },
            "513 leaves, of at most 512",
        ),
        (
            ExprFault::Nesting { found: 65 },
            "nested 65 deep, of at most 64",
        ),
    ]
}

fn products() -> [(NormalFault, &'static str); 1] {
    [(
        NormalFault::TooMany { count: 2048 },
        "2048 products, of at most 1024",
    )]
}

fn scenes() -> [(SceneFault, &'static str); 2] {
    [
        (
            SceneFault::Malformed {
                line: 3,
                cause: Cause::WordCount,
            },
            "line 3: WordCount",
        ),
        (
            SceneFault::Limit {
                line: 2,
                kind: LimitKind::Picture,
                found: 513,
            },
            "line 2: Picture 513",
        ),
    ]
}

fn layouts() -> [(NeedBits, &'static str); 1] {
    [(NeedBits { need: 74 }, "74 memory bits a pixel")]
}

fn jobs() -> [(JobFault, &'static str); 2] {
    [
        (JobFault::PixelMemory { need: 73 }, "73 memory bits a pixel"),
        (JobFault::Products { count: 1025 }, "1025 products"),
    ]
}

fn listings() -> [(ListFault, &'static str); 2] {
    [
        (
            ListFault::Malformed {
                line: 1,
                cause: Cause::NotHeader,
            },
            "line 1: NotHeader",
        ),
        (
            ListFault::Limit {
                line: 4,
                kind: ListKind::Place,
                found: -1,
            },
            "line 4: Place -1",
        ),
    ]
}

fn lights() -> [(LightFault, &'static str); 2] {
    [
        (
            LightFault::Malformed {
                line: 7,
                cause: Cause::UnknownName,
            },
            "line 7: UnknownName",
        ),
        (LightFault::Limit { line: 9, found: 9 }, "line 9: 9 lights"),
    ]
}

fn finer() -> [(FineFault, &'static str); 3] {
    [
        (FineFault::Fraction { found: 9 }, "9 fraction bits"),
        (
            FineFault::Picture { found: 514 },
            "a picture of 514 pixels, of at most 512",
        ),
        (
            FineFault::Coefficient { found: -8589934594 },
            "a constant of -8589934594, of at most 8589934592 in size",
        ),
    ]
}

fn tiles() -> [(TileFault, &'static str); 1] {
    [(
        TileFault::Coefficient { found: 8589934593 },
        "a coefficient of 8589934593",
    )]
}

fn wide() -> [(WideFault, &'static str); 4] {
    [
        (
            WideFault::Tiles { found: 1025 },
            "1025 tiles, of at most 1024",
        ),
        (
            WideFault::Coefficient { found: 8589934593 },
            "a coefficient of 8589934593",
        ),
        (
            WideFault::PixelMemory { need: 73 },
            "73 memory bits a pixel",
        ),
        (WideFault::Products { count: 1025 }, "1025 products"),
    ]
}

#[test]
fn faults_as_text(rt: HostRuntime) {
    let alloc = rt.alloc();
    have_texts(&rt, alloc, &expressions());
    have_texts(&rt, alloc, &products());
    have_texts(&rt, alloc, &scenes());
    have_texts(&rt, alloc, &layouts());
    have_texts(&rt, alloc, &jobs());
    have_texts(&rt, alloc, &listings());
    have_texts(&rt, alloc, &lights());
    have_texts(&rt, alloc, &finer());
    have_texts(&rt, alloc, &tiles());
    have_texts(&rt, alloc, &wide());
}

#[test]
fn want_of_memory_as_text(rt: HostRuntime) {
    let alloc = rt.alloc();
    is_told(&rt, alloc, &ExprFault::Memory(lack(&rt, alloc)));
    is_told(&rt, alloc, &NormalFault::Memory(lack(&rt, alloc)));
    is_told(&rt, alloc, &SceneFault::Memory(lack(&rt, alloc)));
    is_told(&rt, alloc, &JobFault::Memory(lack(&rt, alloc)));
    is_told(&rt, alloc, &ListFault::Memory(lack(&rt, alloc)));
    is_told(&rt, alloc, &FineFault::Memory(lack(&rt, alloc)));
    is_told(&rt, alloc, &TileFault::Memory(lack(&rt, alloc)));
    is_told(&rt, alloc, &WideFault::Memory(lack(&rt, alloc)));
}

/// What more than all memory is refused with.
fn lack(rt: &impl Abort, alloc: Global) -> Memory {
    let refused = Vec::<u8>::with_capacity(alloc, usize::MAX).err();
    Memory::from(refused.expect(rt, "no machine has so much memory"))
}

/// Out of memory has its text.
fn is_told<F: Display>(rt: &impl Abort, alloc: Global, fault: &F) {
    has_text(rt, alloc, fault, "out of memory");
}

/// Each fault has its text.
fn have_texts<F: Display>(rt: &impl Abort, alloc: Global, rows: &[(F, &str)]) {
    for (fault, text) in rows {
        has_text(rt, alloc, fault, text);
    }
}

fn has_text<F: Display>(rt: &impl Abort, alloc: Global, fault: &F, text: &str) {
    let found = fault.to_string(alloc).expect(rt, "memory for a text");
    assert!(rt; found.as_str() == text);
}
