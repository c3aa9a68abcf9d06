//! Runs over sources and sinks in memory, whose calls fail at a place.
use crate::runs::{Given, Left, render, run_words, try_bytes, two_maps};
use px_draw::Status;
use std::alloc::Global;
use std::process::Abort;
use std::test::Fail;

/// One read fails at each place, up to the read that finds the end; the one behind it is not made.
#[test]
fn a_failing_read_ends_the_run(rt: HostRuntime) -> Result<(), Fail> {
    for call in 1..14 {
        let left = read_failing(rt.alloc(), call)?;
        left.ended(&rt, Status::ReadFault, b"read fault\n", 0);
        assert!(rt; left.written.as_slice().is_empty());
    }
    let left = read_failing(rt.alloc(), 14)?;
    left.ended(&rt, Status::Done, b"", 317);
    try_bytes(&rt, left.written.as_slice(), two_maps());
    Ok(())
}

fn read_failing(alloc: Global, call: u64) -> Result<Left, Fail> {
    let given = Given {
        reads: (7, call),
        ..render()
    };
    run_words(alloc, &given)
}

/// One write stops at each place, and what was written is a front of the two maps; the array
/// has made every broadcast whatever became of them. The notes have room for three bytes.
#[test]
fn a_failing_write_leaves_a_front(rt: HostRuntime) -> Result<(), Fail> {
    assert!(rt; two_maps().len() == 28);
    for room in 0..28 {
        let left = write_failing(rt.alloc(), room)?;
        left.ended(&rt, Status::WriteFault, b"wri", 317);
        left.wrote(&rt, two_maps(), room, false);
    }
    let left = write_failing(rt.alloc(), 28)?;
    left.ended(&rt, Status::Done, b"", 317);
    left.wrote(&rt, two_maps(), 28, true);
    Ok(())
}

fn write_failing(alloc: Global, room: usize) -> Result<Left, Fail> {
    let given = Given {
        writes: (room, 5, 0),
        notes: 3,
        ..render()
    };
    run_words(alloc, &given)
}

fn scene_of_three_rows() -> &'static [u8] {
    "pxscene 1\npicture 2 3\ndepth 4\nsolid a 200 100 50\nfront 0 0 5\nback 0 0 9\nshow a\nend\n".as_bytes()
}

/// Words, and in how many calls a sink is given what they write of three rows and is finished: of an
/// image so small all, in `tile` a head and 512 pixels of a row at once, and of a text all.
const CALLS: [(&[&str], u64); 8] = [
    (&["render"], 3),
    (&["colour"], 2),
    (&["tidy"], 2),
    (&["plan"], 2),
    (&["cost"], 2),
    (&["shadow"], 2),
    (&["tile", "2", "3"], 5),
    (&["refine", "2"], 2),
];

#[test]
fn how_often_a_sink_is_called(rt: HostRuntime) -> Result<(), Fail> {
    for (words, calls) in &CALLS {
        try_calls(&rt, rt.alloc(), words, *calls)?;
    }
    Ok(())
}

/// Each of so many calls can fail, and no other is made.
fn try_calls(rt: &impl Abort, alloc: Global, words: &[&str], calls: u64) -> Result<(), Fail> {
    for call in 1..=calls {
        let status = three_rows(alloc, words, call)?;
        assert!(rt; status == Status::WriteFault);
    }
    let status = three_rows(alloc, words, calls.saturating_add(1))?;
    assert!(rt; status == Status::Done);
    Ok(())
}

/// Runs a command on a scene of three rows, by a sink of which one call fails.
fn three_rows(alloc: Global, words: &[&str], failing: u64) -> Result<Status, Fail> {
    let given = Given {
        words,
        scene: scene_of_three_rows(),
        writes: (4096, 4096, failing),
        ..render()
    };
    Ok(run_words(alloc, &given)?.status)
}
