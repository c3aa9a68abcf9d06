//! Runs of `debug` over sources and sinks in memory, whose calls fail at a place.
use crate::runs::{Given, Left, one_solid, render, run_words, try_bytes};
use px_draw::Status;
use std::alloc::Global;
use std::process::Abort;
use std::test::Fail;

fn lines() -> &'static [u8] {
    "step 3\ntrace\nmacro 3\nrun\nat\nfield 0 0\ntree 1 2\nhello\n\nquit\nstep 1\n".as_bytes()
}

fn answers() -> &'static [u8] {
    "at 3\n0: hold enable-all\n1: hold store-const 0 0\n\
2: hold store-const 1 0\nat 9\nat 317\nat 317 of 317 done\nfield 0 0 b 5 2 t 5 2 alive 1 par 0\n\
? line 7\n? line 8\n"
        .as_bytes()
}

/// Runs `debug` on one solid and these lines, read in pieces of which one fails, by a sink of which one call fails.
fn sit(alloc: Global, lines: &[u8], reads: (usize, u64), failing: u64) -> Result<Left, Fail> {
    let given = Given {
        words: &["debug"],
        lines,
        reads,
        writes: (4096, 4096, failing),
        ..render()
    };
    run_words(alloc, &given)
}

/// So many bytes were written, a front of the answers, and the output was finished only where all were.
fn answered(rt: &impl Abort, left: &Left, answers: &[u8], count: usize) {
    left.wrote(rt, answers, count, left.status == Status::Done);
}

/// However the input is cut, the answers are the same; a line behind `quit` is not answered.
#[test]
fn pieces_do_not_matter(rt: HostRuntime) -> Result<(), Fail> {
    for piece in [1, 7, 4096] {
        let left = sit(rt.alloc(), lines(), (piece, 0), 0)?;
        left.ended(&rt, Status::Done, b"", 317);
        answered(&rt, &left, answers(), answers().len());
    }
    Ok(())
}

/// The first read gives everything, and the second fails: both lines are answered before it.
#[test]
fn lines_are_answered_before_the_next_read(rt: HostRuntime) -> Result<(), Fail> {
    let answers = b"at 3\nat 3 of 317 macro 1 micro 2\n";
    let left = sit(rt.alloc(), b"step 3\nat\n", (1000, 2), 0)?;
    left.ended(&rt, Status::ReadFault, b"read fault\n", 3);
    answered(&rt, &left, answers, answers.len());
    Ok(())
}

/// Each write of a session fails in turn, and then the finishing: how long the output then is, and the
/// clocks that were made.
const LEFT_BY_CALL: [(u64, usize, u64); 9] = [
    (1, 0, 3),
    (2, 5, 3),
    (3, 72, 9),
    (4, 77, 317),
    (5, 84, 317),
    (6, 103, 317),
    (7, 139, 317),
    (8, 148, 317),
    (9, 157, 317),
];

#[test]
fn a_failing_write_breaks_off(rt: HostRuntime) -> Result<(), Fail> {
    for (call, output, clocks) in LEFT_BY_CALL {
        let left = sit(rt.alloc(), lines(), (9, 0), call)?;
        left.ended(&rt, Status::WriteFault, b"write fault\n", clocks);
        answered(&rt, &left, answers(), output);
    }
    Ok(())
}

/// Cut behind the first line, which is answered before more is asked for; the second, which is none of a debugger's, is answered
/// before the end is.
#[test]
fn each_line_is_answered_before_the_next_ask(rt: HostRuntime) -> Result<(), Fail> {
    let first = one_solid().len() + "step 3\n".len();
    let left = sit(rt.alloc(), b"step 3\nhello\n", (first, 0), 0)?;
    assert_eq!(rt; left.status, Status::Done);
    asked(&rt, &left, b"step 3\n>at 3\n<hello\n>at 3\n? line 2\n<>");
    Ok(())
}

/// The second ask fails, behind the answers of both lines.
#[test]
fn an_ask_that_fails_is_told(rt: HostRuntime) -> Result<(), Fail> {
    let left = sit(rt.alloc(), b"step 3\nhello\n", (4096, 2), 0)?;
    assert_eq!(rt; left.status, Status::ReadFault);
    asked(&rt, &left, b"step 3\nhello\n>at 3\n? line 2\n<>");
    Ok(())
}

/// The first ask began with the scene, before anything was written; what follows is this.
fn asked(rt: &impl Abort, left: &Left, rest: &[u8]) {
    let scene = left
        .asks
        .strip_prefix(b"<")
        .expect(rt, "an ask before anything is written");
    let found = scene.strip_prefix(one_solid()).expect(rt, "the scene");
    try_bytes(rt, found, rest);
}
