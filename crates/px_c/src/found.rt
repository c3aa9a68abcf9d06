//! What a call found, as C has it.
ghost use Rattle.std.specs.Prelude.{◌≡◌, length};
ghost use Rattle.px_sched.specs.Passes.{passes};
ghost use Rattle.px_control.specs.Program.{total};
ghost use Rattle.px_c.specs.Answers.{cost_found, nothing, scene_found};
ghost use Rattle.px_c.specs.Numbers.{cause_number, kind_number, limit_number, list_number};

use px_commands::Kind;
use px_listing::ListKind;
use px_scene::{Cause, LimitKind, Scene};

/// What a call found (include/pxplanes.h, `struct pxplanes_found`). What does not apply is 0.
#[repr(C)]
#[derive(Clone, Copy)]
pub struct Found {
    /// The columns of the picture.
    pub width: u32,
    /// Its rows.
    pub height: u32,
    /// How many faces the scene has.
    pub faces: u32,
    /// The first bad line, counted from 1.
    pub line: u32,
    /// Why its words are bad.
    pub cause: u32,
    /// What has the limit that is passed.
    pub kind: u32,
    /// How many were found, past the limit.
    pub number: i64,
    /// How many operations the passes of the scene have.
    pub operations: u64,
    /// How many clocks they take.
    pub clocks: u64,
    /// How many elements a buffer has to have.
    pub room: u64,
}

/// Nothing.
pub(crate) fn nothing() -> Found
    ensures { result ≡ nothing }
{
    Found {
        width: 0,
        height: 0,
        faces: 0,
        line: 0,
        cause: 0,
        kind: 0,
        number: 0,
        operations: 0,
        clocks: 0,
        room: 0,
    }
}

/// The picture's size, and how many faces its scene has.
pub(crate) fn scene_found(scene: &Scene) -> Found
    ensures { result ≡ scene_found scene.now }
{
    Found {
        width: scene.width(),
        height: scene.height(),
        faces: scene.faces(),
        ..nothing()
    }
}

/// The picture's size, its faces, how many operations the passes of the scene have, and how many clocks they take.
pub(crate) fn cost_found(scene: &Scene, operations: u64, clocks: u64) -> Found
    requires operations { operations ≡ length (passes scene.now) }
    requires clocks { clocks ≡ total scene.now }
    ensures { result ≡ cost_found scene.now }
{
    Found {
        operations,
        clocks,
        ..scene_found(scene)
    }
}

/// How many operations a text broadcasts, and how many clocks they take.
pub(crate) fn course_found(operations: u64, clocks: u64) -> Found
    ensures { result ≡ record nothing { operations = operations; clocks = clocks } }
{
    Found {
        operations,
        clocks,
        ..nothing()
    }
}

/// The number of a cause.
pub(crate) fn cause_number(cause: Cause) -> u32
    ensures { result ≡ cause_number cause }
{
    cause as u32 + 1
}

/// The number of what has a limit.
pub(crate) fn kind_number(kind: LimitKind) -> u32
    ensures { result ≡ kind_number kind }
{
    kind as u32 + 1
}

/// The number of what has a limit in a listing.
pub(crate) fn list_number(kind: ListKind) -> u32
    ensures { result ≡ list_number kind }
{
    kind as u32 + 16
}

/// The number of what has a limit in what a command reads.
pub(crate) fn limit_number(kind: Kind) -> u32
    ensures { result ≡ limit_number kind }
{
    match kind {
        Kind::Scene(kind) => kind_number(kind),
        Kind::List(kind) => list_number(kind),
        Kind::Lights => 22,
        Kind::Tiles => 23,
    }
}
