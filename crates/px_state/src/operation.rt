//! An operation of a text as data, and what it is for.
ghost use Rattle.std.specs.Prelude.{◌≡◌, ◌+◌, ◌<◌, pos, get_or, length};
ghost use Rattle.px_macro.specs.Macros.{IsLawful};
ghost use Rattle.px_listing.specs.Kinds.{operands_of};
ghost use Rattle.px_sched.specs.StepCursors.{HasFewOthers};
ghost use Rattle.px_sched.specs.Steps.{IsStep};
ghost use Rattle.px_face.specs.Faces.{face_count, face_number};
ghost use Rattle.px_sched.specs.Passes.{solid_of};
ghost use Rattle.px_state.specs.Operations.{
  no_operation,
  number_of_face,
  other_number,
  purpose_of,
  role_number,
  solid_number,
  told,
};

use px_face::number_of;
use px_listing::{kind_number, operands_of};
use px_macro::Macro;
use px_model::Scene;
use px_sched::Step;

/// An operation of a scene's passes or of a listing (include/pxplanes.h, `struct pxplanes_operation`).
#[repr(C)]
#[derive(Clone, Copy)]
pub struct Operation {
    /// The numbers of its line, in their order (docs/LISTINGS.md, "Operations"), and 0 behind them.
    pub first: i64,
    pub second: i64,
    pub third: i64,
    pub fourth: i64,
    pub fifth: i64,
    /// The clock at which it begins.
    pub clock: u64,
    /// Its step in a scene's passes, counted from 0 (docs/PASSES.md, "Steps").
    pub pass: u64,
    /// The literal that the step is of, counted from 1 among those of all products; 0 for the start.
    pub literal: u64,
    /// Which operation it is, counted from 1 (docs/MACHINE.md, "Broadcast operations").
    pub kind: u32,
    /// How many numbers its line has.
    pub count: u32,
    /// Which step it is of, counted from 1; 0 in a listing.
    pub role: u32,
    /// The solid of the face that the step is of, counted from 1; 0 where it is of none.
    pub solid: u32,
    /// That face's number; 0 for the far limit, which has none.
    pub face: u32,
    /// The other literal that the step asks, counted from 1; 0 where it asks none.
    pub other: u32,
}

/// No operation, which is for nothing.
pub(crate) fn no_operation() -> Operation
    ensures { result ≡ no_operation }
{
    Operation {
        first: 0,
        second: 0,
        third: 0,
        fourth: 0,
        fifth: 0,
        clock: 0,
        pass: 0,
        literal: 0,
        kind: 0,
        count: 0,
        role: 0,
        solid: 0,
        face: 0,
        other: 0,
    }
}

/// What the operations of a step are for.
pub(crate) fn purpose_of(scene: &Scene, step: Step, pass: u64, literal: u64) -> Operation
    requires faces { IsStep scene.now step }
    requires others { HasFewOthers step }
    ensures { result ≡ purpose_of scene.now step pass literal }
{
    let (solid, face) = face_in(scene, step);
    Operation {
        pass,
        literal,
        role: role_number(step),
        solid,
        face,
        other: other_number(step),
        ..no_operation()
    }
}

/// An operation that begins at a clock, and is for something.
pub(crate) fn told(m: &Macro, clock: u64, purpose: &Operation) -> Operation
    requires { IsLawful m.now 256 }
    ensures { result ≡ told m.now clock purpose.now }
{
    let operands = operands_of(m);
    let numbers = operands.as_slice();
    Operation {
        first: number_at(numbers, 0),
        second: number_at(numbers, 1),
        third: number_at(numbers, 2),
        fourth: number_at(numbers, 3),
        fifth: number_at(numbers, 4),
        clock,
        kind: kind_number(m),
        count: numbers.len() as u32,
        ..*purpose
    }
}

/// A number of a line, and 0 behind the last.
fn number_at(numbers: &[i64], place: usize) -> i64
    ensures { result ≡ get_or numbers.now place (pos 0) }
{
    if place < numbers.len() {
        numbers[place]
    } else {
        0
    }
}

/// The number of a step's kind.
fn role_number(step: Step) -> u32
    ensures { result ≡ role_number step }
{
    match step {
        Step::Start => 1,
        Step::Open => 2,
        Step::Candidate(..) => 3,
        Step::Drop(..) => 4,
        Step::Clear => 5,
        Step::Front(..) => 6,
        Step::Confirm => 7,
        Step::Begin(_) => 8,
        Step::Turn(..) => 9,
        Step::Close(..) => 10,
        Step::Merge => 11,
    }
}

/// The solid and the number of the face that a step is of.
fn face_in(scene: &Scene, step: Step) -> (u32, u32)
    requires { IsStep scene.now step }
    ensures solid { result.0 ≡ solid_number step }
    ensures face { result.1 ≡ number_of_face scene.now step }
{
    match step {
        Step::Candidate(solid, face) | Step::Drop(solid, face) | Step::Front(solid, face) => {
            face_of(scene, solid, face)
        }
        Step::Turn(_, solid, face) => face_of(scene, solid, face),
        Step::Start
        | Step::Open
        | Step::Clear
        | Step::Confirm
        | Step::Begin(_)
        | Step::Close(..)
        | Step::Merge => (0, 0),
    }
}

/// The number of a solid, and that of one of its faces.
fn face_of(scene: &Scene, solid: u8, face: usize) -> (u32, u32)
    requires solid { solid < length scene.now.solids }
    requires face { face < face_count (solid_of scene.now solid) }
    ensures solid { result.0 ≡ solid + 1 }
    ensures face { result.1 ≡ face_number (solid_of scene.now solid) face }
{
    let number = number_of(&scene.solids()[usize::from(solid)], face);
    (u32::from(solid) + 1, number)
}

/// The other literal that a step asks.
fn other_number(step: Step) -> u32
    requires { HasFewOthers step }
    ensures { result ≡ other_number step }
{
    match step {
        Step::Begin(other) | Step::Turn(other, _, _) | Step::Close(other, _) => other as u32 + 1,
        _ => 0,
    }
}
