//! The state, the micros and the operations of a text.
ghost use Rattle.std.specs.Prelude.{◌≡◌, ◌≤◌, IfErr, IfOk, None, OnErr, OnOk, length};
ghost use Rattle.px_state.specs.Courses.{device_after};
ghost use Rattle.px_state.specs.Operations.{HasOperations, IsOperationOf};
ghost use Rattle.px_state.specs.Packed.{HasMicros};
ghost use Rattle.px_state.specs.Refusals.{IsRefusedBy, course_of, micros_refusal, operations_refusal, state_refusal};
ghost use Rattle.px_state.specs.States.{IsCourse, IsRunTo, IsState, FaultLeaves};
ghost use Rattle.px_state.specs.Words.{BeginsWithState};

use crate::broadcast::{Broadcast, read_input};
use crate::fault::StateFault;
use crate::operation::Operation;
use crate::room::{judge, judge_stretch};
use crate::running::run_to;
use crate::state::{Course, State};
use crate::words::{room_of, write_words};
use crate::{micros, operations};
use px_array::Array;
use px_planes::PlaneArray;
use std::alloc::Global;

/// Finds the state of a scene or of a listing after so many clocks, and writes its words to the front
/// of a list.
///
/// A text whose first word is `pxlist` is a listing, and every other one a scene. `NoClock` comes
/// where the clock lies past the last, and `NoRoom` where the list has fewer words than `room_of`
/// says. After an error the list is as it was; after `Ok` so is what comes after the words of the
/// state. The array is then the one after these clocks, and a refusal of the text leaves it as it was.
pub fn write_state<const N: usize>(
    alloc: Global,
    text: &[u8],
    clock: u64,
    words: &mut [u64],
    array: &mut PlaneArray<N>,
) -> Result<State, StateFault>
    requires bits { N ≤ 256 }
    ensures ok { OnOk result (state_refusal N text.now clock (length words.old) ≡ None) }
    ensures state { IfOk result (λ s. IsState N (course_of text.now) clock s) }
    ensures words { OnOk result (BeginsWithState N
        (device_after N (course_of text.now) clock).state words.old words.new) }
    ensures err { IfErr result (λ fault.
        IsRefusedBy fault (state_refusal N text.now clock (length words.old))) }
    ensures kept { OnErr result (words.new ≡ words.old) }
    ensures length { length words.new ≡ length words.old }
    ensures array { OnOk result (IsRunTo N (course_of text.now) clock array.new) }
    ensures refused { IfErr result (λ fault. FaultLeaves fault N (course_of text.now)
        array.old array.new) }
{
    let input = read_input(alloc, text, N as u32)?;
    let course = Broadcast::of(alloc, &input, N as u32)?;
    let (nx, ny) = course.grid();
    array.open(nx, ny)?;
    let (operations, clocks) = course.cost();
    let due = room_of(N, nx, ny);
    judge(clock, clocks, words.len(), due)?;
    let next = run_to(&course, array, clock);
    write_words(array, words);
    Ok(State {
        nx,
        ny,
        bits: N as u32,
        operations,
        clocks,
        clock,
        next,
    })
}

/// Writes the micros of a scene or of a listing from a clock on, each packed into a word, as many as
/// the list has (`packed` has the form).
///
/// The text is read as by `write_state`, for pixels of so many memory bits, 1 to 256. `NoClock` comes
/// where there are not so many. After an error the list is as it was.
pub fn write_micros(
    alloc: Global,
    text: &[u8],
    bits: u32,
    first: u64,
    micros: &mut [u64],
) -> Result<Course, StateFault>
    requires bits { bits ≤ 256 }
    ensures ok { OnOk result (micros_refusal bits text.now first (length micros.old) ≡ None) }
    ensures course { IfOk result (λ c. IsCourse (course_of text.now) c) }
    ensures micros { OnOk result (HasMicros (course_of text.now) first micros.new) }
    ensures err { IfErr result (λ fault.
        IsRefusedBy fault (micros_refusal bits text.now first (length micros.old))) }
    ensures kept { OnErr result (micros.new ≡ micros.old) }
    ensures length { length micros.new ≡ length micros.old }
{
    let input = read_input(alloc, text, bits)?;
    let course = Broadcast::of(alloc, &input, bits)?;
    let (operations, clocks) = course.cost();
    judge_stretch(first, micros.len(), clocks, StateFault::NoClock { clocks })?;
    micros::put_course(&course, first, micros);
    Ok(Course { operations, clocks })
}

/// Writes the operations of a scene or of a listing from one on, each with what it is for, as many as
/// the list has.
///
/// The text is read as by `write_state`, for pixels of so many memory bits, 1 to 256. `NoOperation`
/// comes where there are not so many. After an error the list is as it was.
pub fn write_operations(
    alloc: Global,
    text: &[u8],
    bits: u32,
    first: u64,
    list: &mut [Operation],
) -> Result<Course, StateFault>
    requires bits { bits ≤ 256 }
    ensures ok { OnOk result (operations_refusal bits text.now first (length list.old) ≡ None) }
    ensures course { IfOk result (λ c. IsCourse (course_of text.now) c) }
    ensures operations { OnOk result (HasOperations (IsOperationOf text.now) first list.new) }
    ensures err { IfErr result (λ fault.
        IsRefusedBy fault (operations_refusal bits text.now first (length list.old))) }
    ensures kept { OnErr result (list.new ≡ list.old) }
    ensures length { length list.new ≡ length list.old }
{
    let input = read_input(alloc, text, bits)?;
    let course = Broadcast::of(alloc, &input, bits)?;
    let (operations, clocks) = course.cost();
    judge_stretch(
        first,
        list.len(),
        operations,
        StateFault::NoOperation { operations },
    )?;
    operations::put_course(&course, first, list);
    Ok(Course { operations, clocks })
}
