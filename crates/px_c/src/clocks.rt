//! `pxplanes_clocks`: clocks of a state that the caller keeps.
ghost use Rattle.std.specs.Prelude.{◌≡◌, ◌≤◌, ℕ, IfSome, Some, length};
ghost use Rattle.px_state.specs.Clocking.{AreClocked};
ghost use Rattle.px_c.specs.ClocksAnswer.{clocks_answer, exponent_of_side};
ghost use Rattle.px_c.specs.declared.status.TheConstants.{BITS, OK};

use crate::found::{Found, nothing};
use crate::status::{BITS, NO_GRID, NO_MICRO, NO_ROOM, OK};
use px_state::{make_clocks, room_of};

/// Makes a clock of each micro, each packed into a word, on the state that is in the front of `words`.
#[unsafe(no_mangle)]
pub extern "C" fn pxplanes_clocks(
    words: &mut [u64],
    grid_width: u32,
    grid_height: u32,
    micros: &[u64],
    found: &mut Found,
) -> u32
    ensures answer { clocks_answer (length words.old) grid_width grid_height micros.now
        ≡ record { status = result; found = found.new } }
    ensures words { result ≡ OK → (nx ny : ℕ) → exponent_of_side grid_width ≡ Some nx → exponent_of_side grid_height ≡ Some ny
        → AreClocked BITS nx ny micros.now words.old words.new }
    ensures kept { (result ≡ OK → ⊥) → words.new ≡ words.old }
    ensures length { length words.new ≡ length words.old }
{
    *found = nothing();
    match (exponent_of(grid_width), exponent_of(grid_height)) {
        (Some(nx), Some(ny)) => {
            let room = room_of(BITS, nx, ny);
            if words.len() < room {
                found.room = room as u64;
                return NO_ROOM;
            }
            match make_clocks(words, BITS, nx, ny, micros) {
                Ok(()) => {
                    found.clocks = micros.len() as u64;
                    OK
                }
                Err(stray) => {
                    found.number = stray as i64;
                    NO_MICRO
                }
            }
        }
        _ => NO_GRID,
    }
}

/// The exponent of a side of a grid: 2, 4, .. 512.
fn exponent_of(side: u32) -> Option<u32>
    ensures exponent { result ≡ exponent_of_side side }
    ensures within { IfSome result (λ e. (1 ≤ e) × (e ≤ 9)) }
{
    match side {
        2 => Some(1),
        4 => Some(2),
        8 => Some(3),
        16 => Some(4),
        32 => Some(5),
        64 => Some(6),
        128 => Some(7),
        256 => Some(8),
        512 => Some(9),
        _ => None,
    }
}
