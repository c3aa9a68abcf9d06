//! What a state, micros and operations are refused for, once the text is read.
ghost use Rattle.std.specs.Prelude.{◌≡◌, ◌+◌, ◌<◌, ◌≤◌, ℕ, IfErr, None, OnOk, Some, nat_lt};
ghost use Rattle.px_array.specs.Slots.{ArrayView};
ghost use Rattle.px_listing.specs.Listings.{ListingView};
ghost use Rattle.px_state.specs.Refusals.{refused_by, refused_where};
ghost use Rattle.px_state.specs.States.{IsRunTo, FaultLeaves};

use crate::fault::StateFault;

/// Whether a clock is not past the last, and so many words are as many as are needed.
pub(crate) fn judge(clock: u64, clocks: u64, words: usize, due: usize) -> Result<(), StateFault>
    ensures ok { OnOk result (refused_by clock clocks words due ≡ None) }
    ensures clock { OnOk result (clock ≤ clocks) }
    ensures room { OnOk result (due ≤ words) }
    ensures err { IfErr result (λ fault. refused_by clock clocks words due ≡ Some fault) }
    ensures opened { IfErr result (λ fault. (bits : ℕ) (l : ListingView) (before now : ArrayView)
        → IsRunTo bits l 0 now → FaultLeaves fault bits l before now) }
{
    if clocks < clock {
        return Err(StateFault::NoClock { clocks });
    }
    if words < due {
        return Err(StateFault::NoRoom { room: due as u64 });
    }
    Ok(())
}

/// Whether so many from one on end where all do, or before; otherwise the fault is answered.
pub(crate) fn judge_stretch(
    first: u64,
    count: usize,
    end: u64,
    fault: StateFault,
) -> Result<(), StateFault>
    ensures ok { OnOk result (refused_where (nat_lt end (first + count)) fault ≡ None) }
    ensures within { OnOk result (first + count ≤ end) }
    ensures err { IfErr result (λ answer. refused_where (nat_lt end (first + count)) fault ≡ Some answer) }
{
    if end < first || end - first < count as u64 {
        Err(fault)
    } else {
        Ok(())
    }
}
