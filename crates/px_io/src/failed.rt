//! The answer of every failed call on the outside.
ghost use Rattle.std.specs.Prelude.{◌≡◌, ◌≤◌};
ghost use Rattle.px_io.specs.Counts.{one_more};

/// A call on a source or a sink failed. The count of faults of that end shows it too.
#[derive(Clone, Copy, Debug, PartialEq, Eq)]
pub struct Failed;

/// Counts one more fault, up to the end of the type.
pub(crate) fn counted(faults: &mut u64) -> Failed
    ensures count { faults.new ≡ one_more faults.old }
    ensures later { faults.old ≤ faults.new }
{
    *faults = faults.saturating_add(1);
    Failed
}
