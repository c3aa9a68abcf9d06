//! The hull of boxes of cells, and whether one lies in another.
ghost use Rattle.std.specs.Prelude.{◌≡◌, Option, Some, None};
ghost use Rattle.px_prune.specs.Boxes.{hull};
ghost use Rattle.px_prune.specs.Covered.{is_covered};

use px_normal::CellBox;

/// The least box that has both as parts.
pub(crate) fn hull(a: Option<CellBox>, b: Option<CellBox>) -> Option<CellBox>
    ensures { result ≡ hull a b }
{
    match (a, b) {
        (None, b) => b,
        (a, None) => a,
        (Some(a), Some(b)) => Some(CellBox {
            x0: a.x0.min(b.x0),
            x1: a.x1.max(b.x1),
            y0: a.y0.min(b.y0),
            y1: a.y1.max(b.y1),
            z0: a.z0.min(b.z0),
            z1: a.z1.max(b.z1),
        }),
    }
}

/// Whether the first box, where it is there, lies in the second.
pub(crate) fn is_covered(a: Option<CellBox>, b: Option<CellBox>) -> bool
    ensures { result ≡ is_covered a b }
{
    match (a, b) {
        (None, _) => true,
        (Some(_), None) => false,
        (Some(a), Some(b)) => {
            b.x0 <= a.x0
                && a.x1 <= b.x1
                && b.y0 <= a.y0
                && a.y1 <= b.y1
                && b.z0 <= a.z0
                && a.z1 <= b.z1
        }
    }
}
