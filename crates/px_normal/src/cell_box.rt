//! Boxes of cells.
ghost use Rattle.std.specs.Prelude.{◌≡◌, Option, Some, None};
ghost use Rattle.px_normal.specs.Boxes.{common_part, has_cell, narrowed};

/// Cells from one corner to the other, both included: pixels `x0` to `x1` of the rows `y0` to
/// `y1`, at the depths `z0` to `z1`.
#[derive(Clone, Copy)]
pub struct CellBox {
    pub x0: u32,
    pub x1: u32,
    pub y0: u32,
    pub y1: u32,
    pub z0: u32,
    pub z1: u32,
}

/// All cells that a box can hold.
pub const EVERYTHING: CellBox = CellBox {
    x0: 0,
    x1: u32::MAX,
    y0: 0,
    y1: u32::MAX,
    z0: 0,
    z1: u32::MAX,
};

impl CellBox {
    /// The cells that lie in both.
    pub fn common_part(&self, other: &CellBox) -> CellBox
        ensures { result ≡ common_part self.now other.now }
    {
        CellBox {
            x0: self.x0.max(other.x0),
            x1: self.x1.min(other.x1),
            y0: self.y0.max(other.y0),
            y1: self.y1.min(other.y1),
            z0: self.z0.max(other.z0),
            z1: self.z1.min(other.z1),
        }
    }

    /// Whether a cell lies in it.
    pub fn has_cell(&self) -> bool
        ensures { result ≡ has_cell self.now }
    {
        self.x0 <= self.x1 && self.y0 <= self.y1 && self.z0 <= self.z1
    }
}

/// The common part of two boxes, where both are there.
pub fn narrowed(a: Option<CellBox>, b: Option<CellBox>) -> Option<CellBox>
    ensures { result ≡ narrowed a b }
{
    match (a, b) {
        (Some(a), Some(b)) => Some(a.common_part(&b)),
        _ => None,
    }
}
