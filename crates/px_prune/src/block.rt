//! Blocks of pixels, and the values of linear forms in them.
ghost use Rattle.std.specs.Prelude.{◌<◌, ◌≤◌};
ghost use Rattle.px_model.specs.declared.limits.TheConstants.{MAX_PICTURE_SIZE};

use crate::CellBox;
use px_normal::EVERYTHING;
use px_num::Linear;

/// The pixels `x0` to `x1` of the rows `y0` to `y1`, both ends included.
#[derive(Clone, Copy)]
pub(crate) struct Block {
    pub x0: u32,
    pub x1: u32,
    pub y0: u32,
    pub y1: u32,
    ghost columns: { x0 ≤ x1 },
    ghost rows: { y0 ≤ y1 },
    ghost in_width: { x1 < MAX_PICTURE_SIZE },
    ghost in_height: { y1 < MAX_PICTURE_SIZE },
}

impl Block {
    ghost use Rattle.std.specs.Prelude.{◌≡◌, ◌<◌, ◌-◌, ◌^◌, ◌≤ℤ◌, ◌&&◌, ◌||◌, nat_le, nat_lt, ℕ, true, false};
    ghost use Rattle.px_num.specs.Forms.{IsInTreeRange, IsWithin, value_at};
    ghost use Rattle.px_model.specs.Scenes.{IsPlane};
    ghost use Rattle.px_model.specs.declared.limits.TheConstants.{MAX_PICTURE_SIZE};
    ghost use Rattle.px_prune.specs.Blocks.{
      extent,
      greatest_in,
      has_pixel,
      is_one_pixel,
      least_in,
    };

    /// All pixels of a picture.
    pub(crate) fn of_picture(width: u32, height: u32) -> Block
        requires some_width { 1 ≤ width }
        requires width { width ≤ MAX_PICTURE_SIZE }
        requires some_height { 1 ≤ height }
        requires height { height ≤ MAX_PICTURE_SIZE }
        ensures { (x y : ℕ) → has_pixel result x y ≡ (nat_lt x width && nat_lt y height) }
    {
        Block {
            x0: 0,
            x1: width - 1,
            y0: 0,
            y1: height - 1,
        }
    }

    pub(crate) fn is_pixel(&self) -> bool
        ensures { result ≡ is_one_pixel self.now }
    {
        self.x0 == self.x1 && self.y0 == self.y1
    }

    /// Whether its pixels may be looked at one by one, at most 32 by 32.
    pub(crate) fn is_small(&self) -> bool {
        (self.x1 - self.x0) + (self.y1 - self.y0) <= 62
    }

    /// Whether it is at least as wide as it is high.
    pub(crate) fn is_wide(&self) -> bool
        ensures { result ≡ nat_le (self.now.y1 - self.now.y0) (self.now.x1 - self.now.x0) }
    {
        self.y1 - self.y0 <= self.x1 - self.x0
    }

    /// Its two parts, cut across the longer side at an edge of the box that was found, where one crosses it, otherwise in the
    /// middle. Where a box was found, it began at the upper left: the lower or right part may let it grow more, and comes first.
    pub(crate) fn parts(&self, found: Option<CellBox>) -> (Block, Block)
        requires { is_one_pixel self.now ≡ false }
        ensures parts { (x y : ℕ) → has_pixel self.now x y
            ≡ (has_pixel result.0 x y || has_pixel result.1 x y) }
        ensures first { extent result.0 < extent self.now }
        ensures second { extent result.1 < extent self.now }
    {
        let edges = found.unwrap_or(EVERYTHING);
        let mut low = *self;
        let mut high = *self;
        if self.is_wide() {
            low.x1 = last_before(self.x0, self.x1, edges.x0, edges.x1);
            high.x0 = low.x1 + 1;
        } else {
            low.y1 = last_before(self.y0, self.y1, edges.y0, edges.y1);
            high.y0 = low.y1 + 1;
        }
        match found {
            None => (low, high),
            Some(_) => (high, low),
        }
    }

    /// The least value of a form in the block, which it has at a corner.
    pub(crate) fn least(&self, form: &Linear) -> i64
        requires { IsPlane form.now }
        ensures value { result ≡ least_in self.now form.now }
        ensures bound { (x y : ℕ) → has_pixel self.now x y ≡ true → result ≤ℤ value_at form.now x y }
        ensures size { IsWithin (2 ^ 39 - 1) result }
    {
        let x = if form.a < 0 { self.x1 } else { self.x0 };
        let y = if form.b < 0 { self.y1 } else { self.y0 };
        form.value(x, y)
    }

    /// The greatest value of a form in the block, which it has at a corner.
    pub(crate) fn greatest(&self, form: &Linear) -> i64
        requires { IsInTreeRange form.now }
        ensures value { result ≡ greatest_in self.now form.now }
        ensures bound { (x y : ℕ) → has_pixel self.now x y ≡ true → value_at form.now x y ≤ℤ result }
    {
        let x = if form.a < 0 { self.x0 } else { self.x1 };
        let y = if form.b < 0 { self.y0 } else { self.y1 };
        form.value(x, y)
    }
}

/// The last place before an edge of a range that crosses the places `low` to `high`, or before their middle.
fn last_before(low: u32, high: u32, from: u32, to: u32) -> u32
    requires places { low < high }
    ensures from { low ≤ result }
    ensures to { result < high }
{
    if low < from && from <= high {
        from - 1
    } else if low <= to && to < high {
        to
    } else {
        low + (high - low) / 2
    }
}
