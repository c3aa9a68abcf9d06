//! Linear forms `a * x + b * y + c`.
ghost use Rattle.std.specs.Prelude.{◌≡◌, ◌≤◌, ◌-◌, ◌*◌, ◌^◌, ◌*ℤ◌, ◌+ℤ◌, ◌-ℤ◌, ◌<ℤ◌, neg_ℤ, pos, ℕ};
ghost use Rattle.px_num.specs.Forms.{IsInHalfRange, IsInTreeRange, IsWithin, less_one, minus, plus, value_at};

/// A linear form `a * x + b * y + c` over the pixels of a screen.
///
/// `x` counts pixels from the left, and `y` from the top (docs/PICTURE.md, "Pixels and cells").
#[derive(Clone, Copy, Default)]
pub struct Linear {
    pub a: i64,
    pub b: i64,
    pub c: i64,
}

impl Linear {
    /// The value at a pixel, below `2^39` in size where `x` and `y` are at most 511.
    ///
    /// The form is in the range of the multiplier tree (`a` and `b` at most `2^27`, `c` at most
    /// `2^38` in size), and `x` and `y` are at most 4095.
    pub fn value(&self, x: u32, y: u32) -> i64
        requires range { IsInTreeRange self.now }
        requires x { x ≤ 4095 }
        requires y { y ≤ 4095 }
        ensures value { result ≡ value_at self.now x y }
        ensures size { x ≤ 511 → y ≤ 511 → IsWithin (2 ^ 39 - 1) result }
    {
        scaled(self.a, x) + scaled(self.b, y) + self.c
    }

    /// The form whose value is this one's less the other's.
    ///
    /// Of both, `a` and `b` are at most `2^26` and `c` at most `2^37` in size.
    pub fn minus(&self, other: &Linear) -> Linear
        requires range { IsInHalfRange self.now }
        requires other { IsInHalfRange other.now }
        ensures form { result ≡ minus self.now other.now }
        ensures range { IsInTreeRange result }
        ensures value { (x y : ℕ) → value_at result x y ≡ value_at self.now x y -ℤ value_at other.now x y }
    {
        Linear {
            a: self.a - other.a,
            b: self.b - other.b,
            c: self.c - other.c,
        }
    }

    /// The form whose value is greater by `n`; `c` is at most `2^37` in size.
    pub fn plus(&self, n: u32) -> Linear
        requires { IsInHalfRange self.now }
        ensures form { result ≡ plus self.now n }
        ensures range { IsInTreeRange result }
        ensures value { (x y : ℕ) → value_at result x y ≡ value_at self.now x y +ℤ pos n }
    {
        Linear {
            c: self.c + i64::from(n),
            ..*self
        }
    }

    /// The form whose value is one less; `c` is above `-2^38`.
    pub fn less_one(&self) -> Linear
        requires { neg_ℤ (pos (2 ^ 38)) <ℤ self.now.c }
        ensures form { result ≡ less_one self.now }
        ensures range { IsInTreeRange self.now → IsInTreeRange result }
        ensures value { (x y : ℕ) → value_at result x y ≡ value_at self.now x y -ℤ pos 1 }
    {
        Linear {
            c: self.c - 1,
            ..*self
        }
    }
}

/// `factor * place`.
fn scaled(factor: i64, place: u32) -> i64
    requires factor { IsWithin (2 ^ 27) factor }
    requires place { place ≤ 4095 }
    ensures value { result ≡ factor *ℤ pos place }
    ensures size { (most : ℕ) → place ≤ most → IsWithin (2 ^ 27 * most) result }
{
    factor * i64::from(place)
}
