//! Sums of the samples of pixels.
ghost use Rattle.std.specs.Prelude.{◌≡◌, ◌*◌, ◌/◌, ◌^◌, ◌≤◌};
ghost use Rattle.px_frame.specs.MeanSums.{AreSumsAtMost, mean_of, no_sums, together, with_colour};

use crate::finer::parts;
use px_model::Colour;

/// Sums of the samples of some pixels.
#[derive(Clone, Copy)]
pub(crate) struct Sums {
    red: u32,
    green: u32,
    blue: u32,
}

impl Sums {
    /// Over no pixel.
    pub(crate) fn new() -> Sums
        ensures { result ≡ no_sums }
    {
        Sums {
            red: 0,
            green: 0,
            blue: 0,
        }
    }

    /// Over one pixel more.
    pub(crate) fn with(&self, colour: Colour) -> Sums
        requires { AreSumsAtMost 65535 self.now }
        ensures { result ≡ with_colour self.now colour }
    {
        Sums {
            red: self.red + u32::from(colour.red),
            green: self.green + u32::from(colour.green),
            blue: self.blue + u32::from(colour.blue),
        }
    }

    /// Over the pixels of both.
    pub(crate) fn plus(&self, more: &Sums) -> Sums
        requires first { AreSumsAtMost 65535 self.now }
        requires second { AreSumsAtMost 65535 more.now }
        ensures { result ≡ together self.now more.now }
    {
        Sums {
            red: self.red + more.red,
            green: self.green + more.green,
            blue: self.blue + more.blue,
        }
    }

    /// Each as the mean over `2^s` by `2^s` pixels, rounded down.
    pub(crate) fn mean(&self, s: u32) -> Colour
        requires few { s ≤ 2 }
        requires most { AreSumsAtMost (255 * (2 ^ s * 2 ^ s)) self.now }
        ensures { result ≡ mean_of s self.now }
    {
        Colour {
            red: mean(self.red, s),
            green: mean(self.green, s),
            blue: mean(self.blue, s),
        }
    }
}

fn mean(sum: u32, s: u32) -> u8
    requires few { s ≤ 2 }
    requires most { sum ≤ 255 * (2 ^ s * 2 ^ s) }
    ensures { result ≡ sum / (2 ^ s * 2 ^ s) }
{
    (sum / (parts(s) * parts(s))) as u8
}
