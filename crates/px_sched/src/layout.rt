//! Where the passes keep their numbers in the memory of a pixel.
ghost use Rattle.std.specs.Prelude.{◌≡◌, ◌+◌, ◌<◌, ◌≤◌, ◌↔◌, IfErr, IfOk, IsOk};
ghost use Rattle.px_sched.specs.Layouts.{
  IsLayout,
  bit_length,
  deep_part,
  depth_part,
  fraction_part,
  layout_of,
  layout_with,
  need_of,
  number_part,
};

use px_macro::Field;
use px_model::Scene;
use px_num::power;
use std::marker::Model;
use thiserror::Error;

/// Where the passes keep their numbers in the memory of a pixel (docs/PASSES.md, "Layout").
///
/// Key B has the best depth and face number so far, key T those of the candidate. In a key the
/// number is the low bits and the depth the high ones. A layout keeps in its type that its parts
/// stand one after another, for a depth of 1 to 24 bits and a number of 1 to 12.
#[derive(Clone, Copy)]
pub struct Layout {
    pub depth_bits: u32,
    pub fraction_bits: u32,
    pub number_bits: u32,
    pub key_b: Field,
    pub key_t: Field,
    /// The bit that says whether the candidate is alive.
    pub alive: u32,
    /// The bit that says whether an odd number of faces was passed.
    pub par: u32,
}

impl Model for Layout {
    ghost use Rattle.px_sched.specs.Layouts.{IsLayout, LayoutView};

    ghost Value = { LayoutView };

    ghost view = { λ l. record {
      depth_bits = l.depth_bits;
      fraction_bits = l.fraction_bits;
      number_bits = l.number_bits;
      key_b = l.key_b;
      key_t = l.key_t;
      alive = l.alive;
      par = l.par;
    } };

    ghost invariant = { λ l. IsLayout (record {
      depth_bits = l.depth_bits;
      fraction_bits = l.fraction_bits;
      number_bits = l.number_bits;
      key_b = l.key_b;
      key_t = l.key_t;
      alive = l.alive;
      par = l.par;
    }) };

    ghost inverse = { λ l. record {
      depth_bits = l.depth_bits;
      fraction_bits = l.fraction_bits;
      number_bits = l.number_bits;
      key_b = l.key_b;
      key_t = l.key_t;
      alive = l.alive;
      par = l.par;
    } };
}

/// More memory bits are wanted than a pixel has.
#[derive(Clone, Copy, Debug, PartialEq, Eq, Error)]
#[error("{need} memory bits a pixel")]
pub struct NeedBits {
    /// The bits that the passes of the scene need.
    pub need: u32,
}

impl Layout {
    /// The layout of a scene's passes in pixels of so many memory bits.
    #[tactic(auto, using(crate::proofs::LayoutLaws::scene_layout))]
    pub fn of(scene: &Scene, bits: u32) -> Result<Layout, NeedBits>
        ensures layout { IfOk result (λ layout. layout ≡ layout_of scene.now) }
        ensures need { IfErr result (λ fault. fault.need ≡ need_of (layout_of scene.now)) }
        ensures fits { IsOk result ↔ (need_of (layout_of scene.now) ≤ bits) }
    {
        let layout = Layout::with(
            scene.depth_bits(),
            scene.fraction_bits(),
            bit_length(scene.faces()),
        );
        let need = layout.par + 1;
        if need <= bits {
            Ok(layout)
        } else {
            Err(NeedBits { need })
        }
    }

    /// The best face number.
    pub fn b_number(&self) -> Field
        ensures field { result ≡ number_part self.now self.now.key_b }
        ensures lawful { IsLayout self.now }
    {
        self.number_part(self.key_b)
    }

    /// The best depth.
    pub fn b_depth(&self) -> Field
        ensures field { result ≡ depth_part self.now self.now.key_b }
        ensures lawful { IsLayout self.now }
    {
        self.depth_part(self.key_b)
    }

    /// The candidate's face number.
    pub fn t_number(&self) -> Field
        ensures field { result ≡ number_part self.now self.now.key_t }
        ensures lawful { IsLayout self.now }
    {
        self.number_part(self.key_t)
    }

    /// The candidate's depth.
    pub fn t_depth(&self) -> Field
        ensures field { result ≡ depth_part self.now self.now.key_t }
        ensures lawful { IsLayout self.now }
    {
        self.depth_part(self.key_t)
    }

    /// The best depth with its fraction.
    pub fn b_deep(&self) -> Field
        ensures field { result ≡ deep_part self.now self.now.key_b }
        ensures lawful { IsLayout self.now }
    {
        self.deep_part(self.key_b)
    }

    /// The candidate's depth with its fraction.
    pub fn t_deep(&self) -> Field
        ensures field { result ≡ deep_part self.now self.now.key_t }
        ensures lawful { IsLayout self.now }
    {
        self.deep_part(self.key_t)
    }

    /// The fraction of the candidate's depth, where a depth has a fraction.
    pub fn t_fraction(&self) -> Field
        requires some { 1 ≤ self.now.fraction_bits }
        ensures field { result ≡ fraction_part self.now self.now.key_t }
        ensures lawful { IsLayout self.now }
    {
        Field {
            at: self.key_t.at + self.number_bits,
            len: self.fraction_bits,
        }
    }

    /// A layout for depths and face numbers of so many bits.
    fn with(depth_bits: u32, fraction_bits: u32, number_bits: u32) -> Layout
        requires some_depth { 1 ≤ depth_bits }
        requires depth { depth_bits + fraction_bits ≤ 24 }
        requires fraction { fraction_bits ≤ 8 }
        requires some_number { 1 ≤ number_bits }
        requires number { number_bits ≤ 12 }
        ensures { result ≡ layout_with depth_bits fraction_bits number_bits }
    {
        let len = depth_bits + fraction_bits + number_bits;
        Layout {
            depth_bits,
            fraction_bits,
            number_bits,
            key_b: Field { at: 0, len },
            key_t: Field { at: len, len },
            alive: 2 * len,
            par: 2 * len + 1,
        }
    }

    fn number_part(&self, key: Field) -> Field
        ensures { result ≡ number_part self.now key }
    {
        Field {
            at: key.at,
            len: self.number_bits,
        }
    }

    fn depth_part(&self, key: Field) -> Field
        requires { key.at ≤ 36 }
        ensures { result ≡ depth_part self.now key }
    {
        Field {
            at: key.at + self.number_bits + self.fraction_bits,
            len: self.depth_bits,
        }
    }

    fn deep_part(&self, key: Field) -> Field
        requires { key.at ≤ 36 }
        ensures { result ≡ deep_part self.now key }
    {
        Field {
            at: key.at + self.number_bits,
            len: self.depth_bits + self.fraction_bits,
        }
    }
}

/// How many bits a number below `2^12` has.
#[tactic(auto, using(crate::proofs::LayoutLaws::counted, crate::proofs::LayoutLaws::passed_over, px_num::proofs::TruthLaws::le_false, px_num::proofs::TruthLaws::le_true))]
fn bit_length(number: u32) -> u32
    ensures { result ≡ bit_length number }
{
    let mut bits = 0;
    for bit in 0..12u32 {
        if power(bit) <= number as usize {
            bits += 1;
        }
    }
    bits
}
