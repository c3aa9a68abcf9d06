//! What the shadow passes find, and that they can be carried out.
ghost use Rattle.px_shadow.specs.ShadowLaws.{
  MaskLaw,
  ShadedGridLaw,
  ShadedLaw,
  ShadowLaw,
  ShadowPassesAreLawful,
};

/// The laws of shadows, for any number of fraction bits.
///
/// Where a pixel stores what it shows, the shadow passes leave in its memory by which lights it is
/// lit; an array on which they were made stores that at each pixel of the picture, and the image of
/// its bits is that of the lights.
pub fn laws_of_shadows()
    ensures pixel { ShadowLaw }
    ensures lawful { ShadowPassesAreLawful }
    ensures shaded { ShadedLaw }
    ensures grid { ShadedGridLaw }
    ensures masks { MaskLaw }
{}
