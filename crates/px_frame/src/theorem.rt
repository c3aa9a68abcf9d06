//! The picture theorem (docs/PROMISES.md, "The picture theorem").
ghost use Rattle.px_frame.specs.PictureLaw.{SmallScenesAreDrawn, TextsHavePictures};

use px_normal::laws_of_live_products;

/// The picture theorem: what the two images of an accepted text's scene show, pixel by pixel.
#[tactic(auto, using(crate::proofs::PictureLemmas::texts_have_pictures))]
pub fn law_of_pictures()
    ensures pictures { TextsHavePictures }
{}

/// Which scenes an array draws, without a word of boxes.
#[tactic(auto, using(crate::proofs::PictureLemmas::small_scenes_are_drawn))]
pub fn law_of_small_scenes()
    ensures drawn { SmallScenesAreDrawn }
{
    laws_of_live_products();
}
