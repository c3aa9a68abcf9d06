//! What the images of an array have to do with the picture of a scene.
ghost use Rattle.px_frame.specs.ImagesLaw.{FacesAreOfTheScene, ImagesShowThePicture};

/// Where each pixel of the picture stores what it shows, the stored images are those of the
/// picture, and the stored face numbers are the scene's.
pub fn laws_of_images()
    ensures images { ImagesShowThePicture }
    ensures faces { FacesAreOfTheScene }
{}
