//! What `render` writes, by the picture theorem (docs/PROMISES.md, "The picture theorem").
ghost use Rattle.px_draw.specs.RenderLaw.{AcceptedIsRendered, RenderedIsAccepted};

use px_frame::law_of_pictures;

/// What `render` is to write of every text that is accepted, the maps of the picture theorem, and that it writes nothing for any
/// other. That a run writes so is said by `run`.
pub fn law_of_render()
    ensures rendered { AcceptedIsRendered }
    ensures accepted { RenderedIsAccepted }
{
    law_of_pictures();
}
