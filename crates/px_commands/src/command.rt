//! What a run is asked to do.
use px_frame::Fineness;

/// What the program is asked to do (docs/SCENES.md, "Commands").
#[derive(Clone, Copy)]
pub enum Command {
    /// Makes something of the scene that is the whole input.
    Make(Work),
    /// Answers command lines in a session over the scene before them.
    Debug,
    /// Draws the sample of so many blocks, 1 to `px_model::MAX_BLOCKS`, and prints four numbers of it.
    Sample(u32),
    /// Draws the image of the lights that the lines after the scene name.
    Shadow,
    /// Plays the listing that is the whole input, and prints the memory of every pixel.
    Play,
}

/// What is made of a scene.
#[derive(Clone, Copy)]
pub enum Work {
    /// Draws the depth image and the face image.
    Render,
    /// Draws the colour image.
    Colour,
    /// Writes the scene's canonical text.
    Tidy,
    /// Prints the products of the shown expression.
    Plan,
    /// Prints how many operations and clocks the scene takes.
    Cost,
    /// Draws the finer scene, and one colour image of means over it.
    Refine(Fineness),
    /// Draws the depth image and the face image of a wide picture, tile by tile.
    Tile(Size),
    /// Writes the scene's passes as a listing.
    List,
}

/// The size of a wide picture in pixels, each side of 1 to `px_model::MAX_WIDE_PICTURE_SIZE`.
#[derive(Clone, Copy)]
pub struct Size {
    /// The pixels of a row.
    pub width: u32,
    /// The pixels of a column.
    pub height: u32,
}
