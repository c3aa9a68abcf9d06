//! What a tile's picture has to do with the wide picture.
ghost use Rattle.px_tile.specs.TilesLaw.{TilesLaw};

/// The picture of a tile is its part of the wide picture.
pub fn laws_of_tiles()
    ensures { TilesLaw }
{}
