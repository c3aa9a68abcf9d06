//! The tiles of a wide picture: how many there are, and where each of them begins and ends.
ghost use Rattle.std.specs.Prelude.{◌≡◌, ◌-◌, ◌<◌, ◌≤◌, ◌*◌, ◌+◌, min};
ghost use Rattle.px_model.specs.declared.limits.TheConstants.{MAX_PICTURE_SIZE};
ghost use Rattle.px_model.specs.declared.limits.TheConstants.{MAX_WIDE_PICTURE_SIZE};
ghost use Rattle.px_tile.specs.Tilings.{
  IsTileSize,
  IsWideSize,
  column_of,
  row_of,
  tile_count,
  tiles_across,
};

use px_model::Scene;

/// A tile: its first pixel in the wide picture, and its size.
#[derive(Clone, Copy)]
pub(crate) struct Tile {
    pub x0: u32,
    pub y0: u32,
    pub width: u32,
    pub height: u32,
}

/// How many tiles, each of the size of the scene's picture, cover a picture so wide and high.
pub(crate) fn tile_count(scene: &Scene, width: u32, height: u32) -> u32
    requires size { IsWideSize width height }
    ensures { result ≡ tile_count scene.now width height }
{
    tiles_across(scene.width(), width) * tiles_across(scene.height(), height)
}

/// How many tiles of a size it takes to cover so many pixels.
fn tiles_across(size: u32, pixels: u32) -> u32
    requires some { 1 ≤ size }
    requires size { size ≤ MAX_PICTURE_SIZE }
    requires pixels { pixels ≤ MAX_WIDE_PICTURE_SIZE }
    ensures value { result ≡ tiles_across size pixels }
    ensures few { result ≤ MAX_WIDE_PICTURE_SIZE }
{
    (pixels + (size - 1)) / size
}

/// The tile of this number, by rows from the top and in each from the left.
pub(crate) fn tile_at(scene: &Scene, width: u32, height: u32, tile: u32) -> Tile
    requires size { IsWideSize width height }
    requires tile { tile < tile_count scene.now width height }
    ensures tile { result ≡ record {
      x0 = column_of scene.now width tile;
      y0 = row_of scene.now width tile;
      width = min scene.now.width (width - column_of scene.now width tile);
      height = min scene.now.height (height - row_of scene.now width tile);
    } }
    ensures size { IsTileSize result.width result.height }
    ensures columns { result.x0 + result.width ≤ width }
    ensures rows { result.y0 + result.height ≤ height }
{
    let columns = tiles_across(scene.width(), width);
    let (x0, width) = span(scene.width(), width, tile % columns);
    let (y0, height) = span(scene.height(), height, tile / columns);
    Tile {
        x0,
        y0,
        width,
        height,
    }
}

/// Where a tile of a row of tiles begins, and how long it is: the last one is cut.
fn span(size: u32, pixels: u32, tile: u32) -> (u32, u32)
    requires some { 1 ≤ size }
    requires size { size ≤ MAX_PICTURE_SIZE }
    requires pixels { pixels ≤ MAX_WIDE_PICTURE_SIZE }
    requires tile { tile < tiles_across size pixels }
    ensures start { result.0 ≡ tile * size }
    ensures length { result.1 ≡ min size (pixels - tile * size) }
    ensures some { 1 ≤ result.1 }
    ensures few { result.1 ≤ MAX_PICTURE_SIZE }
    ensures within { result.0 + result.1 ≤ pixels }
{
    let start = tile * size;
    (start, size.min(pixels - start))
}
