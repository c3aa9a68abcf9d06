//! A tile of a wide picture as a scene of its own.
ghost use Rattle.std.specs.Prelude.{◌≡◌, ◌≤◌, ℤ, Err, IfOk, OnOk, None, Some};
ghost use Rattle.px_model.specs.Planes.{first_past};
ghost use Rattle.px_tile.specs.Tiles.{tile_scene};
ghost use Rattle.px_tile.specs.Tilings.{IsTileSize};

use crate::fault::TileFault;
use px_model::{Pixels, Scene, laws_of_scenes};
use px_num::Memory;
use std::alloc::Global;

/// The scene of the tile that begins at the pixel (x0, y0) of a wide picture (docs/PICTURE.md,
/// "Tiles").
///
/// `x0` and `y0` are at most 4095, and the tile is 1 to 512 pixels wide and high. It is refused
/// where a coefficient would be past the limit of a scene.
pub fn tile_scene(
    alloc: Global,
    scene: &Scene,
    x0: u32,
    y0: u32,
    width: u32,
    height: u32,
) -> Result<Scene, TileFault>
    requires x0 { x0 ≤ 4095 }
    requires y0 { y0 ≤ 4095 }
    requires size { IsTileSize width height }
    ensures ok { IfOk result (λ tile. tile ≡ tile_scene scene.now x0 y0 width height) }
    ensures within { OnOk result
        (first_past (tile_scene scene.now x0 y0 width height).solids ≡ None) }
    ensures past { (found : ℤ) → result ≡ Err (TileFault.Coefficient found) →
        first_past (tile_scene scene.now x0 y0 width height).solids ≡ Some found }
{
    if let Some(found) = scene.first_past(Pixels::StartingAt { x0, y0 }) {
        return Err(TileFault::Coefficient { found });
    }
    let tile = moved_scene(alloc, scene, x0, y0, width, height)?;
    Ok(tile)
}

/// The scene of a tile that has no coefficient past the limit.
pub(crate) fn moved_scene(
    alloc: Global,
    scene: &Scene,
    x0: u32,
    y0: u32,
    width: u32,
    height: u32,
) -> Result<Scene, Memory>
    requires x0 { x0 ≤ 4095 }
    requires y0 { y0 ≤ 4095 }
    requires size { IsTileSize width height }
    requires within { first_past (tile_scene scene.now x0 y0 width height).solids ≡ None }
    ensures { IfOk result (λ tile. tile ≡ tile_scene scene.now x0 y0 width height) }
{
    laws_of_scenes(scene);
    scene.over(alloc, Pixels::StartingAt { x0, y0 }, width, height)
}
