//! Drawing a wide picture tile by tile on one array.
ghost use Rattle.std.specs.Prelude.{◌≡◌, ◌*◌, ◌<◌, ◌⊎◌, Err, IfErr, IfOk, None, OnErr, OnOk, Some, length};
ghost use Rattle.std.specs.Option.{option_map};
ghost use Rattle.px_num.specs.Want.{want};
ghost use Rattle.px_array.specs.Slots.{none_open};
ghost use Rattle.px_control.specs.declared.fault.JobFault.{JobFault};
ghost use Rattle.px_model.specs.Planes.{first_past};
ghost use Rattle.px_tile.specs.Found.{IsFound, PutsTile};
ghost use Rattle.px_tile.specs.Pictures.{IsLastDrawn, IsTileDrawn, LeavesOnWideRefusal};
ghost use Rattle.px_tile.specs.Refusals.{early_refusal, first_coefficient, first_crowd, tile_refusal, wide_refusal};
ghost use Rattle.px_tile.specs.Drawn.{crowd_of_tile};
ghost use Rattle.px_tile.specs.Tilings.{
  IsWideSize,
  column_of,
  row_of,
  scene_of_tile,
  tile_count,
};

use crate::crowd::is_never_crowded;
use crate::fault::WideFault;
use crate::render::render_tile;
use crate::tile::moved_scene;
use crate::tiling::{tile_at, tile_count};
use px_asm::Operating;
use px_control::{JobFault, memory_bits};
use px_model::{Pixels, Scene, laws_of_scenes};
use px_num::Memory;
use px_prune::plan_of;
use px_sched::{Layout, NeedBits};
use std::alloc::Global;

/// A picture that is drawn has at most so many tiles.
pub const MAX_TILES: u32 = 1024;

/// Whether a picture of `width` by `height` pixels, each from 1 to `MAX_WIDE_PICTURE_SIZE`, can be drawn tile by tile
/// on an array with pixels of so many memory bits, each tile of the size of the scene's picture, or
/// why not (docs/PICTURE.md, "Tiles").
///
/// Only the products of the tiles take memory: every other refusal comes when it must.
pub fn check_tiles(
    alloc: Global,
    scene: &Scene,
    width: u32,
    height: u32,
    bits: u32,
) -> Result<(), WideFault>
    requires size { IsWideSize width height }
    ensures ok { OnOk result (wide_refusal scene.now width height bits ≡ None) }
    ensures err { IfErr result (λ fault.
        (wide_refusal scene.now width height bits ≡ Some fault) ⊎ (fault ≡ WideFault.Memory want)) }
    ensures early { (fault : WideFault) → early_refusal scene.now width height bits ≡ Some fault →
        result ≡ Err fault }
{
    let count = tile_count(scene, width, height);
    if count > MAX_TILES {
        return Err(WideFault::Tiles { found: count });
    }
    if let Some(found) = first_coefficient(scene, width, height) {
        return Err(WideFault::Coefficient { found });
    }
    if let Err(NeedBits { need }) = Layout::of(scene, bits) {
        return Err(WideFault::PixelMemory { need });
    }
    check_products(alloc, scene, width, height)
}

/// The first coefficient past the limit of the first tile that has one.
#[tactic(auto, using(crate::proofs::FirstLemmas::none_more))]
fn first_coefficient(scene: &Scene, width: u32, height: u32) -> Option<i64>
    requires size { IsWideSize width height }
    ensures { result ≡ first_coefficient scene.now width height }
{
    for tile in 0..tile_count(scene, width, height) {
        let found = coefficient_of_tile(scene, width, height, tile);
        if found.is_some() {
            return found;
        }
    }
    None
}

/// The first coefficient past the limit of a tile.
fn coefficient_of_tile(scene: &Scene, width: u32, height: u32, tile: u32) -> Option<i64>
    requires size { IsWideSize width height }
    requires tile { tile < tile_count scene.now width height }
    ensures { result ≡ first_past (scene_of_tile scene.now width height tile).solids }
{
    let tile = tile_at(scene, width, height, tile);
    scene.first_past(Pixels::StartingAt {
        x0: tile.x0,
        y0: tile.y0,
    })
}

/// Whether no tile has a wanted list of products past the limit, or the length of the first one.
///
/// Where none can have one, whatever the boxes of its solids are, no tile is planned before it is drawn.
#[tactic(auto, using(crate::proofs::FirstLemmas::none_anywhere, crate::proofs::FirstLemmas::none_more))]
fn check_products(alloc: Global, scene: &Scene, width: u32, height: u32) -> Result<(), WideFault>
    requires size { IsWideSize width height }
    requires within { first_coefficient scene.now width height ≡ None }
    ensures ok { OnOk result (first_crowd scene.now width height ≡ None) }
    ensures err { IfErr result (λ fault.
        (option_map WideFault.Products (first_crowd scene.now width height) ≡ Some fault)
        ⊎ (fault ≡ WideFault.Memory want)) }
{
    if is_never_crowded(scene.show()) {
        return Ok(());
    }
    for tile in 0..tile_count(scene, width, height) {
        check_products_of_tile(alloc, scene, width, height, tile)?;
    }
    Ok(())
}

/// Whether one tile has no wanted list of products past the limit, or the length of the first one.
fn check_products_of_tile(
    alloc: Global,
    scene: &Scene,
    width: u32,
    height: u32,
    tile: u32,
) -> Result<(), WideFault>
    requires size { IsWideSize width height }
    requires tile { tile < tile_count scene.now width height }
    requires within { first_past (scene_of_tile scene.now width height tile).solids ≡ None }
    ensures ok { OnOk result (crowd_of_tile scene.now width height tile ≡ None) }
    ensures err { IfErr result (λ fault.
        (option_map WideFault.Products (crowd_of_tile scene.now width height tile) ≡ Some fault)
        ⊎ (fault ≡ WideFault.Memory want)) }
{
    let tile = scene_of_tile(alloc, scene, width, height, tile)?;
    let _plan = plan_of(alloc, &tile)?;
    Ok(())
}

/// The scene of a tile that has no coefficient past the limit.
fn scene_of_tile(
    alloc: Global,
    scene: &Scene,
    width: u32,
    height: u32,
    tile: u32,
) -> Result<Scene, Memory>
    requires size { IsWideSize width height }
    requires tile { tile < tile_count scene.now width height }
    requires within { first_past (scene_of_tile scene.now width height tile).solids ≡ None }
    ensures { IfOk result (λ found. found ≡ scene_of_tile scene.now width height tile) }
{
    let tile = tile_at(scene, width, height, tile);
    moved_scene(alloc, scene, tile.x0, tile.y0, tile.width, tile.height)
}

/// Draws a picture of `width` by `height` pixels, each from 1 to `MAX_WIDE_PICTURE_SIZE`, tile by tile on one array,
/// each tile of the size of the scene's picture (docs/PICTURE.md, "Tiles").
///
/// Ok has a number for each pixel, row by row: `depth * 2^32 + face`. Every refusal but out of
/// memory is found before the array is opened. The numbers take at most 128 MB.
pub fn render_tiles<A: Operating>(
    alloc: Global,
    scene: &Scene,
    width: u32,
    height: u32,
    array: &mut A,
) -> Result<Vec<u64>, WideFault>
    requires size { IsWideSize width height }
    ensures fits { OnOk result (wide_refusal scene.now width height A.BITS ≡ None) }
    ensures found { IfOk result (λ found. IsFound scene.now width height found.items) }
    ensures drawn { OnOk result (IsLastDrawn A.BITS scene.now width height (A.view array.new)) }
    ensures err { IfErr result (λ fault.
        (wide_refusal scene.now width height A.BITS ≡ Some fault) ⊎ (fault ≡ WideFault.Memory want)) }
    ensures early { (fault : WideFault) → early_refusal scene.now width height A.BITS ≡ Some fault →
        result ≡ Err fault }
    ensures array { IfErr result (λ fault. LeavesOnWideRefusal fault A.BITS scene.now width height
        (A.view array.old) (A.view array.new)) }
{
    check_tiles(alloc, scene, width, height, memory_bits::<A>(scene))?;
    draw_tiles(alloc, scene, width, height, array).map_err(WideFault::Memory)
}

/// Draws the tiles of a picture that is not refused.
#[tactic(auto, using(crate::proofs::DrawLemmas::tile_within, crate::proofs::DrawLemmas::tile_fits))]
fn draw_tiles<A: Operating>(
    alloc: Global,
    scene: &Scene,
    width: u32,
    height: u32,
    array: &mut A,
) -> Result<Vec<u64>, Memory>
    requires size { IsWideSize width height }
    requires fits { wide_refusal scene.now width height A.BITS ≡ None }
    ensures found { IfOk result (λ found. IsFound scene.now width height found.items) }
    ensures drawn { OnOk result (IsLastDrawn A.BITS scene.now width height (A.view array.new)) }
    ensures array { OnErr result (LeavesOnWideRefusal (WideFault.Memory want) A.BITS scene.now width height
        (A.view array.old) (A.view array.new)) }
{
    let mut found = Vec::from_elem(alloc, 0, width as usize * height as usize)?;
    laws_of_scenes(scene);
    for tile in 0..tile_count(scene, width, height) {
        let numbers = found.as_mut_slice();
        draw_tile(alloc, scene, width, height, tile, numbers, array)?;
    }
    Ok(found)
}

/// Draws a tile that is not refused, and puts its picture into the numbers.
#[tactic(auto, using(crate::proofs::DrawLemmas::rows_inside))]
fn draw_tile<A: Operating>(
    alloc: Global,
    scene: &Scene,
    width: u32,
    height: u32,
    tile: u32,
    found: &mut [u64],
    array: &mut A,
) -> Result<(), Memory>
    requires size { IsWideSize width height }
    requires tile { tile < tile_count scene.now width height }
    requires within { first_past (scene_of_tile scene.now width height tile).solids ≡ None }
    requires fits { tile_refusal (scene_of_tile scene.now width height tile) A.BITS ≡ None }
    requires room { length found.old ≡ width * height }
    ensures ok { OnOk result (PutsTile (scene_of_tile scene.now width height tile)
        (column_of scene.now width tile) (row_of scene.now width tile) width found.old found.new) }
    ensures drawn { OnOk result (IsTileDrawn A.BITS scene.now width height tile
        (A.view array.new)) }
    ensures array { OnErr result ((A.view array.new ≡ A.view array.old)
        ⊎ (A.view array.new ≡ none_open)) }
{
    let place = tile_at(scene, width, height, tile);
    let scene = scene_of_tile(alloc, scene, width, height, tile)?;
    render_tile(alloc, &scene, place.x0, width, place.y0, found, array).map_err(lack_in)
}

/// What was wanting for a tile that is not refused.
fn lack_in(fault: JobFault) -> Memory
    requires { fault ≡ JobFault.Memory want }
{
    match fault {
        JobFault::Memory(lack) => lack,
        JobFault::PixelMemory { .. } | JobFault::Products { .. } => unreachable!(),
    }
}
