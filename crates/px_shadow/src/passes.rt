//! The shadow passes, made on an array that stores the picture of a scene.
ghost use Rattle.std.specs.Prelude.{◌≡◌, ◌+◌, ◌-◌, ◌<◌, ◌≤◌, All, length};
ghost use Rattle.px_array.specs.Slots.{HasWorked, IsRunOnce};
ghost use Rattle.px_face.specs.Faces.{face_count};
ghost use Rattle.px_normal.specs.Sets.{IsBelow};
ghost use Rattle.px_model.specs.Cells.{depths_of, end_of};
ghost use Rattle.px_prune.specs.Kept.{plan_of};
ghost use Rattle.px_sched.specs.Layouts.{layout_of};
ghost use Rattle.px_sched.specs.Passes.{solid_of};
ghost use Rattle.px_control.specs.GridLaw.{CoversThePicture};
ghost use Rattle.px_control.specs.Program.{IsAt, total};
ghost use Rattle.px_shadow.specs.declared.passes.TheConstants.{MAX_LIGHTS};
ghost use Rattle.px_asm.specs.Operations.{CanMake};
ghost use Rattle.px_shadow.specs.Carrying.{CarriesOut};
ghost use Rattle.px_shadow.specs.Shaded.{IsShaded, shadow_program};
ghost use Rattle.px_shadow.specs.Stored.{StoresTheLights};
ghost use Rattle.px_shadow.specs.ShadowPasses.{
  background_passes,
  light_bit,
  light_passes,
  need_with,
  shadow_passes,
  solid_passes,
  stored_turn,
};

use crate::carrying::carry_out;
use arrayvec::ArrayVec;
use px_asm::Operating;
use px_face::{edge_at, edge_count, face_count, laws_of_edges, plane_of};
use px_macro::Macro;
use px_model::{Scene, laws_of_scenes};
use px_normal::{MAX_PRODUCTS, SolidSet};
use px_sched::{Layout, solid_at};

/// A scene is lit by at most so many lights.
pub const MAX_LIGHTS: usize = 8;

/// A face has at most 97 edges, and three operations besides those of its edges.
const TURN_OPERATIONS: usize = 100;

/// A face number has at most 12 bits, and the background has two operations besides those of the bits.
const BACKGROUND_OPERATIONS: usize = 14;

/// How many memory bits a pixel needs for the keys of a layout and so many lights, at most
/// `MAX_LIGHTS` (docs/SCENES.md, "Memory").
pub fn need(layout: &Layout, lights: usize) -> u32
    requires { lights ≤ MAX_LIGHTS }
    ensures { result ≡ need_with layout.now lights }
{
    layout.par + 1 + lights as u32
}

/// Finds by which lights each pixel is lit, on an array that stores the picture of a scene
/// (docs/SCENES.md, "Shadow passes").
///
/// Each light is the set of its shadow solids. Light `l`, counted from 1, has bit `par + l` of
/// each pixel's memory. The layout is that of `Layout::of`, and the array is the one that the whole
/// program of the scene leaves.
pub fn shade<A: Operating>(
    scene: &Scene,
    layout: &Layout,
    lights: &ArrayVec<SolidSet, MAX_LIGHTS>,
    array: &mut A,
)
    requires layout { layout.now ≡ layout_of scene.now }
    requires products { length (plan_of scene.now) ≤ MAX_PRODUCTS }
    requires at { IsAt A.BITS scene.now (total scene.now) (A.view array.old).device }
    requires need { need_with layout.now (length lights.now.items) ≤ A.BITS }
    requires known { All (IsBelow (length scene.now.solids)) lights.now.items }
    ensures shaded { IsShaded A.BITS scene.now lights.now.items (A.view array.new).device }
    ensures lights { StoresTheLights scene.now layout.now lights.now.items
        (A.view array.new).device.state }
    ensures grid { CoversThePicture scene.now (A.view array.new).device }
    ensures worked { HasWorked (length (shadow_program scene.now lights.now.items))
        (A.view array.old) (A.view array.new) }
    ensures once { IsRunOnce (A.view array.old) → IsRunOnce (A.view array.new) }
{
    laws_of_scenes(scene);
    all_lights(array, scene, layout, lights.as_slice());
    let _clocks = array.clocks();
}

/// The passes of all lights.
fn all_lights<A: Operating>(array: &mut A, scene: &Scene, layout: &Layout, lights: &[SolidSet])
    requires few { length lights.now ≤ MAX_LIGHTS }
    requires known { All (IsBelow (length scene.now.solids)) lights.now }
    requires can { CanMake A.BITS (shadow_passes scene.now layout.now lights.now)
        (A.view array.old).device }
    ensures { CarriesOut (shadow_passes scene.now layout.now lights.now) (A.view array.old) (A.view array.new) }
{
    for (i, light) in lights.iter().enumerate() {
        one_light(array, scene, layout, i as u32 + 1, light);
    }
}

/// The passes of a light.
#[tactic(auto, using(crate::proofs::StepLemmas::all_known))]
fn one_light<A: Operating>(
    array: &mut A,
    scene: &Scene,
    layout: &Layout,
    light: u32,
    solids: &SolidSet,
)
    requires number { light ≤ MAX_LIGHTS }
    requires known { IsBelow (length scene.now.solids) solids.now }
    requires can { CanMake A.BITS (light_passes scene.now layout.now light solids.now)
        (A.view array.old).device }
    ensures { CarriesOut (light_passes scene.now layout.now light solids.now) (A.view array.old) (A.view array.new) }
{
    carry_out(
        array,
        &[Macro::All, Macro::SetBit(light_bit(layout, light), true)],
    );
    let list = solids.solids();
    for solid in list.as_slice() {
        one_solid(array, scene, layout, light, *solid);
    }
    carry_out(array, background_of(layout, light).as_slice());
}

/// The passes of a solid of a light, which put the light out where the stored cell is inside it.
fn one_solid<A: Operating>(array: &mut A, scene: &Scene, layout: &Layout, light: u32, solid: u8)
    requires number { light ≤ MAX_LIGHTS }
    requires solid { solid < length scene.now.solids }
    requires can { CanMake A.BITS
        (solid_passes layout.now (end_of (depths_of scene.now)) light (solid_of scene.now solid))
        (A.view array.old).device }
    ensures { CarriesOut (solid_passes layout.now (end_of (depths_of scene.now)) light (solid_of scene.now solid))
        (A.view array.old) (A.view array.new) }
{
    carry_out(array, &[Macro::All, Macro::SetBit(layout.par, false)]);
    for face in 0..face_count(solid_at(scene, solid)) {
        carry_out(array, turn_of(scene, layout, solid, face).as_slice());
    }
    carry_out(
        array,
        &[
            Macro::All,
            Macro::KeepBit(layout.par, true),
            Macro::SetBit(light_bit(layout, light), false),
        ],
    );
}

/// The operations of a face, which turn the parity where it is not behind the stored cell: its edges
/// at once, so that the clocks are those of one comparison.
fn turn_of(
    scene: &Scene,
    layout: &Layout,
    solid: u8,
    face: usize,
) -> ArrayVec<Macro, TURN_OPERATIONS>
    requires solid { solid < length scene.now.solids }
    requires face { face < face_count (solid_of scene.now solid) }
    ensures { result.items
        ≡ stored_turn layout.now (end_of (depths_of scene.now)) (solid_of scene.now solid) face }
{
    laws_of_edges();
    let solid = solid_at(scene, solid);
    let end = scene.end();
    let mut operations = ArrayVec::new();
    operations.push(Macro::All);
    for place in 0..edge_count(solid) {
        operations.push(Macro::KeepSign(edge_at(solid, end, face, place)));
    }
    operations.push(Macro::KeepAtMost(plane_of(solid, end, face), layout.b_deep()));
    operations.push(Macro::Toggle(layout.par));
    operations
}

/// The passes that put a light out where no face is stored.
fn background_of(layout: &Layout, light: u32) -> ArrayVec<Macro, BACKGROUND_OPERATIONS>
    requires number { light ≤ MAX_LIGHTS }
    ensures { result.items ≡ background_passes layout.now light }
{
    let number = layout.b_number();
    let mut operations = ArrayVec::new();
    operations.push(Macro::All);
    for t in 0..number.len {
        operations.push(Macro::KeepBit(number.at + t, false));
    }
    operations.push(Macro::SetBit(light_bit(layout, light), false));
    operations
}

/// The memory bit of a light; lights are counted from 1.
fn light_bit(layout: &Layout, light: u32) -> u32
    requires { light ≤ MAX_LIGHTS }
    ensures { result ≡ light_bit layout.now light }
{
    layout.par + light
}
