//! The image of the lights, as an array stores them.
ghost use Rattle.std.specs.Prelude.{◌≡◌, ◌+◌, ◌≤◌, OnErr, OnOk};
ghost use Rattle.px_io.specs.Counts.{HasCause};
ghost use Rattle.px_io.specs.Reports.{TakesAll, TakesFront};
ghost use Rattle.px_array.specs.Arrays.{IsOpen};
ghost use Rattle.px_frame.specs.Stored.{HasColumns, HasRows};
ghost use Rattle.px_shadow.specs.declared.passes.TheConstants.{MAX_LIGHTS};
ghost use Rattle.px_shadow.specs.ShadowPasses.{need_with};
ghost use Rattle.px_shadow.specs.Stored.{lights_field, stored_masks};

use px_array::Array;
use px_frame::{Plane, write_rows};
use px_io::{Failed, Sink};
use px_macro::Field;
use px_model::Scene;
use px_sched::Layout;

/// Appends the image of the lights that the array stores to the sink, or a front of it where a
/// write fails (docs/SCENES.md, "Image"). The sink is not finished.
///
/// Bit `l - 1` of a pixel's number says whether light `l` lights it.
pub fn write_masks<A: Array, O: Sink>(
    array: &A,
    layout: &Layout,
    scene: &Scene,
    lights: usize,
    out: &mut O,
) -> Result<(), Failed>
    requires open { IsOpen (A.view array.now).device }
    requires columns { HasColumns scene.now (A.view array.now).device.state }
    requires rows { HasRows scene.now (A.view array.now).device.state }
    requires few { lights ≤ MAX_LIGHTS }
    requires room { need_with layout.now lights ≤ A.BITS }
    ensures ok { OnOk result (TakesAll (O.state out.old) (O.state out.new)
        (stored_masks scene.now layout.now lights (A.view array.now).device.state)) }
    ensures err { OnErr result (TakesFront (O.state out.old) (O.state out.new)
        (stored_masks scene.now layout.now lights (A.view array.now).device.state)) }
    ensures cause { HasCause (O.state out.old).faults (O.state out.new).faults result }
{
    write_rows(array, lights_field(layout, lights), scene, Plane::Face, out)
}

/// The memory bits of so many lights, as a field.
fn lights_field(layout: &Layout, lights: usize) -> Field
    requires { lights ≤ MAX_LIGHTS }
    ensures field { result ≡ lights_field layout.now lights }
    ensures room { result.at + result.len ≡ need_with layout.now lights }
    ensures low { result.at ≤ 256 }
    ensures few { result.len ≤ 24 }
{
    Field {
        at: layout.par + 1,
        len: lights as u32,
    }
}
