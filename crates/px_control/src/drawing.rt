//! What drawing a scene takes: the memory bits of a pixel, and the products that are drawn.
ghost use Rattle.std.specs.Prelude.{◌≡◌, ◌<◌, ◌≤◌, ℕ, nat_lt, Err, IfErr, IfOk, None, OnOk, Some, length};
ghost use Rattle.px_num.specs.Want.{want};
ghost use Rattle.px_prune.specs.Kept.{crowd_of, plan_of};
ghost use Rattle.px_sched.specs.Layouts.{layout_of, need_of};
ghost use Rattle.px_control.specs.Program.{CanRun};
ghost use Rattle.px_control.specs.declared.fault.JobFault.{JobFault};

use crate::fault::JobFault;
use crate::law::{MAX_LAYOUT_BITS, law_of_needs};
use px_array::Array;
use px_model::{Scene, laws_of_scenes};
use px_prune::{MAX_PRODUCTS, Plan, plan_of};
use px_sched::{Layout, NeedBits};
use std::alloc::Global;

/// Where the passes of a scene keep their numbers, and the products that they draw, for pixels of so many memory bits.
pub fn drawing_of(alloc: Global, scene: &Scene, bits: u32) -> Result<(Layout, Plan), JobFault>
    ensures layout { IfOk result (λ found. found.0 ≡ layout_of scene.now) }
    ensures kept { IfOk result (λ found. found.1.products.items ≡ plan_of scene.now) }
    ensures few { OnOk result (length (plan_of scene.now) ≤ MAX_PRODUCTS) }
    ensures can_run { OnOk result (CanRun scene.now) }
    ensures enough { OnOk result (need_of (layout_of scene.now) ≤ bits) }
    ensures short { bits < need_of (layout_of scene.now) →
        result ≡ Err (JobFault.PixelMemory (need_of (layout_of scene.now))) }
    ensures need { (need : ℕ) → result ≡ Err (JobFault.PixelMemory need) →
        (bits < need_of (layout_of scene.now)) × (need ≡ need_of (layout_of scene.now)) }
    ensures lawful { OnOk result (crowd_of scene.now ≡ None) }
    ensures many { (count : ℕ) → result ≡ Err (JobFault.Products count) →
        (need_of (layout_of scene.now) ≤ bits) × (crowd_of scene.now ≡ Some count) }
    ensures memory { need_of (layout_of scene.now) ≤ bits → crowd_of scene.now ≡ None →
        IfErr result (λ fault. fault ≡ JobFault.Memory want) }
{
    laws_of_scenes(scene);
    let layout = match Layout::of(scene, bits) {
        Ok(layout) => layout,
        Err(NeedBits { need }) => return Err(JobFault::PixelMemory { need }),
    };
    let plan = plan_of(alloc, scene)?;
    Ok((layout, plan))
}

/// How many bits of memory a pixel of an array has, as far as a scene can need them.
pub fn memory_bits<A: Array>(scene: &Scene) -> u32
    ensures within { result ≤ A.BITS }
    ensures enough { need_of (layout_of scene.now) ≤ A.BITS → need_of (layout_of scene.now) ≤ result }
    ensures short { nat_lt result (need_of (layout_of scene.now))
        ≡ nat_lt A.BITS (need_of (layout_of scene.now)) }
{
    law_of_needs(scene);
    A::BITS.min(MAX_LAYOUT_BITS) as u32
}
