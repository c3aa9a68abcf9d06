//! Opening an array for a scene, with why it cannot.
ghost use Rattle.std.specs.Prelude.{◌≡◌, ◌⊎◌, IfErr, IfOk, None, OnOk, Some};
ghost use Rattle.px_num.specs.Want.{want};
ghost use Rattle.px_array.specs.Slots.{IsRunOnce, no_slots};
ghost use Rattle.px_control.specs.Program.{IsAt};
ghost use Rattle.px_control.specs.Standing.{LeavesOnRefusal};
ghost use Rattle.px_control.specs.declared.fault.JobFault.{JobFault};
ghost use Rattle.px_frame.specs.Refusals.{job_refusal};

use px_array::Array;
use px_control::{Job, JobFault};
use px_scene::Scene;
use std::alloc::Global;

/// Opens an array for a scene: `Job::open`, whose refusals it reports as one value of the scene and the
/// memory bits of a pixel.
pub fn open_job<'s, A: Array>(
    alloc: Global,
    scene: &'s Scene,
    array: &mut A,
) -> Result<Job<'s>, JobFault>
    ensures ok { OnOk result (job_refusal A.BITS scene.now ≡ None) }
    ensures err { IfErr result (λ fault. (fault ≡ JobFault.Memory want)
        ⊎ (job_refusal A.BITS scene.now ≡ Some fault)) }
    ensures job { IfOk result (λ job. (job.scene ≡ scene.now) × (job.place.clock ≡ 0)) }
    ensures at { OnOk result (IsAt A.BITS scene.now 0 (A.view array.new).device) }
    ensures slots { OnOk result ((A.view array.new).slots ≡ no_slots) }
    ensures work { OnOk result ((A.view array.new).work ≡ 0) }
    ensures once { OnOk result (IsRunOnce (A.view array.new)) }
    ensures array { IfErr result (λ fault. LeavesOnRefusal fault (A.view array.old)
        (A.view array.new)) }
{
    Job::open(alloc, scene, array)
}
