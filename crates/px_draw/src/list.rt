//! The command `list`: the passes of a scene as a listing.
ghost use Rattle.std.specs.Prelude.{◌≡◌, ◌≤◌, Err, OnErr, OnOk, length, true};
ghost use Rattle.std.specs.Io.KnownBytes.{Appends};
ghost use Rattle.px_io.specs.Counts.{HasCause};
ghost use Rattle.px_io.specs.Reports.{TakesFront, Tells};
ghost use Rattle.px_prune.specs.Kept.{plan_of};
ghost use Rattle.px_sched.specs.Layouts.{layout_of};
ghost use Rattle.px_listing.specs.Listings.{canonical_listing};
ghost use Rattle.px_listing.specs.PassesText.{passes_listing};
ghost use Rattle.px_commands.specs.declared.stop.Stop.{Stop};
ghost use Rattle.px_draw.specs.Works.{listed};
ghost use Rattle.px_commands.specs.Stops.{DoesWork};

use px_commands::{Stop, drawing_of};
use px_io::{Failed, Sink};
use px_listing::write_passes;
use px_prune::{MAX_PRODUCTS, Plan};
use px_scene::Scene;
use px_sched::Layout;
use std::alloc::Global;

/// Writes the passes of a scene as a listing (docs/LISTINGS.md, "Canonical text").
pub(crate) fn make_list<O: Sink>(
    alloc: Global,
    scene: &Scene,
    bits: u32,
    out: &mut O,
) -> Result<(), Stop>
    ensures serves { DoesWork result (listed scene.now bits)
        (O.state out.old) (O.state out.new) }
{
    let (layout, plan) = drawing_of(alloc, scene, bits)?;
    Ok(deliver_passes(scene, &plan, &layout, out)?)
}

/// Writes the text of a scene's passes, and finishes.
fn deliver_passes<O: Sink>(
    scene: &Scene,
    plan: &Plan,
    layout: &Layout,
    out: &mut O,
) -> Result<(), Failed>
    requires products { plan.now.products.items ≡ plan_of scene.now }
    requires few { length (plan_of scene.now) ≤ MAX_PRODUCTS }
    requires layout { layout.now ≡ layout_of scene.now }
    ensures ok { OnOk result (Appends (O.state out.old).written (O.state out.new).written
        (canonical_listing (passes_listing scene.now))) }
    ensures end { OnOk result (Tells (O.state out.new).finished true) }
    ensures err { OnErr result (TakesFront (O.state out.old) (O.state out.new) (canonical_listing (passes_listing scene.now))) }
    ensures cause { HasCause (O.state out.old).faults (O.state out.new).faults result }
{
    write_passes(scene, plan, layout, out)?;
    out.finish()
}
