//! Writing the passes of a scene as a listing.
ghost use Rattle.std.specs.Prelude.{◌≡◌, ◌≤◌, ◌^◌, ◌<◌, ◌++◌, All, OnErr, OnOk, length};
ghost use Rattle.std.specs.List.{flat_map};
ghost use Rattle.px_io.specs.Counts.{HasCause};
ghost use Rattle.px_io.specs.Reports.{TakesAll, TakesFront};
ghost use Rattle.px_listing.specs.Listings.{canonical_listing, macro_line};
ghost use Rattle.px_listing.specs.PassesText.{passes_listing};
ghost use Rattle.px_listing.specs.Pieces.{Puts};
ghost use Rattle.px_macro.specs.Macros.{IsLawful};
ghost use Rattle.px_prune.specs.Kept.{plan_of};
ghost use Rattle.px_sched.specs.Layouts.{layout_of};
ghost use Rattle.px_sched.specs.Passes.{passes};

use crate::piece::{Piece, put};
use crate::write::{macro_line, put_end, put_first_lines};
use px_io::{Failed, Sink};
use px_model::{Scene, laws_of_scenes};
use px_prune::{MAX_PRODUCTS, Plan};
use px_sched::{Cursor, Layout};

/// Writes the canonical text of a scene's grid and passes (docs/LISTINGS.md, "Canonical text").
///
/// The plan is the one that `plan_of` gives for the scene, of at most `MAX_PRODUCTS` products, and the layout
/// that of `Layout::of`. After `Failed` a front of the text was written. The sink is not finished.
#[tactic(auto, using(px_sched::proofs::PassesLaws::passes_are_few, crate::proofs::PassesLemmas::passes_lawful_in_all, crate::proofs::PassesLemmas::ok_to_last, crate::proofs::PassesLemmas::err_to_last))]
pub fn write_passes<O: Sink>(
    scene: &Scene,
    plan: &Plan,
    layout: &Layout,
    out: &mut O,
) -> Result<(), Failed>
    requires products { plan.now.products.items ≡ plan_of scene.now }
    requires few { length (plan_of scene.now) ≤ MAX_PRODUCTS }
    requires layout { layout.now ≡ layout_of scene.now }
    ensures ok { OnOk result (TakesAll (O.state out.old) (O.state out.new) (canonical_listing (passes_listing scene.now))) }
    ensures err { OnErr result (TakesFront (O.state out.old) (O.state out.new) (canonical_listing (passes_listing scene.now))) }
    ensures cause { HasCause (O.state out.old).faults (O.state out.new).faults result }
{
    laws_of_scenes(scene);
    let mut piece = Piece::new();
    let (nx, ny) = scene.grid();
    put_first_lines(out, &mut piece, nx, ny)?;
    put_passes(scene, plan, layout, out, &mut piece)?;
    put_end(out, &mut piece)
}

/// A line for each operation of the passes.
#[tactic(auto, using(crate::proofs::PassesLemmas::puts_start))]
fn put_passes<O: Sink>(
    scene: &Scene,
    plan: &Plan,
    layout: &Layout,
    out: &mut O,
    piece: &mut Piece,
) -> Result<(), Failed>
    requires products { plan.now.products.items ≡ plan_of scene.now }
    requires layout { layout.now ≡ layout_of scene.now }
    requires few { length (passes scene.now) < 2 ^ 64 }
    requires lawful { All (λ m. IsLawful m 256) (passes scene.now) }
    ensures ok { OnOk result (Puts (O.state out.old) (O.state out.new) piece.old.bytes
        (flat_map macro_line (passes scene.now)) piece.new.bytes) }
    ensures err { OnErr result (TakesFront (O.state out.old) (O.state out.new)
        (piece.old.bytes ++ flat_map macro_line (passes scene.now))) }
    ensures cause { HasCause (O.state out.old).faults (O.state out.new).faults result }
{
    let mut cursor = Cursor::start();
    while let Some(m) = cursor.next_macro(scene, plan, layout) {
        put(out, piece, macro_line(&m).as_str())?;
    }
    Ok(())
}
