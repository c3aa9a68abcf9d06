//! What a literal adds to the passes of its product.
ghost use Rattle.std.specs.Prelude.{◌≡◌, ◌+◌, ◌*◌, ◌^◌, ◌<◌, ◌≤◌, length, if◌then◌else◌};
ghost use Rattle.px_face.specs.Edges.{edge_count};
ghost use Rattle.px_sched.specs.Passes.{candidate_faces};
ghost use Rattle.px_sched.specs.Worths.{confirm_worth, judged_worth, own_worth, share_worth};
ghost use Rattle.px_control.specs.Costs.{AreLow, rated};

use crate::rates::Rates;
use px_face::face_count;
use px_model::{Scene, Solid};
use px_sched::{Literal, solid_at};

/// What a literal adds to its product: its own steps, and those against it of each of the others.
pub(crate) fn share(scene: &Scene, rates: &Rates, q: Literal, others: u64) -> u64
    requires low { AreLow rates.now }
    requires known { q.solid < length scene.now.solids }
    requires others { others ≤ 511 }
    ensures cost { result ≡ share_worth (rated rates.now scene.now) scene.now others q }
    ensures few { result ≤ 2 ^ 30 }
{
    own_cost(scene, rates, q) + others * judge_cost(scene, rates, q)
}

/// The steps of a literal but for those of others: each of its faces costs as much as the first.
fn own_cost(scene: &Scene, rates: &Rates, q: Literal) -> u64
    requires low { AreLow rates.now }
    requires known { q.solid < length scene.now.solids }
    ensures cost { result ≡ own_worth (rated rates.now scene.now) scene.now q }
    ensures few { result ≤ 2 ^ 21 }
{
    let solid = solid_at(scene, q.solid);
    let candidate = rates.with_edges(rates.candidate, solid);
    let found = candidates(solid, q.plain) * candidate;
    rates.opening + rates.merge + found + confirm_cost(scene, rates, q)
}

/// How many faces become the candidate.
fn candidates(solid: &Solid, plain: bool) -> u64
    ensures faces { result ≡ length (candidate_faces solid.now plain) }
    ensures few { result ≤ 33 }
{
    if plain {
        solid.fronts().len() as u64 + 1
    } else {
        solid.backs().len() as u64
    }
}

/// What confirms a candidate, where a depth has a fraction.
fn confirm_cost(scene: &Scene, rates: &Rates, q: Literal) -> u64
    requires low { AreLow rates.now }
    requires known { q.solid < length scene.now.solids }
    ensures cost { result ≡ confirm_worth (rated rates.now scene.now) scene.now q }
    ensures few { result ≤ 600000 }
{
    if scene.fraction_bits() == 0 {
        0
    } else {
        sure_cost(rates, solid_at(scene, q.solid), q.plain)
    }
}

/// What confirms a candidate of a plain or a barred solid.
fn sure_cost(rates: &Rates, solid: &Solid, plain: bool) -> u64
    requires low { AreLow rates.now }
    ensures cost { result ≡ (if plain
        then (length solid.now.backs + 1) * (rates.now.drop + edge_count solid.now * rates.now.edge)
        else rates.now.clear + rates.now.confirm
        + (length solid.now.fronts + 1) * (rates.now.front + edge_count solid.now * rates.now.edge)) }
    ensures few { result ≤ 600000 }
{
    if plain {
        let drop = rates.with_edges(rates.drop, solid);
        (solid.backs().len() as u64 + 1) * drop
    } else {
        let front = rates.with_edges(rates.front, solid);
        rates.clear + rates.confirm + (solid.fronts().len() as u64 + 1) * front
    }
}

/// The steps in which a literal judges a candidate of another one.
fn judge_cost(scene: &Scene, rates: &Rates, r: Literal) -> u64
    requires low { AreLow rates.now }
    requires known { r.solid < length scene.now.solids }
    ensures cost { result ≡ judged_worth (rated rates.now scene.now) scene.now r }
    ensures few { result ≤ 1100000 }
{
    let solid = solid_at(scene, r.solid);
    let turn = rates.with_edges(rates.turn, solid);
    rates.begin + rates.close + face_count(solid) as u64 * turn
}
