//! What the passes of a scene cost, counted without clocking them.
ghost use Rattle.std.specs.Prelude.{◌≡◌, ◌^◌, ◌≤◌, length, All};
ghost use Rattle.px_prune.specs.Kept.{plan_of};
ghost use Rattle.px_sched.specs.Layouts.{layout_of};
ghost use Rattle.px_sched.specs.Onward.{AreKnown, HasKnownLiterals};
ghost use Rattle.px_sched.specs.Passes.{passes};
ghost use Rattle.px_sched.specs.Worths.{products_worth, shares_worth};
ghost use Rattle.px_control.specs.ClockLaw.{ClockBound, EachTakesAClock};
ghost use Rattle.px_control.specs.Costs.{AreLow, rated};
ghost use Rattle.px_control.specs.Program.{total};

use crate::literal::share;
use crate::measure::Measure;
use crate::rates::Rates;
use px_model::{Scene, laws_of_scenes};
use px_normal::{MAX_PRODUCTS, Product};
use px_prune::Plan;
use px_sched::{Layout, Literal, literals};

/// How many operations the passes of a scene have, and how many clocks they take
/// (docs/PASSES.md, "Clocks").
///
/// The plan is the scene's own, of at most `MAX_PRODUCTS` products. Of each kind of step one is walked,
/// and the literals of the products are counted, each once: the faces of a solid cost alike. Takes no
/// memory.
#[tactic(auto, using(px_sched::proofs::DrawnLaws::kept_drawn))]
pub fn cost(scene: &Scene, plan: &Plan, layout: &Layout) -> (u64, u64)
    requires products { plan.now.products.items ≡ plan_of scene.now }
    requires few { length (plan_of scene.now) ≤ MAX_PRODUCTS }
    requires layout { layout.now ≡ layout_of scene.now }
    ensures macros { result.0 ≡ length (passes scene.now) }
    ensures clocks { result.1 ≡ total scene.now }
{
    laws_of_scenes(scene);
    let operations = Rates::of(scene, layout, Measure::Operations);
    let clocks = Rates::of(scene, layout, Measure::Clocks);
    products_cost(scene, &operations, &clocks, plan.products.as_slice())
}

/// A scene of at most `MAX_PRODUCTS` kept products takes less than `2^43` clocks, and every scene at least one for
/// each of its operations.
#[tactic(auto, using(crate::proofs::BoundLemmas::few_clocks, crate::proofs::BoundLemmas::some_clocks))]
pub fn law_of_clocks()
    ensures bound { ClockBound }
    ensures some { EachTakesAClock }
{}

/// The background, and then each product, by two rates.
fn products_cost(scene: &Scene, first: &Rates, second: &Rates, products: &[Product]) -> (u64, u64)
    requires first { AreLow first.now }
    requires second { AreLow second.now }
    requires few { length products.now ≤ MAX_PRODUCTS }
    requires known { All (HasKnownLiterals scene.now) products.now }
    ensures first { result.0 ≡ products_worth (rated first.now scene.now) scene.now products.now }
    ensures second { result.1 ≡ products_worth (rated second.now scene.now) scene.now products.now }
{
    let mut costs = (first.start, second.start);
    for product in products {
        let list = literals(product);
        costs.0 += literals_cost(scene, first, list.as_slice());
        costs.1 += literals_cost(scene, second, list.as_slice());
    }
    costs
}

/// The literals of a product, each of which is compared with each of the others.
fn literals_cost(scene: &Scene, rates: &Rates, list: &[Literal]) -> u64
    requires low { AreLow rates.now }
    requires few { length list.now ≤ 512 }
    requires known { AreKnown scene.now list.now }
    ensures cost { result ≡ shares_worth (rated rates.now scene.now) scene.now list.now }
    ensures few { result ≤ 2 ^ 39 }
{
    let others = list.len().saturating_sub(1) as u64;
    let mut cost = 0;
    for q in list {
        cost += share(scene, rates, *q, others);
    }
    cost
}
