//! The groups of operations, in the order of the passes.
ghost use Rattle.std.specs.Prelude.{◌≡◌, ◌+◌, ◌<◌, All, length};
ghost use Rattle.px_sched.specs.Groups.{
  BeginAt,
  IsGroup,
  IsStage,
  behind_stage,
  literal_of,
  literals_from,
  others_of,
  product_at,
  products_from,
  step_of,
};
ghost use Rattle.px_sched.specs.Onward.{BeginIfAny, HasKnownLiterals};
ghost use Rattle.px_sched.specs.Passes.{literals};
ghost use Rattle.px_sched.specs.Steps.{behind_step};
ghost use Rattle.px_sched.specs.declared.group.Stage.TheVariants as s;
ghost use Rattle.px_sched.specs.declared.literal.TheConstants.{MAX_LITERALS};

use crate::literal::{MAX_LITERALS, literals, take_literal};
use crate::step::Step;
use px_model::Scene;
use px_normal::Product;

/// A step of the passes of one literal of a product, by their indices.
#[derive(Clone, Copy)]
pub(crate) struct Group {
    pub product: usize,
    pub literal: usize,
    pub step: Step,
}

/// How far the passes are.
#[derive(Clone, Copy)]
pub(crate) enum Stage {
    /// The background becomes the best.
    Start,
    At(Group),
    End,
}

impl Stage {
    /// The step here, if one is left.
    pub(crate) fn step(self) -> Option<Step>
        ensures { result ≡ step_of self }
    {
        match self {
            Stage::Start => Some(Step::Start),
            Stage::At(group) => Some(group.step),
            Stage::End => None,
        }
    }

    /// What comes after the step here.
    pub(crate) fn next(self, scene: &Scene, products: &[Product]) -> Stage
        requires drawn { All (HasKnownLiterals scene.now) products.now }
        requires stage { IsStage scene.now products.now self }
        ensures { BeginAt scene.now products.now (behind_stage scene.now products.now self) result }
    {
        match self {
            Stage::Start => product_from(scene, products, 0),
            Stage::At(group) => group.next(scene, products),
            Stage::End => Stage::End,
        }
    }
}

impl Group {
    /// What comes behind this group.
    fn next(self, scene: &Scene, products: &[Product]) -> Stage
        requires drawn { All (HasKnownLiterals scene.now) products.now }
        requires group { IsGroup scene.now products.now self }
        ensures { BeginAt scene.now products.now (behind_stage scene.now products.now (s.At self)) result }
    {
        if let Some(step) = self.step.along(scene) {
            return Stage::At(Group { step, ..self });
        }
        match self.next_step(scene, products) {
            Some(step) => Stage::At(Group { step, ..self }),
            None => literal_from(scene, products, self.product, self.literal + 1),
        }
    }

    /// The step behind this one, of the same literal.
    #[tactic(auto, using(crate::proofs::StepLemmas::others_known))]
    fn next_step(self, scene: &Scene, products: &[Product]) -> Option<Step>
        requires drawn { All (HasKnownLiterals scene.now) products.now }
        requires group { IsGroup scene.now products.now self }
        ensures next { BeginIfAny scene.now (literal_of products.now self) (others_of products.now self)
            (behind_step scene.now (literal_of products.now self) (others_of products.now self) self.step) result }
        ensures few { self.literal < MAX_LITERALS }
    {
        let mut rs = literals(&products[self.product]);
        let q = take_literal(&mut rs, self.literal);
        self.step.next(scene, q, rs.as_slice())
    }
}

/// The literals of a product from one on, and the products behind it.
#[tactic(auto, using(crate::proofs::StepLemmas::literal_opens))]
fn literal_from(scene: &Scene, products: &[Product], product: usize, literal: usize) -> Stage
    requires drawn { All (HasKnownLiterals scene.now) products.now }
    requires product { product < length products.now }
    ensures { BeginAt scene.now products.now (literals_from scene.now products.now product literal) result }
{
    if literal < literals(&products[product]).len() {
        Stage::At(Group {
            product,
            literal,
            step: Step::Open,
        })
    } else {
        product_from(scene, products, product + 1)
    }
}

/// The products from one on.
#[tactic(auto, using(crate::proofs::StepLemmas::product_opens))]
fn product_from(scene: &Scene, products: &[Product], product: usize) -> Stage
    requires drawn { All (HasKnownLiterals scene.now) products.now }
    ensures { BeginAt scene.now products.now (products_from scene.now products.now product) result }
{
    if product < products.len() {
        Stage::At(Group {
            product,
            literal: 0,
            step: Step::Open,
        })
    } else {
        Stage::End
    }
}
