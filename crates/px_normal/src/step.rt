//! The steps that make the live products of an expression.
ghost use Rattle.std.specs.Prelude.{◌≡◌, ◌++◌, reverse, IfOk, OnOk};
ghost use Rattle.px_normal.specs.Crowd.{of_root, of_either, wanted_in, left_when, right_when};
ghost use Rattle.px_normal.specs.Building.{steps_of, shape_step, sides_wanted};

use px_expr::{Combination, Expr, Op, Sense, Shape};
use px_num::Memory;
use std::alloc::Global;

/// Which lists of a node are wanted: its products, and those of its complement.
#[derive(Clone, Copy)]
pub(crate) struct Wanted {
    pub(crate) products: bool,
    pub(crate) complement: bool,
}

/// Makes the lists of a solid, or of two sides.
#[derive(Clone, Copy)]
pub(crate) enum Step {
    Leaf(u8, Wanted),
    Join(Op, Wanted),
}

impl Wanted {
    fn of_root() -> Wanted
        ensures { result ≡ of_root }
    {
        Wanted {
            products: true,
            complement: false,
        }
    }

    /// Both lists, where one is wanted.
    fn of_either(self) -> Wanted
        ensures { result ≡ of_either self }
    {
        let either = self.products || self.complement;
        Wanted {
            products: either,
            complement: either,
        }
    }

    /// What is wanted of a side in a sense: of one that is taken by its complement the lists change
    /// over.
    fn in_sense(self, sense: Sense) -> Wanted
        ensures { result ≡ wanted_in sense self }
    {
        match sense {
            Sense::Plain => self,
            Sense::Complement => Wanted {
                products: self.complement,
                complement: self.products,
            },
        }
    }

    /// What a node's lists take of its left side.
    fn of_left(self, combination: Combination) -> Wanted
        ensures { result ≡ left_when combination self }
    {
        match combination {
            Combination::Both(first, _) | Combination::Either(first, _) => self.in_sense(first),
            Combination::EitherWay(_) => self.of_either(),
        }
    }

    /// What a node's lists take of its right side.
    fn of_right(self, combination: Combination) -> Wanted
        ensures { result ≡ right_when combination self }
    {
        match combination {
            Combination::Both(_, second) | Combination::Either(_, second) => self.in_sense(second),
            Combination::EitherWay(_) => self.of_either(),
        }
    }
}

/// The steps of an expression, the last first.
///
/// The nodes are read from the root on: of it the products are wanted, and each says what is
/// wanted of its sides.
#[tactic(auto, using(crate::proofs::BuildingLemmas::walked_all))]
pub(crate) fn steps(alloc: Global, expr: &Expr) -> Result<Vec<Step>, Memory>
    ensures { IfOk result (λ steps. reverse steps.items ≡ steps_of of_root expr.now) }
{
    let mut wanted = Vec::new(alloc);
    wanted.push(Wanted::of_root())?;
    let mut steps = Vec::new(alloc);
    let mut rest = expr.nodes();
    while let Some((node, before)) = rest.split_last() {
        let Some(first) = wanted.pop() else {
            break;
        };
        let shape = node.shape();
        want_sides(&mut wanted, shape, first)?;
        steps.push(step_of(shape, first))?;
        rest = before;
    }
    Ok(steps)
}

fn step_of(shape: Shape, wanted: Wanted) -> Step
    ensures { result ≡ shape_step shape wanted }
{
    match shape {
        Shape::Leaf(solid) => Step::Leaf(solid, wanted),
        Shape::Join(op, ..) => Step::Join(op, wanted),
    }
}

/// Puts what is wanted of a shape's sides on the stack, the left one first.
fn want_sides(stack: &mut Vec<Wanted>, shape: Shape, wanted: Wanted) -> Result<(), Memory>
    ensures { OnOk result
        (reverse stack.new.items ≡ sides_wanted shape wanted ++ reverse stack.old.items) }
{
    match shape {
        Shape::Leaf(_) => Ok(()),
        Shape::Join(op, ..) => {
            let combination = op.combination();
            stack.extend_from_slice(&[wanted.of_left(combination), wanted.of_right(combination)])?;
            Ok(())
        }
    }
}
