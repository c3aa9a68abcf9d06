//! `pxplanes_products`: the products of a scene that can show anything.
ghost use Rattle.std.specs.Prelude.{◌≡◌, ◌++◌, ◌≤◌, IfOk, OnOk, length, map};
ghost use Rattle.px_scene.specs.Reading.{scene_of};
ghost use Rattle.px_scene.specs.Text.{worded};
ghost use Rattle.px_prune.specs.Kept.{plan_of};
ghost use Rattle.px_c.specs.Answers.{TellsAnswer, products_answer};
ghost use Rattle.px_c.specs.Buffers.{HoldsFront};
ghost use Rattle.px_c.specs.Literals.{all_literals, barred_literal, literal_numbers, plain_literal};
ghost use Rattle.px_c.specs.declared.status.TheConstants.{OK};

use crate::answer::{refused, scene_fault};
use crate::found::{Found, scene_found};
use crate::status::{NO_ROOM, OK};
use px_control::JobFault;
use px_normal::Product;
use px_num::Memory;
use px_prune::plan_of;
use px_scene::{SceneFault, read_scene};
use std::alloc::Global;

/// Lists the products that can show anything, as the command `plan` does: for each the number of each
/// plain solid, counted from 1, then the numbers of the barred ones, below 0, then a 0.
///
/// `literals` has room for all of these numbers, or more, which stay as they are.
#[tactic(auto, using(crate::proofs::AnswerLemmas::refuses, crate::proofs::AnswerLemmas::accepts, crate::proofs::AnswerLemmas::roomy, crate::proofs::AnswerLemmas::scant))]
#[unsafe(no_mangle)]
pub extern "C" fn pxplanes_products(
    alloc: Global,
    text: &[u8],
    literals: &mut [i32],
    found: &mut Found,
) -> u32
    ensures answer { TellsAnswer (products_answer text.now (length literals.old)) result found.new }
    ensures literals { result ≡ OK → HoldsFront (all_literals (plan_of (scene_of (worded text.now))))
        literals.old literals.new }
    ensures kept { (result ≡ OK → ⊥) → literals.new ≡ literals.old }
{
    let scene = match read_scene(alloc, text) {
        Ok(scene) => scene,
        Err(fault) => return refused(fault).report_to(found),
    };
    let plan = match plan_of(alloc, &scene) {
        Ok(plan) => plan,
        Err(fault) => return refused(scene_fault(JobFault::from(fault))).report_to(found),
    };
    let all = match all_literals(alloc, plan.products.as_slice()) {
        Ok(all) => all,
        Err(lack) => return refused(SceneFault::Memory(lack)).report_to(found),
    };
    *found = scene_found(&scene);
    if literals.len() < all.len() {
        found.room = all.len() as u64;
        return NO_ROOM;
    }
    copy_to_front(all.as_slice(), literals);
    OK
}

/// The literals of each product, and a 0 behind them.
fn all_literals(alloc: Global, products: &[Product]) -> Result<Vec<i32>, Memory>
    ensures { IfOk result (λ all. all.items ≡ all_literals products.now) }
{
    let mut all = Vec::new(alloc);
    for product in products {
        push_product(&mut all, product)?;
    }
    Ok(all)
}

fn push_product(all: &mut Vec<i32>, product: &Product) -> Result<(), Memory>
    ensures { OnOk result (all.new.items ≡ all.old.items ++ literal_numbers product.now) }
{
    push_plain(all, product.plain.solids().as_slice())?;
    push_barred(all, product.barred.solids().as_slice())?;
    all.push(0)?;
    Ok(())
}

fn push_plain(all: &mut Vec<i32>, solids: &[u8]) -> Result<(), Memory>
    ensures { OnOk result (all.new.items ≡ all.old.items ++ map plain_literal solids.now) }
{
    for solid in solids {
        all.push(i32::from(*solid) + 1)?;
    }
    Ok(())
}

fn push_barred(all: &mut Vec<i32>, solids: &[u8]) -> Result<(), Memory>
    ensures { OnOk result (all.new.items ≡ all.old.items ++ map barred_literal solids.now) }
{
    for solid in solids {
        all.push(-(i32::from(*solid) + 1))?;
    }
    Ok(())
}

/// Copies numbers to the front of a buffer that has room for them.
fn copy_to_front(from: &[i32], to: &mut [i32])
    requires { length from.now ≤ length to.old }
    ensures { HoldsFront from.now to.old to.new }
{
    let (front, _) = to.split_at_mut(from.len());
    front.copy_from_slice(from);
}
