//! The text of `plan`: the products of the shown expression that can show anything.
ghost use Rattle.std.specs.Prelude.{◌≡◌, ◌++◌, ◌≤◌, length, OnOk, IfOk};
ghost use Rattle.px_normal.specs.Sets.{solids};
ghost use Rattle.px_model.specs.Scenes.{names_of};
ghost use Rattle.px_commands.specs.Plans.{kept_line, name_at, signed, starred, product_line, plan_text};

use arrayvec::ArrayString;
use itoa::Buffer;
use px_model::Solid;
use px_normal::{MAX_PRODUCTS, Product};
use px_num::Memory;
use std::alloc::Global;

/// The count of the kept products and of all, and a line for each that is kept
/// (docs/SCENES.md, "Commands").
///
/// At most `MAX_PRODUCTS` are kept. `Memory` is answered only if memory runs out.
#[tactic(auto, using(std::proofs::lemmas::Grind::common_steps))]
pub fn plan_text(
    alloc: Global,
    solids: &[Solid],
    all: u64,
    kept: &[Product],
) -> Result<Vec<u8>, Memory>
    requires { length kept.now ≤ MAX_PRODUCTS }
    ensures { IfOk result (λ v. v.items ≡ plan_text (names_of solids.now) all kept.now) }
{
    let mut text = Vec::new(alloc);
    text.extend_from_slice(kept_line(kept.len() as u32, all).as_bytes())?;
    for product in kept {
        push_product(&mut text, solids, product)?;
    }
    Ok(text)
}

#[tactic(auto, unfolding(crate::specs::Plans::kept_line))]
fn kept_line(kept: u32, all: u64) -> ArrayString<128>
    ensures { result.bytes ≡ kept_line kept all }
{
    let mut digits = Buffer::new();
    let mut line = ArrayString::new();
    line.push_str("kept ");
    line.push_str(digits.format(kept));
    line.push_str(" of ");
    line.push_str(digits.format(all));
    line.push_str("\n");
    line
}

fn push_product(text: &mut Vec<u8>, solids: &[Solid], product: &Product) -> Result<(), Memory>
    ensures { OnOk result (text.new.items ≡ text.old.items ++ product_line (names_of solids.now)
        product.now) }
{
    push_starred(text, solids, product.plain.solids().as_slice())?;
    push_signed(text, b" - ", solids, product.barred.solids().as_slice())?;
    text.extend_from_slice(b"\n")?;
    Ok(())
}

fn push_starred(text: &mut Vec<u8>, solids: &[Solid], indices: &[u8]) -> Result<(), Memory>
    ensures { OnOk result (text.new.items ≡ text.old.items ++ starred (names_of solids.now)
        indices.now) }
{
    match indices {
        [] => Ok(()),
        [first, others @ ..] => {
            text.extend_from_slice(name_at(solids, *first))?;
            push_signed(text, b" * ", solids, others)
        }
    }
}

/// Adds names, each behind a sign.
fn push_signed(
    text: &mut Vec<u8>,
    sign: &[u8],
    solids: &[Solid],
    indices: &[u8],
) -> Result<(), Memory>
    ensures { OnOk result (text.new.items ≡ text.old.items ++ signed sign.now (names_of solids.now)
        indices.now) }
{
    for index in indices {
        text.extend_from_slice(sign)?;
        text.extend_from_slice(name_at(solids, *index))?;
    }
    Ok(())
}

fn name_at(solids: &[Solid], index: u8) -> &[u8]
    ensures { result.now ≡ name_at (names_of solids.now) index }
{
    match solids.get(usize::from(index)) {
        Some(solid) => solid.name(),
        None => &[],
    }
}
