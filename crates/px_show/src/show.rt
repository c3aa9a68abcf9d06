//! The expression of a `show` line.
ghost use Rattle.std.specs.Prelude.{◌≡◌, ◌≤◌, None, Some, true, List, OnOk, IfOk, IfErr, IsErrOf, length};
ghost use Rattle.px_num.specs.Want.{want};
ghost use Rattle.px_show.specs.declared.fault.LimitKind.{LimitKind};
ghost use Rattle.px_show.specs.declared.fault.LineFault.{LineFault};
ghost use Rattle.px_model.specs.declared.limits.TheConstants.{MAX_SOLIDS};
ghost use Rattle.px_model.specs.Scenes.{names_of};
ghost use Rattle.px_expr.specs.declared.node.TheConstants.{MAX_LEAVES, MAX_NESTING};
ghost use Rattle.px_text.specs.LentWords.{now_of};
ghost use Rattle.px_expr.specs.Tree.{Tree, leaf_count, nesting, HasLeavesBelow, IsLawfulTree};
ghost use Rattle.px_text.specs.Text.{Words, words_of};
ghost use Rattle.px_show.specs.Expressions.{Token, tokens_of, show_fault, show_tree};
ghost use Rattle.px_show.specs.Printed.{AreDistinctNames, printed, named_by};
ghost use Rattle.px_show.specs.Expressions.{Named, has_names, has_signs, written, expression_of, IsExpressionOf};
ghost use Rattle.px_show.specs.Stacks.{tree_steps};
ghost use Rattle.px_show.specs.declared.scene_version.Version.{Version as AnyVersion};

use crate::fault::{LimitKind, LineError};
use crate::scene_version::Version;
use crate::stack::{Stack, Step};
use crate::token::tokens_of;
use px_expr::{Expr, ExprBuilder, ExprFault};
use px_model::Solid;
use px_num::Memory;
use std::alloc::Global;

/// The expression that the words after `show` write (docs/SCENES.md, "Expressions").
///
/// Its form is judged first, and its names next; its leaves and its nesting are counted over the
/// whole of it, however large and deep, and it is built where both are within their limits.
pub fn read_show(
    alloc: Global,
    version: Version,
    solids: &[Solid],
    words: &[&[u8]],
) -> Result<Expr, LineError<LimitKind>>
    requires { length solids.now ≤ MAX_SOLIDS }
    ensures bad { (f : LineFault LimitKind) → IsErrOf result (LineError.Bad f) →
        show_fault version (names_of solids.now) (now_of words.now) ≡ Some f }
    ensures good { OnOk result (show_fault version (names_of solids.now) (now_of words.now) ≡ None) }
    ensures tree { IfOk result (λ e.
        show_tree version (names_of solids.now) (now_of words.now) ≡ Some e) }
{
    let tokens = tokens_of(alloc, version, words)?;
    let stack = Stack::read(alloc, solids, tokens.as_slice())?;
    if let Some(fault) = stack.fault(solids.len()) {
        return Err(LineError::Bad(fault));
    }
    match build(alloc, stack.steps()) {
        Ok(expr) => Ok(expr),
        Err(fault) => Err(LineError::Memory(lack_in(fault))),
    }
}

/// What was wanting where both counts are within their limits.
fn lack_in(fault: ExprFault) -> Memory
    requires { fault ≡ ExprFault.Memory want }
{
    match fault {
        ExprFault::Memory(lack) => lack,
        ExprFault::Leaves { .. } | ExprFault::Nesting { .. } => unreachable!(),
    }
}

/// The expression that steps build.
#[tactic(auto, using(crate::proofs::StepLemmas::can_join, px_num::proofs::Basics::take_all, crate::proofs::StepLemmas::build_tree, crate::proofs::StepLemmas::room_for_leaf, crate::proofs::StepLemmas::room_for_join))]
fn build(alloc: Global, steps: &[Step]) -> Result<Expr, ExprFault>
    requires { (tree : Tree) × (steps.now ≡ tree_steps tree) }
    ensures tree { (tree : Tree) → steps.now ≡ tree_steps tree → IfOk result (λ e. e ≡ tree) }
    ensures memory { (tree : Tree) → steps.now ≡ tree_steps tree → leaf_count tree ≤ MAX_LEAVES →
        nesting tree ≤ MAX_NESTING → IfErr result (λ fault. fault ≡ ExprFault.Memory want) }
{
    let mut builder = ExprBuilder::new(alloc);
    for step in steps {
        match *step {
            Step::Leaf(place) => builder.leaf(place)?,
            Step::Join(op) => builder.join(op)?,
        }
    }
    Ok(builder.finish())
}

/// What is written as an expression is read as it, and what is read was written so.
#[tactic(auto, using(crate::proofs::ExpressionLemmas::reads))]
pub fn expression_law()
    ensures read { (tree : Named) → has_names tree ≡ true →
        expression_of (written tree) ≡ Some tree }
    ensures written { (tokens : List Token) (tree : Named) → expression_of tokens ≡ Some tree →
        IsExpressionOf tokens tree }
{}

/// What is printed of an expression is read as it, where the version has all of its signs.
#[tactic(auto, using(crate::proofs::PrintedLaws::printed_tokens, crate::proofs::PrintedLaws::printed_tree, crate::proofs::PrintedLaws::printed_good))]
pub fn printed_law()
    ensures tokens { (version : AnyVersion) (tree : Named) →
        has_names tree ≡ true → has_signs version tree ≡ true →
        tokens_of version (words_of (printed tree)) ≡ written tree }
    ensures tree { (version : AnyVersion) (names : Words) (tree : Tree) → AreDistinctNames names →
        HasLeavesBelow (length names) tree → has_signs version (named_by names tree) ≡ true →
        show_tree version names (words_of (printed (named_by names tree))) ≡ Some tree }
    ensures good { (version : AnyVersion) (names : Words) (tree : Tree) → AreDistinctNames names →
        HasLeavesBelow (length names) tree → has_signs version (named_by names tree) ≡ true →
        IsLawfulTree tree →
        show_fault version names (words_of (printed (named_by names tree))) ≡ None }
{}
