//! The reading of an expression, token by token, with a stack of its own.
ghost use Rattle.std.specs.Prelude.{◌≡◌, ◌≤◌, ◌<◌, ◌^◌, ◌++◌, List, [], ◌∷◌, length, map, reverse, count_by, IfOk, OnOk, OnSome};
ghost use Rattle.std.specs.List.{list_any};
ghost use Rattle.px_model.specs.declared.limits.TheConstants.{MAX_SOLIDS};
ghost use Rattle.px_model.specs.Scenes.{names_of};
ghost use Rattle.px_show.specs.Expressions.{name, Part as AnyPart, with_token, parts_of, bracket_closed, whole};
ghost use Rattle.px_show.specs.Judged.{judged};
ghost use Rattle.px_show.specs.Expressions.{place_of, cause_in, limit_in, count_past, counts_past};
ghost use Rattle.px_text.specs.Text.{Words};
ghost use Rattle.px_show.specs.Stacks.{token_of, closing, bracketed, nesting_of, nesting_in, is_leaf, is_unknown, IsStackOf};

use crate::fault::{Cause, LimitKind, LineFault};
use crate::token::Token;
use px_expr::{MAX_LEAVES, MAX_NESTING, Op};
use px_model::Solid;
use px_num::Memory;
use px_text::is_name;
use std::alloc::Global;

/// What stands on the stack: a side, which is a whole expression, or a token that is in none yet.
///
/// A side's nesting is below the number of steps that build it, so that it never stops short.
#[derive(Clone, Copy)]
enum Part {
    Side { nesting: usize },
    Opens,
    Sign(Op),
    Other,
}

/// How an expression is built: a leaf by its solid's place, or the last two sides become one.
#[derive(Clone, Copy)]
pub(crate) enum Step {
    Leaf(u8),
    Join(Op),
}

/// What tokens were read to, the last part on top, and the steps that build all sides in order.
#[derive(Drop)]
pub(crate) struct Stack {
    parts: Vec<Part>,
    steps: Vec<Step>,
}

impl Stack {
    /// Reads tokens, each once; an unknown name has the place behind the last solid.
    pub(crate) fn read(alloc: Global, solids: &[Solid], tokens: &[Token]) -> Result<Stack, Memory>
        requires { length solids.now ≤ MAX_SOLIDS }
        ensures { IfOk result (λ stack.
            IsStackOf (names_of solids.now) stack (parts_of (map token_of tokens.now))) }
    {
        let mut stack = Stack {
            parts: Vec::new(alloc),
            steps: Vec::new(alloc),
        };
        for token in tokens {
            stack.take(solids, *token)?;
        }
        Ok(stack)
    }

    /// The steps, in order.
    pub(crate) fn steps(&self) -> &[Step]
        ensures { result.now ≡ self.now.steps.items }
    {
        self.steps.as_slice()
    }

    fn take(&mut self, solids: &[Solid], token: Token) -> Result<(), Memory>
        requires { length solids.now ≤ MAX_SOLIDS }
        ensures { (read : List AnyPart) → IsStackOf (names_of solids.now) self.old read →
            OnOk result (IsStackOf (names_of solids.now) self.new (with_token read (token_of token.entry))) }
    {
        match token {
            Token::Name(name) => self.take_name(solids, name),
            Token::Opens => self.push(Part::Opens),
            Token::Closes => self.close(),
            Token::Sign(op) => self.push(Part::Sign(op)),
            Token::Other => self.push(Part::Other),
        }
    }

    fn take_name(&mut self, solids: &[Solid], bytes: &[u8]) -> Result<(), Memory>
        requires { length solids.now ≤ MAX_SOLIDS }
        ensures { (read : List AnyPart) → IsStackOf (names_of solids.now) self.old read →
            OnOk result (IsStackOf (names_of solids.now) self.new (with_token read (name bytes.now))) }
    {
        if is_name(bytes) {
            self.push_side(Step::Leaf(place_of(solids, bytes)), 0)
        } else {
            self.push(Part::Other)
        }
    }

    /// A bracket closes the last two sides, where such a bracket stands open.
    fn close(&mut self) -> Result<(), Memory>
        ensures { (names : Words) (read : List AnyPart) → IsStackOf names self.old read →
            OnOk result (IsStackOf names self.new (bracket_closed read)) }
    {
        match closing(self.parts.as_slice()) {
            Some((op, nesting)) => {
                self.parts.truncate(self.parts.len() - 4);
                self.push_side(Step::Join(op), nesting)
            }
            None => self.push(Part::Other),
        }
    }

    fn push(&mut self, part: Part) -> Result<(), Memory>
        ensures parts { OnOk result (self.new.parts.items ≡ self.old.parts.items ++ part ∷ []) }
        ensures steps { self.new.steps ≡ self.old.steps }
    {
        self.parts.push(part)?;
        Ok(())
    }

    /// A side, and the step that completes it.
    fn push_side(&mut self, step: Step, nesting: usize) -> Result<(), Memory>
        ensures parts { OnOk result
            (self.new.parts.items ≡ self.old.parts.items ++ Part.Side nesting ∷ []) }
        ensures steps { OnOk result (self.new.steps.items ≡ self.old.steps.items ++ step ∷ []) }
    {
        self.steps.push(step)?;
        self.parts.push(Part::Side { nesting })?;
        Ok(())
    }

    /// Why the tokens are no expression over so many solids, otherwise the limit that it passes.
    pub(crate) fn fault(&self, solids: usize) -> Option<LineFault<LimitKind>>
        ensures { (names : Words) (read : List AnyPart) → length names ≡ solids →
            IsStackOf names self.now read →
            result ≡ judged (cause_in names (whole read)) (limit_in (whole read)) }
    {
        match nesting_of(self.parts.as_slice()) {
            None => Some(LineFault::Malformed(Cause::BadExpression)),
            Some(nesting) => {
                if has_unknown(self.steps.as_slice(), solids) {
                    Some(LineFault::Malformed(Cause::UnknownName))
                } else {
                    counts_past(leaf_count(self.steps.as_slice()), nesting)
                }
            }
        }
    }
}

/// What a bracket closes, where the last four parts are an open bracket, a side, a sign and a side:
/// the sign, and the nesting of both sides under it.
fn closing(parts: &[Part]) -> Option<(Op, usize)>
    ensures value { result ≡ closing (reverse parts.now) }
    ensures four { OnSome result (4 ≤ length parts.now) }
{
    match parts {
        [.., bracket, left, sign, right] => bracketed(*bracket, *left, *sign, *right),
        _ => None,
    }
}

fn bracketed(bracket: Part, left: Part, sign: Part, right: Part) -> Option<(Op, usize)>
    ensures { result ≡ bracketed bracket left sign right }
{
    match (bracket, left, sign, right) {
        (
            Part::Opens,
            Part::Side { nesting: left },
            Part::Sign(op),
            Part::Side { nesting: right },
        ) => Some((op, left.max(right).saturating_add(1))),
        _ => None,
    }
}

/// The nesting of the side that stands alone.
fn nesting_of(parts: &[Part]) -> Option<usize>
    ensures { result ≡ nesting_of (reverse parts.now) }
{
    match parts {
        [part] => nesting_in(*part),
        _ => None,
    }
}

fn nesting_in(part: Part) -> Option<usize>
    ensures { result ≡ nesting_in part }
{
    match part {
        Part::Side { nesting } => Some(nesting),
        Part::Opens | Part::Sign(_) | Part::Other => None,
    }
}

fn has_unknown(steps: &[Step], solids: usize) -> bool
    ensures { result ≡ list_any (is_unknown solids) steps.now }
{
    steps.iter().any(|step| is_unknown(solids, *step))
}

fn is_unknown(solids: usize, step: Step) -> bool
    ensures { result ≡ is_unknown solids step }
{
    match step {
        Step::Leaf(place) => solids <= usize::from(place),
        Step::Join(_) => false,
    }
}

fn leaf_count(steps: &[Step]) -> usize
    ensures { result ≡ count_by is_leaf steps.now }
{
    steps.iter().filter(|step| is_leaf(**step)).count()
}

fn is_leaf(step: Step) -> bool
    ensures { result ≡ is_leaf step }
{
    match step {
        Step::Leaf(_) => true,
        Step::Join(_) => false,
    }
}

/// The first limit that the whole expression passes: its leaves, and then its nesting.
fn counts_past(leaves: usize, nesting: usize) -> Option<LineFault<LimitKind>>
    ensures { leaves < 2 ^ 63 → nesting < 2 ^ 63 → result ≡ counts_past leaves nesting }
{
    count_past(LimitKind::Leaves, MAX_LEAVES, leaves).or(count_past(
        LimitKind::Nesting,
        usize::from(MAX_NESTING),
        nesting,
    ))
}

fn count_past(kind: LimitKind, limit: usize, found: usize) -> Option<LineFault<LimitKind>>
    ensures { found < 2 ^ 63 → result ≡ count_past kind limit found }
{
    if found <= limit {
        None
    } else {
        Some(LineFault::Limit {
            kind,
            found: i64::try_from(found).unwrap_or(i64::MAX),
        })
    }
}

/// The place of the first solid of a name, or the one behind the last where there is none.
fn place_of(solids: &[Solid], name: &[u8]) -> u8
    requires { length solids.now ≤ MAX_SOLIDS }
    ensures { result ≡ place_of (names_of solids.now) name.now }
{
    for (i, solid) in solids.iter().enumerate() {
        if solid.name() == name {
            return i as u8;
        }
    }
    solids.len() as u8
}
