//! The tokens of an expression's words (docs/SCENES.md, "Expressions").
ghost use Rattle.std.specs.Prelude.{◌≡◌, ◌<◌, ◌++◌, ◌∷◌, [], length, map, IfOk, OnOk, IfSome, IfNone};
ghost use Rattle.std.specs.List.{take_while};
ghost use Rattle.px_text.specs.Text.{is_name_byte};
ghost use Rattle.px_text.specs.LentWords.{now_of};
ghost use Rattle.px_show.specs.Expressions.{mark, sign_in, tokens_in, tokens_of};
ghost use Rattle.px_show.specs.Stacks.{token_of};

use crate::scene_version::Version;
use crate::sign::{is_sign, op_of};
use px_expr::Op;
use px_num::Memory;
use px_text::is_name_byte;
use std::alloc::Global;

/// A longest run of bytes of names, a bracket, a sign of the version, or another byte.
#[derive(Clone, Copy)]
pub(crate) enum Token<'t> {
    Name(&'t [u8]),
    Opens,
    Closes,
    Sign(Op),
    Other,
}

/// The tokens of words, one word after another.
pub(crate) fn tokens_of<'t>(
    alloc: Global,
    version: Version,
    words: &[&'t [u8]],
) -> Result<Vec<Token<'t>>, Memory>
    ensures { IfOk result (λ v. map token_of v.items ≡ tokens_of version (now_of words.now)) }
{
    let mut tokens = Vec::new(alloc);
    for word in words {
        add_tokens(&mut tokens, version, word)?;
    }
    Ok(tokens)
}

fn add_tokens<'t>(
    tokens: &mut Vec<Token<'t>>,
    version: Version,
    word: &'t [u8],
) -> Result<(), Memory>
    ensures { OnOk result (map token_of tokens.new.items
        ≡ map token_of tokens.old.items ++ tokens_in version word.now) }
{
    let mut rest = word;
    while let Some((token, after)) = first_token(version, rest) {
        tokens.push(token)?;
        rest = after;
    }
    Ok(())
}

/// The first token of the rest of a word, and what stands after it.
fn first_token(version: Version, rest: &[u8]) -> Option<(Token, &[u8])>
    ensures some { IfSome result (λ r.
        tokens_in version rest.now ≡ token_of r.0 ∷ tokens_in version r.1.now) }
    ensures less { IfSome result (λ r. length r.1.now < length rest.now) }
    ensures none { IfNone result (rest.now ≡ []) }
{
    match rest {
        [] => None,
        [b, after @ ..] => {
            if is_name_byte(*b) {
                let (name, after) = rest.split_at(name_length(rest));
                Some((Token::Name(name), after))
            } else {
                Some((mark(version, *b), after))
            }
        }
    }
}

/// How many bytes of a name stand before the first byte of none.
fn name_length(rest: &[u8]) -> usize
    ensures { result ≡ length (take_while is_name_byte rest.now) }
{
    rest.iter().take_while(|b| is_name_byte(**b)).count()
}

/// The token of a byte that is in no name.
fn mark(version: Version, b: u8) -> Token<'static>
    ensures { token_of result ≡ mark version b }
{
    if b == b'(' {
        Token::Opens
    } else if b == b')' {
        Token::Closes
    } else {
        sign_in(version, op_of(b))
    }
}

/// The sign of an operator, where the version has it.
fn sign_in(version: Version, op: Option<Op>) -> Token<'static>
    ensures { token_of result ≡ sign_in version op }
{
    match op {
        Some(op) if is_sign(version, op) => Token::Sign(op),
        _ => Token::Other,
    }
}
