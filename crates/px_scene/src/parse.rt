//! One line of a scene text, parsed: what its words say, where it is expected and its form is good
//! (docs/SCENES.md, "Lines that are due").
ghost use Rattle.std.specs.Prelude.{◌≡◌, ◌≤◌, IfOk, length, true};
ghost use Rattle.px_text.specs.LentWords.{now_of};
ghost use Rattle.px_scene.specs.Lines.{depth_form, due_after, end_form, form_of, header_form, is_due, keyword_of, linear_in, paint_in, picture_form, plane_in, line_form, side_form, solid_form};
ghost use Rattle.px_scene.specs.Parsed.{as_form, keyword_in, name_in, stated};

use crate::line::{Due, Keyword, Paint, Plane, keyword_of};
use px_num::Linear;
use px_show::{Cause, Version};
use px_text::{is_name, number_of};

/// What a line says that is expected and of good form, with its numbers; what stands before it is not
/// asked yet.
#[derive(Clone, Copy)]
pub(crate) enum Statement<'t> {
    Header(Version),
    Picture { width: i64, height: i64 },
    Depth { bits: i64, fraction: Option<i64> },
    Solid { name: &'t [u8], paint: Paint },
    Front(Plane),
    Back(Plane),
    Side(Linear),
    Show(&'t [&'t [u8]]),
    End,
}

impl<'t> Statement<'t> {
    /// What a first word and the words after it say, by the version and by what is expected.
    pub(crate) fn parse(
        version: Version,
        due: Due,
        word: &[u8],
        words: &'t [&'t [u8]],
    ) -> Result<Statement<'t>, Cause>
        ensures says { as_form result ≡ line_form version due (keyword_of word.now) (now_of words.now) }
        ensures comes { IfOk result (λ s. is_due due (keyword_in s) ≡ true) }
        ensures named { IfOk result (λ s. length (name_in s) ≤ 32) }
    {
        match (due, keyword_of(word)) {
            (Due::Header, Keyword::Pxscene) => header(words),
            (Due::Header, _) => Err(Cause::NotHeader),
            (Due::Picture, Keyword::Picture) => picture(words),
            (Due::Depth, Keyword::Depth) => depth(version, words),
            (Due::Solid, Keyword::Solid) => solid(words),
            (Due::Solid, Keyword::Show) => Ok(Statement::Show(words)),
            (Due::Plane, Keyword::Front) => Ok(Statement::Front(face(words)?)),
            (Due::Plane, Keyword::Back) => Ok(Statement::Back(face(words)?)),
            (Due::Plane, Keyword::Side) => side(words),
            (Due::Plane, Keyword::Solid) => solid(words),
            (Due::Plane, Keyword::Show) => Ok(Statement::Show(words)),
            (Due::End, Keyword::End) => end(words),
            (Due::Nothing, _) => Err(Cause::AfterEnd),
            _ => Err(Cause::Unexpected),
        }
    }

    /// What is expected on the line after its own.
    pub(crate) fn due_after(self) -> Due
        ensures { result ≡ due_after (stated self.entry) }
    {
        match self {
            Statement::Header(_) => Due::Picture,
            Statement::Picture { .. } => Due::Depth,
            Statement::Depth { .. } => Due::Solid,
            Statement::Solid { .. }
            | Statement::Front(_)
            | Statement::Back(_)
            | Statement::Side(_) => Due::Plane,
            Statement::Show(_) => Due::End,
            Statement::End => Due::Nothing,
        }
    }
}

fn header<'t>(words: &'t [&'t [u8]]) -> Result<Statement<'t>, Cause>
    ensures { as_form result ≡ header_form (now_of words.now) }
{
    match Version::of(words) {
        Some(version) => Ok(Statement::Header(version)),
        None => Err(Cause::NotHeader),
    }
}

fn picture<'t>(words: &'t [&'t [u8]]) -> Result<Statement<'t>, Cause>
    ensures { as_form result ≡ picture_form (now_of words.now) }
{
    match words {
        [width, height] => match (number_of(width), number_of(height)) {
            (Some(width), Some(height)) => Ok(Statement::Picture { width, height }),
            _ => Err(Cause::NotNumber),
        },
        _ => Err(Cause::WordCount),
    }
}

fn depth<'t>(version: Version, words: &'t [&'t [u8]]) -> Result<Statement<'t>, Cause>
    ensures { as_form result ≡ depth_form version (now_of words.now) }
{
    match (version, words) {
        (Version::One | Version::Two, [bits]) => match number_of(bits) {
            Some(bits) => Ok(Statement::Depth {
                bits,
                fraction: None,
            }),
            None => Err(Cause::NotNumber),
        },
        (Version::Three, [bits, fraction]) => match (number_of(bits), number_of(fraction)) {
            (Some(bits), Some(fraction)) => Ok(Statement::Depth {
                bits,
                fraction: Some(fraction),
            }),
            _ => Err(Cause::NotNumber),
        },
        _ => Err(Cause::WordCount),
    }
}

fn solid<'t>(words: &'t [&'t [u8]]) -> Result<Statement<'t>, Cause>
    ensures says { as_form result ≡ solid_form (now_of words.now) }
    ensures named { IfOk result (λ s. length (name_in s) ≤ 32) }
{
    match words {
        [name, red, green, blue] => {
            if !is_name(name) {
                return Err(Cause::BadName);
            }
            match paint_of(red, green, blue) {
                Some(paint) => Ok(Statement::Solid { name, paint }),
                None => Err(Cause::NotNumber),
            }
        }
        _ => Err(Cause::WordCount),
    }
}

fn side<'t>(words: &'t [&'t [u8]]) -> Result<Statement<'t>, Cause>
    ensures { as_form result ≡ side_form (now_of words.now) }
{
    match words {
        [a, b, c] => match linear_of(a, b, c) {
            Some(form) => Ok(Statement::Side(form)),
            None => Err(Cause::NotNumber),
        },
        _ => Err(Cause::WordCount),
    }
}

fn end<'t>(words: &'t [&'t [u8]]) -> Result<Statement<'t>, Cause>
    ensures { as_form result ≡ end_form (now_of words.now) }
{
    match words {
        [] => Ok(Statement::End),
        _ => Err(Cause::WordCount),
    }
}

/// A plane, and a colour where one follows.
fn face(words: &[&[u8]]) -> Result<Plane, Cause>
    ensures { result ≡ plane_in (now_of words.now) }
{
    match words {
        [a, b, c] => match linear_of(a, b, c) {
            Some(form) => Ok(Plane { form, paint: None }),
            None => Err(Cause::NotNumber),
        },
        [a, b, c, red, green, blue] => match (linear_of(a, b, c), paint_of(red, green, blue)) {
            (Some(form), Some(paint)) => Ok(Plane {
                form,
                paint: Some(paint),
            }),
            _ => Err(Cause::NotNumber),
        },
        _ => Err(Cause::WordCount),
    }
}

fn linear_of(a: &[u8], b: &[u8], c: &[u8]) -> Option<Linear>
    ensures { result ≡ linear_in a.now b.now c.now }
{
    match (number_of(a), number_of(b), number_of(c)) {
        (Some(a), Some(b), Some(c)) => Some(Linear { a, b, c }),
        _ => None,
    }
}

fn paint_of(red: &[u8], green: &[u8], blue: &[u8]) -> Option<Paint>
    ensures { result ≡ paint_in red.now green.now blue.now }
{
    match (number_of(red), number_of(green), number_of(blue)) {
        (Some(red), Some(green), Some(blue)) => Some(Paint { red, green, blue }),
        _ => None,
    }
}
