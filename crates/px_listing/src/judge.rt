//! What a line of a listing says, where it is expected and its form is good (docs/LISTINGS.md, "Refusals").
ghost use Rattle.std.specs.Prelude.{◌≡◌, ◌≤◌, ◌^◌, All, IfNone, IfOk, IfSome, false, length, true};
ghost use Rattle.px_num.specs.Forms.{IsWithin};
ghost use Rattle.px_text.specs.LentWords.{now_of};
ghost use Rattle.px_listing.specs.Drafts.{AreSmall, IsOpened, told_by, told_of};
ghost use Rattle.px_listing.specs.Keywords.{listing_keyword_of};
ghost use Rattle.px_listing.specs.Kinds.{number_count, shape_of};
ghost use Rattle.px_listing.specs.Lines.{are_numbers, closing_form, counted, grid_form, numbers_of, opening_form};
ghost use Rattle.px_listing.specs.Lines.{operation_form, timely_form};

use crate::keyword::{Due, Keyword, is_one, keyword_of};
use crate::kind::Kind;
use crate::numbers::Numbers;
use arrayvec::ArrayVec;
use px_show::Cause;
use px_text::number_of;

/// What a line says that is expected and of good form, with its numbers, which no limit holds yet.
#[derive(Drop)]
pub(crate) enum Entry {
    Opening,
    Grid { nx: i64, ny: i64 },
    Operation(Kind, Numbers),
    Closing,
}

/// What a first word and the words after it say, by what is expected, or why they are bad.
pub(crate) fn entry_of(due: Due, word: &[u8], arguments: &[&[u8]]) -> Result<Entry, Cause>
    ensures says { told_of result ≡ timely_form due (listing_keyword_of word.now) (now_of arguments.now) }
    ensures small { IfOk result (λ entry. AreSmall (told_by entry)) }
    ensures opened { IfOk result (λ entry. IsOpened due (told_by entry)) }
{
    match (due, keyword_of(word)) {
        (Due::Header, Keyword::Pxlist) => opening(arguments),
        (Due::Header, _) => Err(Cause::NotHeader),
        (Due::Grid, Keyword::Grid) => grid(arguments),
        (Due::Operation, Keyword::Operation(kind)) => operation(kind, arguments),
        (Due::Operation, Keyword::End) => closing(arguments),
        (Due::Nothing, _) => Err(Cause::AfterEnd),
        _ => Err(Cause::Unexpected),
    }
}

fn opening(arguments: &[&[u8]]) -> Result<Entry, Cause>
    ensures says { told_of result ≡ opening_form (now_of arguments.now) }
    ensures small { IfOk result (λ entry. AreSmall (told_by entry)) }
{
    if is_one(arguments) {
        Ok(Entry::Opening)
    } else {
        Err(Cause::NotHeader)
    }
}

fn grid(arguments: &[&[u8]]) -> Result<Entry, Cause>
    ensures says { told_of result ≡ grid_form (now_of arguments.now) }
    ensures small { IfOk result (λ entry. AreSmall (told_by entry)) }
{
    match arguments {
        [nx, ny] => match (number_of(nx), number_of(ny)) {
            (Some(nx), Some(ny)) => Ok(Entry::Grid { nx, ny }),
            _ => Err(Cause::NotNumber),
        },
        _ => Err(Cause::WordCount),
    }
}

fn operation(kind: Kind, arguments: &[&[u8]]) -> Result<Entry, Cause>
    ensures says { told_of result
        ≡ operation_form kind (counted (number_count (shape_of kind)) (now_of arguments.now)) }
    ensures small { IfOk result (λ entry. AreSmall (told_by entry)) }
{
    if arguments.len() != kind.shape().count() {
        return Err(Cause::WordCount);
    }
    match numbers_of(arguments) {
        Some(numbers) => Ok(Entry::Operation(kind, numbers)),
        None => Err(Cause::NotNumber),
    }
}

fn closing(arguments: &[&[u8]]) -> Result<Entry, Cause>
    ensures says { told_of result ≡ closing_form (now_of arguments.now) }
    ensures small { IfOk result (λ entry. AreSmall (told_by entry)) }
{
    match arguments {
        [] => Ok(Entry::Closing),
        _ => Err(Cause::WordCount),
    }
}

/// The numbers that the words write, in order, where each writes one.
fn numbers_of(words: &[&[u8]]) -> Option<Numbers>
    requires few { length words.now ≤ 5 }
    ensures each { IfSome result (λ numbers. are_numbers (now_of words.now) ≡ true) }
    ensures value { IfSome result (λ numbers. numbers.items ≡ numbers_of (now_of words.now)) }
    ensures small { IfSome result (λ numbers. All (IsWithin (10 ^ 18)) numbers.items) }
    ensures none { IfNone result (are_numbers (now_of words.now) ≡ false) }
{
    let mut numbers = ArrayVec::new();
    for word in words {
        match number_of(word) {
            Some(number) => numbers.push(number),
            None => return None,
        }
    }
    Some(numbers)
}
