//! What the lines of a listing have said so far.
ghost use Rattle.std.specs.Prelude.{◌≡◌, ◌∷◌, [], ◌+◌, ◌≤◌, ℕ, All, IsErrOf, None, OnOk, Some, length, IfSome, is_some};
ghost use Rattle.px_listing.specs.Drafts.{IsDraft, head_of, listing_view_of, told_by};
ghost use Rattle.px_listing.specs.Limits.{grid_past, listing_limit_of, shape_past};
ghost use Rattle.px_listing.specs.Lines.{grid, operation};
ghost use Rattle.px_listing.specs.Kinds.{shape_of};
ghost use Rattle.px_listing.specs.Reading.{bad_in, extended, is_listing_over, listing_taken, unwritten};
ghost use Rattle.px_tree.specs.Nodes.{IsGrid};
ghost use Rattle.px_listing.specs.declared.limit.ListKind.{ListKind};
ghost use Rattle.px_show.specs.declared.fault.LineFault.{LineFault};
ghost use Rattle.px_macro.specs.Macros.{IsLawful};
ghost use Rattle.px_text.specs.declared.text.TheConstants.{MAX_TEXT_BYTES};
ghost use Rattle.px_text.specs.LentWords.{now_of};

use crate::judge::{Entry, entry_of};
use crate::keyword::Due;
use crate::kind::{Kind, operation_with};
use crate::limit::{ListKind, limit_of};
use crate::listing::Listing;
use crate::numbers::Numbers;
use px_macro::Macro;
use px_num::Memory;
use px_show::{LineError, LineFault};
use std::alloc::Global;

/// What the lines so far have said.
#[derive(Drop)]
pub(crate) struct Draft {
    due: Due,
    nx: u32,
    ny: u32,
    macros: Vec<Macro>,
}

impl Draft {
    /// What stands before the first line.
    pub(crate) fn new(alloc: Global) -> Draft
        ensures { listing_view_of result ≡ unwritten }
    {
        Draft {
            due: Due::Header,
            nx: 1,
            ny: 1,
            macros: Vec::new(alloc),
        }
    }

    /// Takes the words of a line in; one without words says nothing.
    pub(crate) fn add_words(
        &mut self,
        bits: u32,
        words: &[&[u8]],
    ) -> Result<(), LineError<ListKind>>
        requires bits { bits ≤ 256 }
        ensures bad { (f : LineFault ListKind) → IsErrOf result (LineError.Bad f) →
            bad_in bits self.old.due (now_of words.now) ≡ Some f }
        ensures good { OnOk result (bad_in bits self.old.due (now_of words.now) ≡ None) }
        ensures taken { OnOk result (listing_view_of self.new ≡ listing_taken (listing_view_of self.old) (now_of words.now)) }
        ensures keeps { (count : ℕ) → IsDraft bits count (listing_view_of self.old) →
            OnOk result (IsDraft bits (count + 1) (listing_view_of self.new)) }
    {
        match words {
            [] => Ok(()),
            [word, arguments @ ..] => self.add(bits, word, arguments),
        }
    }

    /// Takes a line in, by its first word and the words after it.
    fn add(
        &mut self,
        bits: u32,
        word: &[u8],
        arguments: &[&[u8]],
    ) -> Result<(), LineError<ListKind>>
        requires bits { bits ≤ 256 }
        ensures bad { (f : LineFault ListKind) → IsErrOf result (LineError.Bad f) →
            bad_in bits self.old.due (word.now ∷ now_of arguments.now) ≡ Some f }
        ensures good { OnOk result
            (bad_in bits self.old.due (word.now ∷ now_of arguments.now) ≡ None) }
        ensures taken { OnOk result (listing_view_of self.new
            ≡ listing_taken (listing_view_of self.old) (word.now ∷ now_of arguments.now)) }
        ensures keeps { (count : ℕ) → IsDraft bits count (listing_view_of self.old) →
            OnOk result (IsDraft bits (count + 1) (listing_view_of self.new)) }
    {
        let entry = entry_of(self.due, word, arguments)?;
        if let Some(fault) = limit_of(bits, &entry) {
            return Err(LineError::Bad(fault));
        }
        self.take(bits, entry)?;
        Ok(())
    }

    /// Takes in what a good line says.
    fn take(&mut self, bits: u32, entry: Entry) -> Result<(), Memory>
        requires bits { bits ≤ 256 }
        requires limit { listing_limit_of bits (told_by entry) ≡ None }
        ensures taken { OnOk result
            (listing_view_of self.new ≡ extended (listing_view_of self.old) (told_by entry)) }
    {
        match entry {
            Entry::Opening => self.due = Due::Grid,
            Entry::Grid { nx, ny } => self.take_grid(nx, ny),
            Entry::Operation(kind, numbers) => self.take_operation(bits, kind, numbers)?,
            Entry::Closing => self.due = Due::Nothing,
        }
        Ok(())
    }

    fn take_grid(&mut self, nx: i64, ny: i64)
        requires limit { grid_past nx ny ≡ None }
        ensures { listing_view_of self.new ≡ extended (listing_view_of self.old) (grid nx ny) }
    {
        self.nx = nx as u32;
        self.ny = ny as u32;
        self.due = Due::Operation;
    }

    fn take_operation(&mut self, bits: u32, kind: Kind, numbers: Numbers) -> Result<(), Memory>
        requires bits { bits ≤ 256 }
        requires limit { shape_past bits (shape_of kind) numbers.items ≡ None }
        ensures { OnOk result
            (listing_view_of self.new ≡ extended (listing_view_of self.old) (operation kind numbers.items)) }
    {
        if let Some(operation) = operation_with(bits, kind, numbers.as_slice()) {
            self.macros.push(operation)?;
        }
        self.due = Due::Operation;
        Ok(())
    }

    /// The listing, where the last line is the end.
    pub(crate) fn into_listing(self) -> Option<Listing>
        requires grid { IsGrid self.nx self.ny }
        requires few { length self.macros.items + head_of self.due ≤ MAX_TEXT_BYTES + 1 }
        requires lawful { All (λ m. IsLawful m 256) self.macros.items }
        ensures ended { is_some result ≡ is_listing_over self.due }
        ensures listing { IfSome result (λ l.
            l ≡ record { nx = self.nx; ny = self.ny; macros = self.macros.items }) }
    {
        let Draft {
            due,
            nx,
            ny,
            macros,
        } = self;
        match due {
            Due::Nothing => Some(Listing { nx, ny, macros }),
            Due::Header | Due::Grid | Due::Operation => None,
        }
    }
}
