//! Reading a listing from its text.
ghost use Rattle.std.specs.Prelude.{◌≡◌, ◌≤◌, ◌⊎◌, All, IfErr, IfOk, None, Some, length};
ghost use Rattle.px_num.specs.Want.{want};
ghost use Rattle.px_listing.specs.Reading.{listing_of, listing_refusal_of};
ghost use Rattle.px_macro.specs.Macros.{IsLawful};
ghost use Rattle.px_text.specs.declared.text.TheConstants.{MAX_TEXT_BYTES};
ghost use Rattle.px_text.specs.Text.{worded};

use crate::draft::Draft;
use crate::limit::ListKind;
use crate::listing::Listing;
use px_macro::laws_of_operations;
use px_show::{Drafting, LineError, TextFault, read_text};
use px_text::Line;
use std::alloc::Global;

/// Why a text is no listing (docs/LISTINGS.md, "Refusals"). The first bad line decides.
pub type ListFault = TextFault<ListKind>;

/// Reads a listing for pixels of so many memory bits, 1 to 256 (docs/LISTINGS.md).
///
/// The text has at most `MAX_TEXT_BYTES` bytes. `Malformed` and `Limit` come exactly as
/// docs/LISTINGS.md says, for the first bad line.
pub fn read_listing(alloc: Global, text: &[u8], bits: u32) -> Result<Listing, ListFault>
    requires bits { bits ≤ 256 }
    requires short { length text.now ≤ MAX_TEXT_BYTES }
    ensures ok { IfOk result (λ l. (listing_refusal_of bits text.now ≡ None)
        × (l ≡ listing_of (worded text.now))) }
    ensures lawful { IfOk result (λ l. All (λ m. IsLawful m bits) l.macros) }
    ensures err { IfErr result (λ f. (f ≡ TextFault.Memory want) ⊎ (listing_refusal_of bits text.now ≡ Some f)) }
{
    let draft = Draft::new(alloc);
    read_text(alloc, text, Reading { bits, draft })
}

/// A draft for pixels of so many memory bits.
#[derive(Drop)]
struct Reading {
    bits: u32,
    draft: Draft,
}

impl Drafting for Reading {
    ghost use Rattle.std.specs.Prelude.{◌≤◌};
    ghost use Rattle.px_listing.specs.Drafts.{IsListingDraftOf, listing_view_of};
    ghost use Rattle.px_listing.specs.Reading.{listing_fault_behind, listing_draft_of, is_listing_over, listing_of};

    type Kind = ListKind;

    type Whole = Listing;

    ghost judge = { λ reading. listing_fault_behind reading.bits };

    ghost says = { λ reading lines.
        (reading.bits ≤ 256) × IsListingDraftOf reading.bits (listing_view_of reading.draft) lines };

    ghost is_whole = { λ lines. is_listing_over (listing_draft_of lines).due };

    ghost means = { listing_of };

    fn add_line(&mut self, _alloc: Global, line: &Line<'_>) -> Result<(), LineError<ListKind>> {
        self.draft.add_words(self.bits, line.words.as_slice())
    }

    fn finish(self) -> Option<Listing> {
        laws_of_operations();
        let Reading { bits: _, draft } = self;
        draft.into_listing()
    }
}
