//! A listing: operations that are broadcast to the pixels of a grid.
use px_macro::Macro;
use std::marker::Model;

/// A listing has at most so many operations: a text that is read has a line for each of them.
pub const MAX_OPERATIONS: usize = 1_048_576;

/// Operations that are broadcast to the pixels of a grid (docs/LISTINGS.md).
///
/// The grid has `2^nx` columns and `2^ny` rows, each exponent from 1 to 9. There are at most
/// `MAX_OPERATIONS`, and pixels of 256 memory bits can carry each of them out.
#[derive(Drop)]
pub struct Listing {
    pub nx: u32,
    pub ny: u32,
    pub macros: Vec<Macro>,
}

impl Model for Listing {
    ghost use Rattle.px_listing.specs.Listings.{IsListing, ListingView};

    ghost Value = { ListingView };

    ghost view = { λ l. record { nx = l.nx; ny = l.ny; macros = l.macros.items } };

    ghost invariant = { λ l. IsListing (record { nx = l.nx; ny = l.ny; macros = l.macros.items }) };
}
