//! Why a text is refused, or what it asks of an array.
ghost use Rattle.std.specs.Prelude.{◌≡◌};
ghost use Rattle.px_commands.specs.Refusals.{too_long};

use px_listing::ListKind;
use px_scene::{Cause, LimitKind};
use px_text::MAX_TEXT_BYTES;

/// One byte more than a text may have.
pub const READ_LIMIT: usize = MAX_TEXT_BYTES + 1;

/// Why a text is refused (docs/SCENES.md, "Refusals").
#[derive(Clone, Copy)]
pub enum Refusal {
    /// The words of a line are bad, or lines are missing.
    Malformed { line: u32, cause: Cause },
    /// A number or a count passes its limit; the line is 0 where it is not one line's.
    Limit { line: u32, kind: Kind, found: i64 },
}

/// Which limit is passed.
#[derive(Clone, Copy)]
pub enum Kind {
    /// One of those of scenes.
    Scene(LimitKind),
    /// The lights of a scene.
    Lights,
    /// The tiles of a wide picture.
    Tiles,
    /// One of those of listings.
    List(ListKind),
}

/// The refusal of a text that has more bytes than it may have.
pub fn too_long() -> Refusal
    ensures { result ≡ too_long }
{
    Refusal::Limit {
        line: 0,
        kind: Kind::Scene(LimitKind::Text),
        found: READ_LIMIT as i64,
    }
}
