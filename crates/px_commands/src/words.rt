//! The words that the program prints for a cause and for a limit.
ghost use Rattle.std.specs.Prelude.{◌≡◌, ◌≤◌, length};
ghost use Rattle.px_commands.specs.Words.{cause_word, list_word, scene_word};

use px_listing::ListKind;
use px_show::{Cause, LimitKind};

/// The word of a cause (docs/SCENES.md, "Causes").
pub fn cause_word(cause: Cause) -> &'static str
    ensures word { result.now ≡ cause_word cause }
    ensures short { length result.now ≤ 14 }
{
    match cause {
        Cause::NotHeader => "not-header",
        Cause::Unexpected => "unexpected",
        Cause::WordCount => "word-count",
        Cause::NotNumber => "not-number",
        Cause::BadName => "bad-name",
        Cause::SecondName => "second-name",
        Cause::BadExpression => "bad-expression",
        Cause::UnknownName => "unknown-name",
        Cause::AfterEnd => "after-end",
        Cause::MissingEnd => "missing-end",
    }
}

/// The word of a limit of scenes (docs/SCENES.md, "Limits").
pub fn scene_word(kind: LimitKind) -> &'static str
    ensures word { result.now ≡ scene_word kind }
    ensures short { length result.now ≤ 12 }
{
    match kind {
        LimitKind::Text => "text",
        LimitKind::Picture => "picture",
        LimitKind::Depth => "depth",
        LimitKind::Colour => "colour",
        LimitKind::Coefficient => "coefficient",
        LimitKind::Solids => "solids",
        LimitKind::Fronts => "fronts",
        LimitKind::Backs => "backs",
        LimitKind::Sides => "sides",
        LimitKind::Faces => "faces",
        LimitKind::Leaves => "leaves",
        LimitKind::Nesting => "nesting",
        LimitKind::Fraction => "fraction",
        LimitKind::PixelMemory => "pixel-memory",
        LimitKind::Products => "products",
    }
}

/// The word of a limit of listings (docs/LISTINGS.md, "Limits").
pub fn list_word(kind: ListKind) -> &'static str
    ensures word { result.now ≡ list_word kind }
    ensures short { length result.now ≤ 12 }
{
    match kind {
        ListKind::Grid => "grid",
        ListKind::Coefficient => "coefficient",
        ListKind::Length => "length",
        ListKind::Place => "place",
        ListKind::Value => "value",
        ListKind::Overlap => "overlap",
    }
}
