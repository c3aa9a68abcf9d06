//! `pxplanes_cause_name`, `pxplanes_kind_name` and `pxplanes_version`: words for numbers.
ghost use Rattle.std.specs.Prelude.{◌≡◌, codes};
ghost use Rattle.px_show.specs.declared.fault.Cause.{Cause};
ghost use Rattle.px_show.specs.declared.fault.LimitKind.{LimitKind};
ghost use Rattle.px_listing.specs.declared.limit.ListKind.{ListKind};
ghost use Rattle.px_commands.specs.declared.refusal.Kind.{Kind};
ghost use Rattle.px_commands.specs.Notes.{kind_word};
ghost use Rattle.px_commands.specs.Words.{cause_word, list_word, scene_word};
ghost use Rattle.px_c.specs.Names.{IsWordWritten, cause_names, kind_names, word_of_number};
ghost use Rattle.px_c.specs.Numbers.{cause_number, kind_number, limit_number, list_number};

use px_commands::{cause_word, list_word, scene_word};
use px_listing::ListKind;
use px_scene::{Cause, LimitKind};

/// Writes the word of a cause to the front of `name`, where it fits, and gives its length; 0 for a number that
/// is no cause's.
#[unsafe(no_mangle)]
pub extern "C" fn pxplanes_cause_name(cause: u32, name: &mut [u8]) -> usize
    ensures word { IsWordWritten (word_of_number cause_names cause) result name.old name.new }
    ensures known { (found : Cause) → cause ≡ cause_number found
        → IsWordWritten (cause_word found) result name.old name.new }
{
    write_word(cause_name(cause).as_bytes(), name)
}

/// Writes the word of what has a limit to the front of `name`, where it fits, and gives its length; 0
/// for a number that is none's.
#[unsafe(no_mangle)]
pub extern "C" fn pxplanes_kind_name(kind: u32, name: &mut [u8]) -> usize
    ensures word { IsWordWritten (word_of_number kind_names kind) result name.old name.new }
    ensures of_scenes { (found : LimitKind) → kind ≡ kind_number found
        → IsWordWritten (scene_word found) result name.old name.new }
    ensures of_listings { (found : ListKind) → kind ≡ list_number found
        → IsWordWritten (list_word found) result name.old name.new }
    ensures known { (found : Kind) → kind ≡ limit_number found
        → IsWordWritten (kind_word found) result name.old name.new }
{
    write_word(kind_name(kind).as_bytes(), name)
}

/// Writes the library's version to the front of `text`, where it fits, and gives its length.
#[unsafe(no_mangle)]
pub extern "C" fn pxplanes_version(text: &mut [u8]) -> usize
    ensures { IsWordWritten (codes "1.0.0") result text.old text.new }
{
    write_word(b"1.0.0", text)
}

/// Writes a word to the front of a buffer, where it fits, and gives its length.
fn write_word(word: &[u8], to: &mut [u8]) -> usize
    ensures { IsWordWritten word.now result to.old to.new }
{
    if word.len() <= to.len() {
        let (front, _) = to.split_at_mut(word.len());
        front.copy_from_slice(word);
    }
    word.len()
}

fn cause_name(cause: u32) -> &'static str
    ensures { result.now ≡ word_of_number cause_names cause }
{
    match cause {
        1 => cause_word(Cause::NotHeader),
        2 => cause_word(Cause::Unexpected),
        3 => cause_word(Cause::WordCount),
        4 => cause_word(Cause::NotNumber),
        5 => cause_word(Cause::BadName),
        6 => cause_word(Cause::SecondName),
        7 => cause_word(Cause::BadExpression),
        8 => cause_word(Cause::UnknownName),
        9 => cause_word(Cause::AfterEnd),
        10 => cause_word(Cause::MissingEnd),
        _ => "",
    }
}

fn kind_name(kind: u32) -> &'static str
    ensures { result.now ≡ word_of_number kind_names kind }
{
    match kind {
        1 => scene_word(LimitKind::Text),
        2 => scene_word(LimitKind::Picture),
        3 => scene_word(LimitKind::Depth),
        4 => scene_word(LimitKind::Colour),
        5 => scene_word(LimitKind::Coefficient),
        6 => scene_word(LimitKind::Solids),
        7 => scene_word(LimitKind::Fronts),
        8 => scene_word(LimitKind::Backs),
        9 => scene_word(LimitKind::Sides),
        10 => scene_word(LimitKind::Faces),
        11 => scene_word(LimitKind::Leaves),
        12 => scene_word(LimitKind::Nesting),
        13 => scene_word(LimitKind::Fraction),
        14 => scene_word(LimitKind::PixelMemory),
        15 => scene_word(LimitKind::Products),
        16 => list_word(ListKind::Grid),
        17 => list_word(ListKind::Coefficient),
        18 => list_word(ListKind::Length),
        19 => list_word(ListKind::Place),
        20 => list_word(ListKind::Value),
        21 => list_word(ListKind::Overlap),
        22 => "lights",
        23 => "tiles",
        _ => "",
    }
}
