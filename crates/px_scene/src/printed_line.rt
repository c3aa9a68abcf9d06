//! Single lines of a scene text, each appended to a text; after `Memory` a front of it may be there.
ghost use Rattle.std.specs.Prelude.{◌≡◌, ◌++◌, ◌∷◌, [], codes, decimal, OnOk};
ghost use Rattle.std.specs.Fmt.{signed_decimal};
ghost use Rattle.px_show.specs.Versions.{version_word};
ghost use Rattle.px_text.specs.Written.{spaced};
ghost use Rattle.px_scene.specs.Canonical.{written_line, colour_words, words_of_plane, side_line, depth_words};

use itoa::Buffer;
use px_model::Colour;
use px_num::{Linear, Memory};
use px_show::Version;

/// The line of a version.
#[tactic(auto, unfolding(crate::specs::Canonical::written_line))]
pub fn put_header(text: &mut Vec<u8>, version: Version) -> Result<(), Memory>
    ensures { OnOk result (text.new.items ≡ text.old.items
        ++ written_line (codes "pxscene") (version_word version ∷ [])) }
{
    put_bytes(text, b"pxscene ")?;
    put_bytes(text, version.word())?;
    put_bytes(text, b"\n")
}

/// The line of the size of a picture.
#[tactic(auto, unfolding(crate::specs::Canonical::written_line))]
pub fn put_picture(text: &mut Vec<u8>, width: u32, height: u32) -> Result<(), Memory>
    ensures { OnOk result (text.new.items ≡ text.old.items
        ++ written_line (codes "picture") (decimal width ∷ decimal height ∷ [])) }
{
    put_bytes(text, b"picture")?;
    put_size(text, width)?;
    put_size(text, height)?;
    put_bytes(text, b"\n")
}

/// The line of the bits of a depth, with its fraction bits where the version has them.
#[tactic(auto, unfolding(crate::specs::Canonical::written_line))]
pub fn put_depth(
    text: &mut Vec<u8>,
    version: Version,
    bits: u32,
    fraction: u32,
) -> Result<(), Memory>
    ensures { OnOk result (text.new.items ≡ text.old.items
        ++ written_line (codes "depth") (depth_words version bits fraction)) }
{
    put_bytes(text, b"depth")?;
    put_depth_words(text, version, bits, fraction)?;
    put_bytes(text, b"\n")
}

fn put_depth_words(
    text: &mut Vec<u8>,
    version: Version,
    bits: u32,
    fraction: u32,
) -> Result<(), Memory>
    ensures { OnOk result (text.new.items ≡ text.old.items
        ++ spaced (depth_words version bits fraction)) }
{
    match version {
        Version::One | Version::Two => put_size(text, bits),
        Version::Three => {
            put_size(text, bits)?;
            put_size(text, fraction)
        }
    }
}

/// The line that begins a solid.
#[tactic(auto, unfolding(crate::specs::Canonical::written_line))]
pub fn put_head(text: &mut Vec<u8>, name: &[u8], colour: Colour) -> Result<(), Memory>
    ensures { OnOk result (text.new.items ≡ text.old.items
        ++ written_line (codes "solid") (name.now ∷ colour_words colour)) }
{
    put_bytes(text, b"solid ")?;
    put_bytes(text, name)?;
    put_colour(text, colour)?;
    put_bytes(text, b"\n")
}

/// The line of a side.
#[tactic(auto, unfolding(crate::specs::Canonical::written_line))]
pub fn put_side(text: &mut Vec<u8>, side: &Linear) -> Result<(), Memory>
    ensures { OnOk result (text.new.items ≡ text.old.items ++ side_line side.now) }
{
    put_bytes(text, b"side")?;
    put_plane(text, side)?;
    put_bytes(text, b"\n")
}

/// A line of one word.
#[tactic(auto, unfolding(crate::specs::Canonical::written_line))]
pub fn put_line(text: &mut Vec<u8>, word: &[u8]) -> Result<(), Memory>
    ensures { OnOk result (text.new.items ≡ text.old.items ++ written_line word.now []) }
{
    put_bytes(text, word)?;
    put_bytes(text, b"\n")
}

/// The numbers of a plane, each behind a space.
pub fn put_plane(text: &mut Vec<u8>, plane: &Linear) -> Result<(), Memory>
    ensures { OnOk result (text.new.items ≡ text.old.items ++ spaced (words_of_plane plane.now)) }
{
    put_coefficient(text, plane.a)?;
    put_coefficient(text, plane.b)?;
    put_coefficient(text, plane.c)
}

/// The numbers of a colour, each behind a space.
pub fn put_colour(text: &mut Vec<u8>, colour: Colour) -> Result<(), Memory>
    ensures { OnOk result (text.new.items ≡ text.old.items ++ spaced (colour_words colour)) }
{
    put_size(text, u32::from(colour.red))?;
    put_size(text, u32::from(colour.green))?;
    put_size(text, u32::from(colour.blue))
}

fn put_coefficient(text: &mut Vec<u8>, z: i64) -> Result<(), Memory>
    ensures { OnOk result (text.new.items ≡ text.old.items ++ 32 ∷ signed_decimal z) }
{
    let mut digits = Buffer::new();
    put_bytes(text, b" ")?;
    put_bytes(text, digits.format(z).as_bytes())
}

fn put_size(text: &mut Vec<u8>, n: u32) -> Result<(), Memory>
    ensures { OnOk result (text.new.items ≡ text.old.items ++ 32 ∷ decimal n) }
{
    let mut digits = Buffer::new();
    put_bytes(text, b" ")?;
    put_bytes(text, digits.format(n).as_bytes())
}

/// Appends bytes.
pub fn put_bytes(text: &mut Vec<u8>, bytes: &[u8]) -> Result<(), Memory>
    ensures { OnOk result (text.new.items ≡ text.old.items ++ bytes.now) }
{
    text.extend_from_slice(bytes)?;
    Ok(())
}
