//! The images of a wide picture, from the numbers that are found of it.
ghost use Rattle.std.specs.Prelude.{◌≡◌, ◌++◌, ◌*◌, ◌<◌, ◌≤◌, All, OnErr, OnOk, length};
ghost use Rattle.px_frame.specs.Picture.{header, three_bytes, depth_image, face_image};
ghost use Rattle.px_io.specs.Counts.{HasCause};
ghost use Rattle.px_io.specs.Reports.{TakesAll, TakesFront};
ghost use Rattle.px_tile.specs.declared.image.TheConstants.{PIECE};
ghost use Rattle.px_tile.specs.Found.{IsFound};
ghost use Rattle.px_tile.specs.Parts.{IsSmall, bytes_of, part_image, part_of};
ghost use Rattle.px_tile.specs.Tiles.{wide_scene};
ghost use Rattle.px_tile.specs.Tilings.{IsWideSize};

use arrayvec::ArrayVec;
use px_frame::{header, three_bytes};
use px_io::{Failed, Sink, write_whole};
use px_model::{Scene, laws_of_scenes};

/// So many pixels are written at once.
const PIECE: usize = 512;

/// Three bytes a pixel.
const PIECE_BYTES: usize = 3 * PIECE;

/// What an image shows of each number.
#[derive(Clone, Copy)]
pub(crate) enum Part {
    Depth,
    Face,
}

/// Appends the depth image and the face image of a wide picture to the sink, or a front of them
/// where a write fails (docs/PICTURE.md, "Images"). The sink is not finished.
///
/// The numbers are those that are found of the wide picture of the scene.
pub fn write_wide<O: Sink>(
    found: &[u64],
    scene: &Scene,
    width: u32,
    height: u32,
    out: &mut O,
) -> Result<(), Failed>
    requires size { IsWideSize width height }
    requires found { IsFound scene.now width height found.now }
    ensures ok { OnOk result (TakesAll (O.state out.old) (O.state out.new)
        (depth_image (wide_scene scene.now width height)
        ++ face_image (wide_scene scene.now width height))) }
    ensures err { OnErr result (TakesFront (O.state out.old) (O.state out.new)
        (depth_image (wide_scene scene.now width height)
        ++ face_image (wide_scene scene.now width height))) }
    ensures cause { HasCause (O.state out.old).faults (O.state out.new).faults result }
{
    write_part(found, scene, width, height, Part::Depth, out)?;
    write_part(found, scene, width, height, Part::Face, out)
}

/// Appends one of the images.
fn write_part<O: Sink>(
    found: &[u64],
    scene: &Scene,
    width: u32,
    height: u32,
    part: Part,
    out: &mut O,
) -> Result<(), Failed>
    requires size { IsWideSize width height }
    requires found { IsFound scene.now width height found.now }
    ensures ok { OnOk result (TakesAll (O.state out.old) (O.state out.new)
        (part_image part (wide_scene scene.now width height))) }
    ensures err { OnErr result (TakesFront (O.state out.old) (O.state out.new)
        (part_image part (wide_scene scene.now width height))) }
    ensures cause { HasCause (O.state out.old).faults (O.state out.new).faults result }
{
    laws_of_scenes(scene);
    let header = header(width, height);
    write_whole(out, header.as_str().as_bytes())?;
    write_pixels(found, part, out)
}

/// Appends the pixels of one of the images.
fn write_pixels<O: Sink>(found: &[u64], part: Part, out: &mut O) -> Result<(), Failed>
    requires small { All (IsSmall part) found.now }
    ensures ok { OnOk result (TakesAll (O.state out.old) (O.state out.new) (bytes_of part found.now)) }
    ensures err { OnErr result (TakesFront (O.state out.old) (O.state out.new) (bytes_of part found.now)) }
    ensures cause { HasCause (O.state out.old).faults (O.state out.new).faults result }
{
    let mut start = 0;
    while start < found.len() {
        let end = found.len().min(start + PIECE);
        let bytes = piece_bytes(&found[start..end], part);
        write_whole(out, bytes.as_slice())?;
        start = end;
    }
    Ok(())
}

/// The pixels of at most `PIECE` numbers.
fn piece_bytes(piece: &[u64], part: Part) -> ArrayVec<u8, PIECE_BYTES>
    requires few { length piece.now ≤ PIECE }
    requires small { All (IsSmall part) piece.now }
    ensures { result.items ≡ bytes_of part piece.now }
{
    let mut bytes = ArrayVec::new();
    for number in piece {
        let pixel = three_bytes(part_of(*number, part));
        bytes.try_extend_from_slice(&pixel).unwrap();
    }
    bytes
}

/// The depth or the face of a number.
fn part_of(number: u64, part: Part) -> u32
    requires { IsSmall part number }
    ensures { result ≡ part_of part number }
{
    match part {
        Part::Depth => (number / 4294967296) as u32,
        Part::Face => (number % 4294967296) as u32,
    }
}
