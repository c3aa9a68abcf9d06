//! Writing a scene's canonical text (docs/SCENES.md, "Canonical text").
ghost use Rattle.std.specs.Prelude.{◌≡◌, ◌++◌, OnOk, IfOk};
ghost use Rattle.std.specs.List.{flat_map};
ghost use Rattle.px_expr.specs.Tree.{IsLawfulTree};
ghost use Rattle.px_model.specs.Scenes.{IsLawfulSolid, SceneView};
ghost use Rattle.px_scene.specs.Writable.{IsWritable, IsReadAs};
ghost use Rattle.px_scene.specs.Canonical.{face_line, side_line, face_lines_at, lines_of_number, face_lines, solid_lines, first_lines, version_for, show_line, canonical_text};

use crate::printed_line::{
    put_bytes, put_colour, put_depth, put_head, put_header, put_line, put_picture, put_plane,
    put_side,
};
use px_model::{Face, Scene, Solid};
use px_num::{Linear, Memory};
use px_show::{Version, has_difference, put_expression};
use std::alloc::Global;

/// The canonical text of a scene (docs/SCENES.md, "Canonical text").
///
/// It is no longer than a text may be, and reading it gives the scene again.
pub fn write_scene(alloc: Global, scene: &Scene) -> Result<Vec<u8>, Memory>
    ensures text { IfOk result (λ text. text.items ≡ canonical_text scene.now) }
    ensures again { IfOk result (λ text. IsReadAs text.items scene.now) }
{
    let mut text = Vec::new(alloc);
    put_first_lines(&mut text, scene)?;
    for solid in scene.solids() {
        put_solid(&mut text, solid)?;
    }
    put_show(alloc, &mut text, scene)?;
    put_line(&mut text, b"end")?;
    Ok(text)
}

/// The first version in which a scene can be written.
fn version_for(scene: &Scene) -> Version
    ensures { result ≡ version_for scene.now }
{
    if scene.fraction_bits() != 0 {
        Version::Three
    } else if has_difference(scene.show()) {
        Version::Two
    } else {
        Version::One
    }
}

fn put_first_lines(text: &mut Vec<u8>, scene: &Scene) -> Result<(), Memory>
    ensures { OnOk result (text.new.items ≡ text.old.items ++ first_lines scene.now) }
{
    let version = version_for(scene);
    put_header(text, version)?;
    put_picture(text, scene.width(), scene.height())?;
    put_depth(text, version, scene.depth_bits(), scene.fraction_bits())
}

fn put_solid(text: &mut Vec<u8>, solid: &Solid) -> Result<(), Memory>
    ensures text { OnOk result (text.new.items ≡ text.old.items ++ solid_lines solid.now) }
    ensures lawful { OnOk result (IsLawfulSolid solid.now) }
{
    put_head(text, solid.name(), solid.colour())?;
    put_faces(text, solid)?;
    put_sides(text, solid.sides())
}

/// The fronts and backs in the order of their numbers.
#[tactic(auto, using(crate::proofs::WriteLaws::next_number))]
fn put_faces(text: &mut Vec<u8>, solid: &Solid) -> Result<(), Memory>
    ensures { OnOk result (text.new.items ≡ text.old.items ++ face_lines solid.now) }
{
    let first = u64::from(solid.near_number()) + 1;
    let count = solid.fronts().len() as u64 + solid.backs().len() as u64;
    for i in 0..count {
        put_number(text, solid, first + i)?;
    }
    Ok(())
}

/// The front or the back of a number.
fn put_number(text: &mut Vec<u8>, solid: &Solid, number: u64) -> Result<(), Memory>
    ensures { OnOk result (text.new.items ≡ text.old.items ++ lines_of_number solid.now number) }
{
    put_faces_at(text, b"front", solid.fronts(), number)?;
    put_faces_at(text, b"back", solid.backs(), number)
}

fn put_faces_at(
    text: &mut Vec<u8>,
    keyword: &[u8],
    faces: &[Face],
    number: u64,
) -> Result<(), Memory>
    ensures { OnOk result (text.new.items ≡ text.old.items
        ++ face_lines_at keyword.now faces.now number) }
{
    for face in faces {
        if u64::from(face.number) == number {
            put_face(text, keyword, face)?;
        }
    }
    Ok(())
}

#[tactic(auto, unfolding(crate::specs::Canonical::written_line))]
fn put_face(text: &mut Vec<u8>, keyword: &[u8], face: &Face) -> Result<(), Memory>
    ensures { OnOk result (text.new.items ≡ text.old.items ++ face_line keyword.now face.now) }
{
    put_bytes(text, keyword)?;
    put_plane(text, &face.plane)?;
    put_colour(text, face.colour)?;
    put_bytes(text, b"\n")
}

fn put_sides(text: &mut Vec<u8>, sides: &[Linear]) -> Result<(), Memory>
    ensures { OnOk result (text.new.items ≡ text.old.items ++ flat_map side_line sides.now) }
{
    for side in sides {
        put_side(text, side)?;
    }
    Ok(())
}

#[tactic(auto, unfolding(crate::specs::Canonical::written_line))]
fn put_show(alloc: Global, text: &mut Vec<u8>, scene: &Scene) -> Result<(), Memory>
    ensures text { OnOk result (text.new.items ≡ text.old.items ++ show_line scene.now) }
    ensures lawful { OnOk result (IsLawfulTree scene.now.show) }
{
    put_bytes(text, b"show ")?;
    put_expression(alloc, text, scene.solids(), scene.show())?;
    put_bytes(text, b"\n")
}

/// The canonical text of a scene is within the limit of texts, and is read as the scene.
pub fn canonical_law()
    ensures { (scene : SceneView) → IsWritable scene → IsReadAs (canonical_text scene) scene }
{}
