//! The sample: a scene of so many blocks with one cut through all of them, the program's own measure of work.
ghost use Rattle.std.specs.Prelude.{◌≡◌, ◌+◌, ◌/◌, ◌<◌, ◌≤◌, ◌++◌, ◌∷◌, [], ℕ, codes, IfOk, OnOk};
ghost use Rattle.px_scene.specs.Canonical.{written_line};
ghost use Rattle.px_model.specs.declared.limits.TheConstants.{MAX_BLOCKS};
ghost use Rattle.px_sample.specs.Sample.{
  block_faces,
  block_line,
  block_lines,
  block_name,
  block_sides,
  cut_lines,
  form,
  form_line,
  left_and_right,
  sample_start,
  sample_text,
  top_and_bottom,
  union_of,
};
ghost use Rattle.px_sample.specs.SampleLaw.{SamplesAreAccepted};

use itoa::Buffer;
use px_model::Colour;
use px_num::{Linear, Memory};
use px_scene::{
    put_bytes, put_colour, put_depth, put_head, put_header, put_line, put_picture, put_plane,
    put_side,
};
use px_show::Version;
use std::alloc::Global;

/// How many blocks are in a row.
const COLUMNS: u32 = 16;

/// The text of a scene of `n` blocks, 1 to `MAX_BLOCKS`, with one cut through all of them
/// (docs/SCENES.md, "The sample").
#[tactic(auto, using(px_scene::proofs::WriteLaws::next_number))]
pub fn sample_text(alloc: Global, n: u32) -> Result<Vec<u8>, Memory>
    requires some { 1 ≤ n }
    requires few { n ≤ MAX_BLOCKS }
    ensures { IfOk result (λ text. text.items ≡ sample_text n) }
{
    let mut text = Vec::new(alloc);
    put_start(&mut text, n)?;
    for i in 0..n {
        put_block(&mut text, i)?;
    }
    put_cut(&mut text)?;
    put_shown(&mut text, n)?;
    put_line(&mut text, b"end")?;
    Ok(text)
}

/// The union of blocks as it is written: one alone by its name, more in two halves, of which the
/// second may be the greater; and the text of the sample is a scene's, for each number of blocks.
#[tactic(auto, using(crate::proofs::SampleLemmas::union_of_one, crate::proofs::SampleLemmas::union_of_halves, crate::proofs::SampleTextLemmas::samples_accepted))]
pub fn laws_of_samples()
    ensures one { (first : ℕ) → union_of first (first + 1) ≡ block_name first }
    ensures halves { (first end : ℕ) → first + 1 < end → union_of first end
        ≡ codes "(" ++ union_of first ((first + end) / 2) ++ codes " + "
        ++ union_of ((first + end) / 2) end ++ codes ")" }
    ensures accepted { SamplesAreAccepted }
{}

fn put_start(text: &mut Vec<u8>, n: u32) -> Result<(), Memory>
    requires { n ≤ MAX_BLOCKS }
    ensures { OnOk result (text.new.items ≡ text.old.items ++ sample_start n) }
{
    put_header(text, Version::One)?;
    put_picture(text, 4 * COLUMNS, 4 * n.div_ceil(COLUMNS))?;
    put_depth(text, Version::One, 16, 0)
}

fn put_block(text: &mut Vec<u8>, i: u32) -> Result<(), Memory>
    requires { i < MAX_BLOCKS }
    ensures { OnOk result (text.new.items ≡ text.old.items ++ block_lines i) }
{
    put_block_line(text, i)?;
    put_block_sides(text, i)?;
    put_block_faces(text, i)
}

/// The sides of a block of three columns and three rows.
fn put_block_sides(text: &mut Vec<u8>, i: u32) -> Result<(), Memory>
    requires { i < MAX_BLOCKS }
    ensures { OnOk result (text.new.items ≡ text.old.items ++ block_sides i) }
{
    put_left_and_right(text, i)?;
    put_top_and_bottom(text, i)
}

fn put_left_and_right(text: &mut Vec<u8>, i: u32) -> Result<(), Memory>
    requires { i < MAX_BLOCKS }
    ensures { OnOk result (text.new.items ≡ text.old.items ++ left_and_right i) }
{
    let left = 4 * i64::from(i % COLUMNS);
    put_side(text, &form(1, 0, -left))?;
    put_side(text, &form(-1, 0, left + 2))
}

fn put_top_and_bottom(text: &mut Vec<u8>, i: u32) -> Result<(), Memory>
    requires { i < MAX_BLOCKS }
    ensures { OnOk result (text.new.items ≡ text.old.items ++ top_and_bottom i) }
{
    let top = 4 * i64::from(i / COLUMNS);
    put_side(text, &form(0, 1, -top))?;
    put_side(text, &form(0, -1, top + 2))
}

fn put_block_faces(text: &mut Vec<u8>, i: u32) -> Result<(), Memory>
    requires { i < MAX_BLOCKS }
    ensures { OnOk result (text.new.items ≡ text.old.items ++ block_faces i) }
{
    put_form(text, b"front", &form(1, 2, 100 + i64::from(i)))?;
    put_form(text, b"back", &form(0, 0, 1000))
}

/// The cut, which goes through all blocks: the pixels right of its slope, in front of depth 300.
fn put_cut(text: &mut Vec<u8>) -> Result<(), Memory>
    ensures { OnOk result (text.new.items ≡ text.old.items ++ cut_lines) }
{
    let yellow = Colour {
        red: 255,
        green: 255,
        blue: 0,
    };
    put_head(text, b"cut", yellow)?;
    put_side(text, &form(1, -1, 0))?;
    put_form(text, b"back", &form(0, 0, 300))
}

#[tactic(auto, unfolding(px_scene::specs::Canonical::written_line))]
fn put_shown(text: &mut Vec<u8>, n: u32) -> Result<(), Memory>
    requires some { 1 ≤ n }
    requires few { n ≤ MAX_BLOCKS }
    ensures { OnOk result (text.new.items ≡ text.old.items
        ++ written_line (codes "show") ((codes "(" ++ union_of 0 n ++ codes " - cut)") ∷ [])) }
{
    put_bytes(text, b"show (")?;
    put_union(text, 0, n)?;
    put_bytes(text, b" - cut)\n")
}

/// The union of the blocks from `first` to before `end`, in as few levels as can be.
#[tactic(auto, using(crate::proofs::SampleLemmas::union_of_one))]
fn put_union(text: &mut Vec<u8>, first: u32, end: u32) -> Result<(), Memory>
    requires some { first < end }
    requires few { end ≤ MAX_BLOCKS }
    ensures { OnOk result (text.new.items ≡ text.old.items ++ union_of first end) }
{
    if end == first + 1 {
        return put_name(text, first);
    }
    let middle = (first + end) / 2;
    laws_of_samples();
    put_bytes(text, b"(")?;
    put_union(text, first, middle)?;
    put_bytes(text, b" + ")?;
    put_union(text, middle, end)?;
    put_bytes(text, b")")
}

#[tactic(auto, unfolding(px_scene::specs::Canonical::written_line))]
fn put_block_line(text: &mut Vec<u8>, i: u32) -> Result<(), Memory>
    requires { i < MAX_BLOCKS }
    ensures { OnOk result (text.new.items ≡ text.old.items ++ block_line i) }
{
    let colour = Colour {
        red: i as u8,
        green: 100,
        blue: 200,
    };
    put_bytes(text, b"solid ")?;
    put_name(text, i)?;
    put_colour(text, colour)?;
    put_bytes(text, b"\n")
}

/// A front or a back in the colour of its solid.
#[tactic(auto, unfolding(px_scene::specs::Canonical::written_line))]
fn put_form(text: &mut Vec<u8>, keyword: &[u8], plane: &Linear) -> Result<(), Memory>
    ensures { OnOk result (text.new.items ≡ text.old.items ++ form_line keyword.now plane.now) }
{
    put_bytes(text, keyword)?;
    put_plane(text, plane)?;
    put_bytes(text, b"\n")
}

fn form(a: i64, b: i64, c: i64) -> Linear
    ensures { result ≡ form a b c }
{
    Linear { a, b, c }
}

fn put_name(text: &mut Vec<u8>, i: u32) -> Result<(), Memory>
    ensures { OnOk result (text.new.items ≡ text.old.items ++ block_name i) }
{
    let mut digits = Buffer::new();
    put_bytes(text, b"b")?;
    put_bytes(text, digits.format(i).as_bytes())
}
