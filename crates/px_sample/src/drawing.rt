//! The command `sample`: the scene of so many blocks is drawn, and four numbers of it are printed.
ghost use Rattle.std.specs.Prelude.{◌≡◌, ◌+◌, ◌*◌, ◌^◌, ◌<◌, ◌≤◌, OnErr, OnOk, length, true};
ghost use Rattle.std.specs.Io.KnownBytes.{Appends};
ghost use Rattle.px_io.specs.Counts.{HasCause};
ghost use Rattle.px_io.specs.Reports.{TakesFront, Tells};
ghost use Rattle.px_array.specs.Slots.{IsRunOnce};
ghost use Rattle.px_prune.specs.Kept.{plan_of};
ghost use Rattle.px_sched.specs.Layouts.{layout_of};
ghost use Rattle.px_scene.specs.Reading.{scene_of};
ghost use Rattle.px_sample.specs.Sample.{sample_text};
ghost use Rattle.px_scene.specs.Text.{worded};
ghost use Rattle.px_control.specs.Program.{IsAt};
ghost use Rattle.px_frame.specs.Drawn.{IsDrawn};
ghost use Rattle.px_commands.specs.Arrays.{Draws};
ghost use Rattle.px_sample.specs.Countings.{IsShownAtMost, none_shown, shown_at, shown_within, shown_in_row, shown_together};
ghost use Rattle.px_sample.specs.Samples.{measures_answer, measures, sample_scene, sampled, text_measured, where_shown};
ghost use Rattle.px_commands.specs.Results.{status_in};
ghost use Rattle.px_commands.specs.Stops.{DoesWork};

use crate::sample::sample_text;
use px_array::Array;
use px_asm::Operating;
use px_commands::{Stop, four_lines, open_job, scene_in, write_finished};
use px_control::Job;
use px_frame::{draw_job, stored};
use px_io::{Failed, Sink};
use px_model::MAX_PICTURE_SIZE;
use px_scene::{MAX_BLOCKS, Scene, laws_of_scenes};
use px_sched::Layout;
use std::alloc::Global;

/// The pixels of a picture that show a face.
#[derive(Clone, Copy)]
struct Shown {
    /// How many they are.
    pixels: u64,
    /// The sum of their depths.
    depths: u64,
}

/// Draws the sample of so many blocks, and prints its numbers.
#[tactic(auto, using(crate::proofs::DrawingLemmas::sample_serves, crate::proofs::DrawingLemmas::sample_draws))]
pub fn draw_sample<O: Sink, A: Operating>(
    n: u32,
    alloc: Global,
    out: &mut O,
    array: &mut A,
) -> Result<(), Stop>
    requires some { 1 ≤ n }
    requires few { n ≤ MAX_BLOCKS }
    requires bits { A.BITS ≤ 256 }
    ensures serves { DoesWork result (sampled n A.BITS)
        (O.state out.old) (O.state out.new) }
    ensures array { Draws (status_in result) A.BITS (sample_scene n) (A.view array.old)
        (A.view array.new) }
{
    let text = match sample_text(alloc, n) {
        Ok(text) => text,
        Err(lack) => return Err(Stop::Memory(lack)),
    };
    measure_text(alloc, text.as_slice(), out, array)
}

/// Draws the scene of a text, and prints its numbers.
#[tactic(auto, using(std::proofs::lemmas::Result::err_from_is_err_and, px_commands::proofs::StopLaws::stop_serves, px_commands::proofs::StopLaws::stop_leaves, crate::proofs::DrawingLemmas::scene_serves))]
fn measure_text<O: Sink, A: Operating>(
    alloc: Global,
    text: &[u8],
    out: &mut O,
    array: &mut A,
) -> Result<(), Stop>
    requires bits { A.BITS ≤ 256 }
    ensures serves { DoesWork result (text_measured text.now A.BITS)
        (O.state out.old) (O.state out.new) }
    ensures array { Draws (status_in result) A.BITS (scene_of (worded text.now)) (A.view array.old)
        (A.view array.new) }
{
    let scene = scene_in(alloc, text)?;
    measure(alloc, &scene, out, array)
}

/// Draws a scene, and prints its numbers.
#[tactic(auto, using(px_commands::proofs::RunLaws::serves_front, px_commands::proofs::RunLaws::serves_whole))]
fn measure<O: Sink, A: Operating>(
    alloc: Global,
    scene: &Scene,
    out: &mut O,
    array: &mut A,
) -> Result<(), Stop>
    requires bits { A.BITS ≤ 256 }
    ensures serves { DoesWork result (measures_answer scene.now A.BITS)
        (O.state out.old) (O.state out.new) }
    ensures array { Draws (status_in result) A.BITS scene.now (A.view array.old)
        (A.view array.new) }
{
    let mut job = open_job(alloc, scene, array)?;
    let products = job.total_products() as u64;
    Ok(deliver_measures(&mut job, scene, array, products, out)?)
}

/// Makes the clocks of an opened job, writes the numbers of the scene, and finishes. Takes no memory.
fn deliver_measures<A: Operating, O: Sink>(
    job: &mut Job<'_>,
    scene: &Scene,
    array: &mut A,
    products: u64,
    out: &mut O,
) -> Result<(), Failed>
    requires scene { scene.now ≡ job.old.scene }
    requires at { IsAt A.BITS scene.now job.old.place.clock (A.view array.old).device }
    requires products { products ≡ length (plan_of scene.now) }
    ensures ok { OnOk result (Appends (O.state out.old).written (O.state out.new).written
        (measures scene.now)) }
    ensures end { OnOk result (Tells (O.state out.new).finished true) }
    ensures err { OnErr result (TakesFront (O.state out.old) (O.state out.new) (measures scene.now)) }
    ensures cause { HasCause (O.state out.old).faults (O.state out.new).faults result }
    ensures drawn { IsDrawn A.BITS scene.now (A.view array.new).device }
    ensures once { IsRunOnce (A.view array.old) → IsRunOnce (A.view array.new) }
{
    let layout = draw_job(job, scene, array);
    let shown = count_shown(array, &layout, scene);
    let text = four_lines(shown.pixels, shown.depths, products, job.total_clocks());
    write_finished(text.as_bytes(), out)
}

/// The pixels of a drawn array that show a face.
#[tactic(auto, using(crate::proofs::DrawingLemmas::most_grows, crate::proofs::DrawingLemmas::rows_more, crate::proofs::DrawingLemmas::most_together))]
fn count_shown<A: Array>(array: &A, layout: &Layout, scene: &Scene) -> Shown
    requires layout { layout.now ≡ layout_of scene.now }
    requires drawn { IsDrawn A.BITS scene.now (A.view array.now).device }
    ensures { result ≡ shown_within scene.now scene.now.width scene.now.height }
{
    laws_of_scenes(scene);
    let mut shown = Shown::none();
    for y in 0..scene.height() {
        shown = shown.plus(shown_in_row(array, layout, scene, y));
    }
    shown
}

/// Those of row `y`.
#[tactic(auto, using(crate::proofs::DrawingLemmas::most_grows, crate::proofs::DrawingLemmas::row_more, crate::proofs::DrawingLemmas::most_together))]
fn shown_in_row<A: Array>(array: &A, layout: &Layout, scene: &Scene, y: u32) -> Shown
    requires layout { layout.now ≡ layout_of scene.now }
    requires drawn { IsDrawn A.BITS scene.now (A.view array.now).device }
    requires y { y < scene.now.height }
    ensures shown { result ≡ shown_in_row scene.now scene.now.width y }
    ensures most { IsShownAtMost (MAX_PICTURE_SIZE * 2 ^ 24) result }
{
    laws_of_scenes(scene);
    let mut shown = Shown::none();
    for x in 0..scene.width() {
        shown = shown.plus(shown_at(array, layout, scene, x, y));
    }
    shown
}

/// The pixel (x, y) alone.
fn shown_at<A: Array>(array: &A, layout: &Layout, scene: &Scene, x: u32, y: u32) -> Shown
    requires layout { layout.now ≡ layout_of scene.now }
    requires drawn { IsDrawn A.BITS scene.now (A.view array.now).device }
    requires x { x < scene.now.width }
    requires y { y < scene.now.height }
    ensures shown { result ≡ shown_at scene.now x y }
    ensures most { IsShownAtMost (2 ^ 24) result }
{
    laws_of_scenes(scene);
    let (depth, face) = stored(array, layout, x, y);
    Shown::of(depth, face)
}

impl Shown {
    fn none() -> Shown
        ensures { result ≡ none_shown }
    {
        Shown {
            pixels: 0,
            depths: 0,
        }
    }

    /// Of a pixel with this depth, where its face is not 0.
    fn of(depth: u32, face: u32) -> Shown
        requires { depth < 2 ^ 24 }
        ensures pixels { result.pixels ≡ where_shown face 1 }
        ensures depths { result.depths ≡ where_shown face depth }
        ensures most { IsShownAtMost (2 ^ 24) result }
    {
        if face == 0 {
            Shown::none()
        } else {
            Shown {
                pixels: 1,
                depths: u64::from(depth),
            }
        }
    }

    fn plus(&self, more: Shown) -> Shown
        requires first { IsShownAtMost (2 ^ 62) self.now }
        requires second { IsShownAtMost (2 ^ 62) more }
        ensures { result ≡ shown_together self.now more }
    {
        Shown {
            pixels: self.pixels + more.pixels,
            depths: self.depths + more.depths,
        }
    }
}
