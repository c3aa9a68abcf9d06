//! The steps of a literal's passes. Each is a few operations that begin with "all".
ghost use Rattle.std.specs.Prelude.{◌≡◌, ◌+◌, ◌-◌, ◌*◌, ◌^◌, ◌<◌, ◌≤◌, [], ◌∷◌, ◌++◌, ◌==◌, if◌then◌else◌, true, false, ℕ, List, IfErr, IfOk, IfSome, get_or, length};
ghost use Rattle.px_face.specs.Edges.{edge_count};
ghost use Rattle.px_face.specs.Faces.{face_count, face_plane};
ghost use Rattle.px_macro.specs.declared.operation.Macro.{Macro};
ghost use Rattle.px_macro.specs.declared.operation.Macro.TheVariants as m;
ghost use Rattle.px_model.specs.Cells.{depths_of, end_of};
ghost use Rattle.px_model.specs.Scenes.{SceneView};
ghost use Rattle.px_num.specs.Forms.{IsInHalfRange};
ghost use Rattle.px_sched.specs.declared.literal.Literal.{Literal};
ghost use Rattle.px_sched.specs.declared.step.Step.TheVariants as st;
ghost use Rattle.px_sched.specs.Layouts.{LayoutView};
ghost use Rattle.px_sched.specs.Passes.{candidate, load_candidate, operations, solid_of, where_passed};
ghost use Rattle.px_sched.specs.StepCursors.{opens_literal};
ghost use Rattle.px_sched.specs.Steps.{IsFace, IsStep, IsStepOf, behind_step, candidates_end, candidates_from, confirmed_from, drops_from, fronts_from, first_candidate, judged_from, turns_from};
ghost use Rattle.px_sched.specs.Onward.{AreKnown, BeginIfAny, BeginWith, around_edges, passed_plane};

use crate::layout::Layout;
use crate::literal::Literal;
use px_face::{edge_at, edge_count, face_count, laws_of_edges, number_of, plane_of};
use px_macro::Macro;
use px_model::{Scene, Solid};
use px_num::{Linear, power};

/// A step of the passes of a literal (docs/PASSES.md, "Steps").
///
/// A solid stands by its index in the scene, and another literal by its place among the literals
/// of the product that are of other solids.
#[derive(Clone, Copy)]
pub enum Step {
    /// The background becomes the best.
    Start,
    /// No candidate is alive.
    Open,
    /// A face of the literal's solid becomes the candidate where it covers.
    Candidate(u8, usize),
    /// A back of the literal's plain solid drops the candidate that is not before it.
    Drop(u8, usize),
    /// The fronts of the literal's barred solid are to be counted.
    Clear,
    /// A front of it turns the parity where it is a whole cell before the candidate, or more.
    Front(u8, usize),
    /// The candidate stays alive where a front was.
    Confirm,
    /// Another literal begins to judge: no face was passed.
    Begin(usize),
    /// A face of the other literal's solid turns the parity where it is passed.
    Turn(usize, u8, usize),
    /// The other literal judges, as a plain or a barred one.
    Close(usize, bool),
    /// A live candidate takes the place of the best where it is nearer.
    Merge,
}

impl Step {
    /// How many operations there are.
    pub fn count(self, scene: &Scene) -> usize
        requires { IsStep scene.now self }
        ensures count { (l : LayoutView) → length (operations scene.now l self) ≡ result }
        ensures few { result ≤ 102 }
    {
        match self {
            Step::Start | Step::Open | Step::Clear | Step::Begin(_) => 2,
            Step::Candidate(solid, _) => {
                edge_count(solid_at(scene, solid)) + 4 + usize::from(scene.fraction_bits() != 0)
            }
            Step::Drop(solid, _) => edge_count(solid_at(scene, solid)) + 4,
            Step::Front(solid, _) => edge_count(solid_at(scene, solid)) + 4,
            Step::Turn(_, solid, _) => edge_count(solid_at(scene, solid)) + 4,
            Step::Confirm | Step::Close(_, _) => 3,
            Step::Merge => 4,
        }
    }

    /// Whether it is the first of a literal.
    pub(crate) fn opens_literal(self) -> bool
        ensures { result ≡ opens_literal self }
    {
        matches!(self, Step::Open)
    }

    /// One of the operations.
    // A copy of an operation that was just made waits for its parts to be stored, and a list of them is cleared in
    // each call, whatever the step.
    #[inline(always)]
    pub fn operation(self, scene: &Scene, layout: &Layout, at: usize) -> Macro
        requires step { IsStep scene.now self }
        requires bits { layout.now.fraction_bits ≡ scene.now.fraction_bits }
        requires at { at < length (operations scene.now layout.now self) }
        ensures { result ≡ get_or (operations scene.now layout.now self) at m.All }
    {
        match self {
            Step::Start => behind_all(background(scene, layout), at),
            Step::Open => behind_all(Macro::SetBit(layout.alive, false), at),
            Step::Candidate(solid, face) => candidate(scene, solid, face, layout, at),
            Step::Drop(solid, face) => {
                let set = Macro::SetBit(layout.alive, false);
                where_passed(scene, solid, face, false, layout, set, at)
            }
            Step::Clear | Step::Begin(_) => behind_all(Macro::SetBit(layout.par, false), at),
            Step::Front(solid, face) => {
                let turn = Macro::Toggle(layout.par);
                where_passed(scene, solid, face, true, layout, turn, at)
            }
            Step::Confirm => judged(layout, false, at),
            Step::Turn(_, solid, face) => {
                let turn = Macro::Toggle(layout.par);
                where_passed(scene, solid, face, false, layout, turn, at)
            }
            Step::Close(_, plain) => judged(layout, !plain, at),
            Step::Merge => match at {
                0 => Macro::All,
                1 => Macro::KeepBit(layout.alive, true),
                2 => Macro::KeepLess(layout.key_t, layout.key_b),
                _ => Macro::Copy(layout.key_t, layout.key_b),
            },
        }
    }

    /// The step behind this one where that is of the same solid's next face, which needs no literals to be found.
    pub(crate) fn along(self, scene: &Scene) -> Option<Step>
        requires { IsStep scene.now self }
        ensures { IfSome result (λ step. (q : Literal) (rs : List Literal) → IsStepOf scene.now q rs self →
            BeginWith scene.now q rs (behind_step scene.now q rs self) step) }
    {
        match self {
            Step::Turn(other, solid, face) => {
                if face + 1 < face_count(solid_at(scene, solid)) {
                    Some(Step::Turn(other, solid, face + 1))
                } else {
                    None
                }
            }
            _ => None,
        }
    }

    /// The step behind this one, where `q` is the literal and `rs` are the others.
    pub(crate) fn next(self, scene: &Scene, q: Literal, rs: &[Literal]) -> Option<Step>
        requires step { IsStepOf scene.now q rs.now self }
        requires faces { IsStep scene.now self }
        requires q { q.solid < length scene.now.solids }
        requires rs { AreKnown scene.now rs.now }
        ensures { BeginIfAny scene.now q rs.now (behind_step scene.now q rs.now self) result }
    {
        match self {
            Step::Open => Some(candidate_from(scene, q, rs, first_candidate(scene, q))),
            Step::Candidate(_, face) => Some(candidate_from(scene, q, rs, face + 1)),
            Step::Drop(_, face) => Some(drop_from(scene, q, rs, face + 1)),
            Step::Clear => Some(front_from(scene, q, rs, 0)),
            Step::Front(_, face) => Some(front_from(scene, q, rs, face + 1)),
            Step::Confirm => Some(judge_from(rs, 0)),
            Step::Begin(other) => Some(turn_from(scene, rs, other, 0)),
            Step::Turn(other, _, face) => Some(turn_from(scene, rs, other, face + 1)),
            Step::Close(other, _) => Some(judge_from(rs, other + 1)),
            Step::Start | Step::Merge => None,
        }
    }
}

/// The candidate faces from one on, and the other literals behind them.
fn candidate_from(scene: &Scene, q: Literal, rs: &[Literal], face: usize) -> Step
    requires q { q.solid < length scene.now.solids }
    ensures { BeginWith scene.now q rs.now (candidates_from scene.now q rs.now face) result }
{
    if face < candidates_end(scene, q) {
        Step::Candidate(q.solid, face)
    } else {
        confirm_from(scene, q, rs)
    }
}

/// The steps that confirm a candidate, where there is a fraction, and the other literals behind them.
fn confirm_from(scene: &Scene, q: Literal, rs: &[Literal]) -> Step
    requires q { q.solid < length scene.now.solids }
    ensures { BeginWith scene.now q rs.now (confirmed_from scene.now q rs.now) result }
{
    if scene.fraction_bits() == 0 {
        judge_from(rs, 0)
    } else if q.plain {
        let solid = solid_at(scene, q.solid);
        Step::Drop(q.solid, solid.fronts().len() + 1)
    } else {
        Step::Clear
    }
}

/// The backs that drop a plain solid's candidates, from one on, and the other literals behind them.
fn drop_from(scene: &Scene, q: Literal, rs: &[Literal], face: usize) -> Step
    requires q { q.solid < length scene.now.solids }
    ensures { BeginWith scene.now q rs.now (drops_from scene.now q rs.now face) result }
{
    if face < face_count(solid_at(scene, q.solid)) {
        Step::Drop(q.solid, face)
    } else {
        judge_from(rs, 0)
    }
}

/// The fronts that a barred solid's candidates stand behind, from one on, and what is behind them.
fn front_from(scene: &Scene, q: Literal, rs: &[Literal], face: usize) -> Step
    requires q { q.solid < length scene.now.solids }
    ensures { BeginWith scene.now q rs.now (fronts_from scene.now q rs.now face) result }
{
    if face < solid_at(scene, q.solid).fronts().len() + 1 {
        Step::Front(q.solid, face)
    } else {
        Step::Confirm
    }
}

/// Where the candidate faces of a literal begin.
fn first_candidate(scene: &Scene, q: Literal) -> usize
    requires { q.solid < length scene.now.solids }
    ensures { result ≡ first_candidate (solid_of scene.now q.solid) q.plain }
{
    if q.plain {
        0
    } else {
        solid_at(scene, q.solid).fronts().len() + 1
    }
}

/// Where they end: before the backs of a plain solid, and before the far limit of a barred one.
fn candidates_end(scene: &Scene, q: Literal) -> usize
    requires { q.solid < length scene.now.solids }
    ensures end { result ≡ candidates_end (solid_of scene.now q.solid) q.plain }
    ensures faces { result < face_count (solid_of scene.now q.solid) }
    ensures few { result ≤ 65 }
{
    let solid = solid_at(scene, q.solid);
    let fronts = solid.fronts().len() + 1;
    let backs = solid.backs().len();
    if q.plain { fronts } else { fronts + backs }
}

/// The other literals from one on, and the merge behind them.
fn judge_from(rs: &[Literal], other: usize) -> Step
    ensures { (scene : SceneView) (q : Literal) → BeginWith scene q rs.now (judged_from scene rs.now other) result }
{
    if other < rs.len() {
        Step::Begin(other)
    } else {
        Step::Merge
    }
}

/// The faces of another literal's solid from one on, and its judgement behind them.
fn turn_from(scene: &Scene, rs: &[Literal], other: usize, face: usize) -> Step
    requires other { other < length rs.now }
    requires rs { AreKnown scene.now rs.now }
    ensures { (q : Literal) → BeginWith scene.now q rs.now (turns_from scene.now rs.now other face) result }
{
    let r = rs[other];
    if face < face_count(solid_at(scene, r.solid)) {
        Step::Turn(other, r.solid, face)
    } else {
        Step::Close(other, r.plain)
    }
}

/// The solid of this index.
pub fn solid_at(scene: &Scene, solid: u8) -> &Solid
    requires { solid < length scene.now.solids }
    ensures { result.now ≡ solid_of scene.now solid }
{
    &scene.solids()[usize::from(solid)]
}

/// An operation of a step of two: all pixels, and one more.
fn behind_all(operation: Macro, at: usize) -> Macro
    requires { at < 2 }
    ensures { result ≡ get_or (m.All ∷ operation ∷ []) at m.All }
{
    if at == 0 { Macro::All } else { operation }
}

/// An operation of a step that ends the life of a candidate where the parity is so.
fn judged(layout: &Layout, parity: bool, at: usize) -> Macro
    requires { at < 3 }
    ensures { result ≡ get_or (m.All ∷ m.KeepBit layout.now.par parity
        ∷ m.SetBit layout.now.alive false ∷ []) at m.All }
{
    match at {
        0 => Macro::All,
        1 => Macro::KeepBit(layout.par, parity),
        _ => Macro::SetBit(layout.alive, false),
    }
}

/// An operation of a step that makes a face the candidate where it covers.
fn candidate(scene: &Scene, solid: u8, face: usize, layout: &Layout, at: usize) -> Macro
    requires face { IsFace scene.now solid face }
    requires bits { layout.now.fraction_bits ≡ scene.now.fraction_bits }
    requires at { at < length (candidate layout.now (depths_of scene.now) (solid_of scene.now solid) face) }
    ensures { result ≡
        get_or (candidate layout.now (depths_of scene.now) (solid_of scene.now solid) face) at m.All }
{
    let tail = edge_count(solid_at(scene, solid)) + 1;
    if at == 0 {
        Macro::All
    } else if at < tail {
        edge(scene, solid, face, at - 1)
    } else {
        load(scene, solid, face, layout, at - tail)
    }
}

/// One of the operations of such a step behind those of the edges.
fn load(scene: &Scene, solid: u8, face: usize, layout: &Layout, place: usize) -> Macro
    requires face { IsFace scene.now solid face }
    requires bits { layout.now.fraction_bits ≡ scene.now.fraction_bits }
    requires place { place < length (load_candidate layout.now (depths_of scene.now) (solid_of scene.now solid) face) }
    ensures { result ≡ get_or
        (load_candidate layout.now (depths_of scene.now) (solid_of scene.now solid) face) place m.All }
{
    let clears = usize::from(scene.fraction_bits() != 0);
    if place == 0 {
        let unit = power(scene.fraction_bits()) as u32;
        Macro::LoadLinear(plane_at(scene, solid, face).plus(unit - 1), layout.t_deep())
    } else if place == clears {
        Macro::LoadConst(layout.t_fraction(), 0)
    } else if place == clears + 1 {
        let number = number_of(solid_at(scene, solid), face);
        Macro::LoadConst(layout.t_number(), u64::from(number))
    } else {
        Macro::SetBit(layout.alive, true)
    }
}

/// An operation of a step that does something where a face covers, and its plane, or a whole cell further, is not
/// above the candidate.
#[inline(always)]
fn where_passed(
    scene: &Scene,
    solid: u8,
    face: usize,
    further: bool,
    layout: &Layout,
    operation: Macro,
    at: usize,
) -> Macro
    requires face { IsFace scene.now solid face }
    requires at { at < edge_count (solid_of scene.now solid) + 4 }
    ensures { result ≡ get_or (where_passed layout.now (end_of (depths_of scene.now)) (solid_of scene.now solid) face
        (passed_plane scene.now solid face further) operation) at m.All }
{
    let tail = edge_count(solid_at(scene, solid)) + 2;
    if at == 0 {
        Macro::All
    } else if at == 1 {
        Macro::KeepBit(layout.alive, true)
    } else if at < tail {
        edge(scene, solid, face, at - 2)
    } else if at == tail {
        Macro::KeepAtMost(passed_plane(scene, solid, face, further), layout.t_deep())
    } else {
        operation
    }
}

/// The operation of one of a face's edges, which stands behind any head.
#[inline(always)]
fn edge(scene: &Scene, solid: u8, face: usize, place: usize) -> Macro
    requires face { IsFace scene.now solid face }
    requires place { place < edge_count (solid_of scene.now solid) }
    ensures { (head tail : List Macro) (at : ℕ) → at ≡ length head + place →
        result ≡ get_or (around_edges scene.now solid face head tail) at m.All }
{
    laws_of_edges();
    Macro::KeepSign(edge_at(solid_at(scene, solid), scene.end(), face, place))
}

/// The plane of a face, or a whole cell further.
fn passed_plane(scene: &Scene, solid: u8, face: usize, further: bool) -> Linear
    requires { IsFace scene.now solid face }
    ensures { result ≡ passed_plane scene.now solid face further }
{
    let plane = plane_at(scene, solid, face);
    if further {
        plane.plus(power(scene.fraction_bits()) as u32)
    } else {
        plane
    }
}

/// The plane of a face.
fn plane_at(scene: &Scene, solid: u8, face: usize) -> Linear
    requires { IsFace scene.now solid face }
    ensures plane { result ≡ face_plane (solid_of scene.now solid) (end_of (depths_of scene.now)) face }
    ensures half { IsInHalfRange result }
{
    plane_of(solid_at(scene, solid), scene.end(), face)
}

/// The key of the background.
fn background(scene: &Scene, layout: &Layout) -> Macro
    ensures { result ≡
        m.LoadConst layout.now.key_b (end_of (depths_of scene.now) * 2 ^ layout.now.number_bits) }
{
    let number = u64::from(scene.end()) * power(layout.number_bits) as u64;
    Macro::LoadConst(layout.key_b, number)
}
