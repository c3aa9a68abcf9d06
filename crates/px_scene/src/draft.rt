//! What the lines of a scene text have said so far.
ghost use Rattle.std.specs.Prelude.{◌≡◌, ◌<◌, ◌≤◌, ◌+◌, ◌++◌, ◌∷◌, [], length, None, Some, IfSome, vec_len, ◌-◌, OnOk, OnErr, IsErrOf, true, is_some};
ghost use Rattle.std.specs.Str.{bytes_eq};
ghost use Rattle.std.specs.List.{list_any};
ghost use Rattle.px_text.specs.LentWords.{now_of};
ghost use Rattle.px_scene.specs.Reading.{is_nothing};
ghost use Rattle.px_show.specs.Expressions.{is_among, show_fault, show_tree};
ghost use Rattle.px_scene.specs.Lines.{depth, picture, size_of};
ghost use Rattle.px_scene.specs.Lines.{is_due, limit_of, face_past, plane_past, colour_past, picture_past, depth_past};
ghost use Rattle.px_scene.specs.Parsed.{keyword_in, name_in, stated, second_name, fault_left, fault_shown};
ghost use Rattle.px_model.specs.declared.limits.TheConstants.{MAX_FACES, MAX_PLANES_OF_A_KIND};
ghost use Rattle.px_model.specs.Scenes.{names_of};
ghost use Rattle.px_scene.specs.Drafts.{colour_of, fresh_solid, with_form, taken, with_last, in_last, with_front, with_back, with_side, tally_of, fault_in, drawn};
ghost use Rattle.px_scene.specs.LawfulDrafts.{CanTakeFace, CanBeTaken, IsLawfulDraft};
ghost use Rattle.px_scene.specs.declared.line.Due.TheVariants as Due;
ghost use Rattle.px_show.specs.declared.scene_version.Version.TheVariants as Version;
ghost use Rattle.px_show.specs.declared.fault.LimitKind.{LimitKind};
ghost use Rattle.px_show.specs.declared.fault.LineFault.{LineFault};

use crate::figure::{colour_of, face_of};
use crate::limit::limit_of;
use crate::line::{Due, Paint, Plane, Tally};
use crate::parse::Statement;
use arrayvec::ArrayVec;
use px_expr::Expr;
use px_model::{Scene, Solid};
use px_num::{Linear, Memory};
use px_show::{Cause, LimitKind, LineError, LineFault, Version, read_show};
use std::alloc::Global;

/// What the lines so far have said.
#[derive(Drop)]
pub(crate) struct Draft {
    version: Version,
    due: Due,
    numbered: u32,
    width: u32,
    height: u32,
    depth_bits: u32,
    fraction_bits: u32,
    solids: Vec<Solid>,
    show: Option<Expr>,
}

impl Draft {
    ghost use Rattle.px_scene.specs.DraftViews.{view_of};

    /// What stands before the first line.
    pub(crate) fn new(alloc: Global) -> Draft
        ensures { view_of result ≡ record {
          version = Version.One;
          due = Due.Header;
          numbered = 0;
          width = 1;
          height = 1;
          depth_bits = 1;
          fraction_bits = 0;
          solids = [];
          show = None;
        } }
    {
        Draft {
            version: Version::One,
            due: Due::Header,
            numbered: 0,
            width: 1,
            height: 1,
            depth_bits: 1,
            fraction_bits: 0,
            solids: Vec::new(alloc),
            show: None,
        }
    }

    fn tally(&self) -> Tally
        requires { IsLawfulDraft (view_of self.now) }
        ensures value { result ≡ tally_of (view_of self.now) }
        ensures few { (result.fronts ≤ MAX_PLANES_OF_A_KIND)
            × (result.backs ≤ MAX_PLANES_OF_A_KIND) × (result.sides ≤ MAX_PLANES_OF_A_KIND) }
    {
        match self.solids.last() {
            Some(last) => Tally {
                solids: self.solids.len() as u32,
                numbered: self.numbered,
                fronts: last.fronts().len() as u32,
                backs: last.backs().len() as u32,
                sides: last.sides().len() as u32,
            },
            None => Tally {
                solids: 0,
                numbered: self.numbered,
                fronts: 0,
                backs: 0,
                sides: 0,
            },
        }
    }

    /// Takes the words of a line in; one without words says nothing.
    pub(crate) fn add_words(
        &mut self,
        alloc: Global,
        words: &[&[u8]],
    ) -> Result<(), LineError<LimitKind>>
        requires { IsLawfulDraft (view_of self.old) }
        ensures bad { (f : LineFault LimitKind) → IsErrOf result (LineError.Bad f) →
            fault_in (view_of self.old) (now_of words.now) ≡ Some f }
        ensures good { OnOk result (fault_in (view_of self.old) (now_of words.now) ≡ None) }
        ensures taken { OnOk result (view_of self.new ≡ taken (view_of self.old)
            (now_of words.now)) }
        ensures lawful { OnOk result (IsLawfulDraft (view_of self.new)) }
    {
        match words {
            [] => Ok(()),
            [word, arguments @ ..] => self.add(alloc, word, arguments),
        }
    }

    /// The scene, where the last line is the end.
    pub(crate) fn into_scene(self) -> Option<Scene>
        requires { IsLawfulDraft (view_of self) }
        ensures ended { is_some result ≡ is_nothing self.due }
        ensures scene { IfSome result (λ s. s ≡ drawn (view_of self)) }
    {
        let Draft {
            version: _,
            due,
            numbered: _,
            width,
            height,
            depth_bits,
            fraction_bits,
            solids,
            show,
        } = self;
        if due != Due::Nothing {
            return None;
        }
        match show {
            Some(show) => Some(Scene::new(width, height, depth_bits, fraction_bits, solids, show)),
            None => None,
        }
    }

    /// Takes a line in, by its first word and the words after it.
    fn add(
        &mut self,
        alloc: Global,
        word: &[u8],
        arguments: &[&[u8]],
    ) -> Result<(), LineError<LimitKind>>
        requires { IsLawfulDraft (view_of self.old) }
        ensures bad { (f : LineFault LimitKind) → IsErrOf result (LineError.Bad f) →
            fault_in (view_of self.old) (word.now ∷ now_of arguments.now) ≡ Some f }
        ensures good { OnOk result
            (fault_in (view_of self.old) (word.now ∷ now_of arguments.now) ≡ None) }
        ensures taken { OnOk result (view_of self.new ≡ taken (view_of self.old) (word.now ∷ now_of
            arguments.now)) }
        ensures lawful { OnOk result (IsLawfulDraft (view_of self.new)) }
    {
        let statement = Statement::parse(self.version, self.due, word, arguments)?;
        if let Some(fault) = self.fault(statement) {
            return Err(LineError::Bad(fault));
        }
        self.take(alloc, statement)?;
        self.due = statement.due_after();
        Ok(())
    }

    /// Why the line of a statement is bad, but for its expression.
    fn fault(&self, statement: Statement) -> Option<LineFault<LimitKind>>
        requires { IsLawfulDraft (view_of self.now) }
        ensures { result ≡ fault_left (view_of self.now) (stated statement.entry) }
    {
        match second_name(self.solids.as_slice(), statement) {
            Some(cause) => Some(LineFault::Malformed(cause)),
            None => limit_of(statement, self.tally()),
        }
    }

    /// Takes a statement in; an expression is judged as it is read.
    #[tactic(auto, using(crate::proofs::TakenLemmas::face_room, crate::proofs::LawfulLemmas::can_be_taken))]
    fn take(&mut self, alloc: Global, statement: Statement) -> Result<(), LineError<LimitKind>>
        requires lawful { IsLawfulDraft (view_of self.old) }
        requires due { is_due self.old.due (keyword_in statement) ≡ true }
        requires name { length (name_in statement) ≤ 32 }
        requires limit { limit_of (tally_of (view_of self.old)) (stated statement) ≡ None }
        ensures bad { (f : LineFault LimitKind) → IsErrOf result (LineError.Bad f) →
            fault_shown (view_of self.old) (stated statement.entry) ≡ Some f }
        ensures good { OnOk result (fault_shown (view_of self.old) (stated statement.entry) ≡ None) }
        ensures taken { OnOk result (view_of self.new ≡ with_form (view_of self.old)
            (stated statement.entry)) }
    {
        match statement {
            Statement::Header(version) => self.version = version,
            Statement::Picture { width, height } => self.take_picture(width, height),
            Statement::Depth { bits, fraction } => self.take_depth(bits, fraction),
            Statement::Solid { name, paint } => self.take_solid(alloc, name, paint)?,
            Statement::Front(face) => self.take_front(face)?,
            Statement::Back(face) => self.take_back(face)?,
            Statement::Side(form) => self.take_side(form)?,
            Statement::Show(words) => self.take_show(alloc, words)?,
            Statement::End => {}
        }
        Ok(())
    }

    fn take_picture(&mut self, width: i64, height: i64)
        requires { picture_past width height ≡ None }
        ensures { view_of self.new ≡ with_form (view_of self.old) (picture width height) }
    {
        self.width = width as u32;
        self.height = height as u32;
    }

    fn take_depth(&mut self, bits: i64, fraction: Option<i64>)
        requires { depth_past bits fraction ≡ None }
        ensures { view_of self.new ≡ with_form (view_of self.old) (depth bits fraction) }
    {
        self.depth_bits = bits as u32;
        self.fraction_bits = match fraction {
            Some(fraction) => fraction as u32,
            None => 0,
        };
    }

    fn take_show(&mut self, alloc: Global, words: &[&[u8]]) -> Result<(), LineError<LimitKind>>
        requires { IsLawfulDraft (view_of self.old) }
        ensures bad { (f : LineFault LimitKind) → IsErrOf result (LineError.Bad f) →
            show_fault self.old.version (names_of self.old.solids.items) (now_of words.now)
            ≡ Some f }
        ensures good { OnOk result (show_fault self.old.version (names_of self.old.solids.items)
            (now_of words.now) ≡ None) }
        ensures taken { OnOk result (view_of self.new ≡ record (view_of self.old) {
          show = show_tree self.old.version (names_of self.old.solids.items) (now_of words.now);
        }) }
    {
        let show = read_show(alloc, self.version, self.solids.as_slice(), words)?;
        self.show = Some(show);
        Ok(())
    }

    fn take_solid(&mut self, alloc: Global, name: &[u8], paint: Paint) -> Result<(), Memory>
        requires name { length name.now ≤ 32 }
        requires limit { colour_past paint ≡ None }
        requires faces { self.old.numbered < MAX_FACES }
        ensures ok { OnOk result (view_of self.new ≡ record (view_of self.old) {
          numbered = self.old.numbered + 1;
          solids = self.old.solids.items ++ fresh_solid name.now (self.old.numbered + 1)
              (colour_of paint) ∷ [];
        }) }
    {
        let number = self.numbered + 1;
        self.solids
            .push(Solid::new(alloc, name_of(name), colour_of(paint), number))?;
        self.numbered = number;
        Ok(())
    }

    #[tactic(auto, using(crate::proofs::DraftLemmas::last_set))]
    fn take_front(&mut self, face: Plane) -> Result<(), Memory>
        requires begun { 0 < vec_len self.old.solids }
        requires limit { face_past face ≡ None }
        requires faces { self.old.numbered < MAX_FACES }
        requires room { in_last (λ s. length s.fronts) self.old.solids.items < MAX_PLANES_OF_A_KIND }
        requires next { CanBeTaken self.old.numbered self.old.solids.items }
        ensures ok { OnOk result (view_of self.new ≡ record (view_of self.old) {
          numbered =
              self.old.numbered + 1;
          solids = with_last (with_front (self.old.numbered + 1)
              face) self.old.solids.items;
        }) }
    {
        let number = self.numbered + 1;
        let last = self.solids.len() - 1;
        let solid = &mut self.solids[last];
        push_front(solid, number, face)?;
        self.numbered = number;
        Ok(())
    }

    #[tactic(auto, using(crate::proofs::DraftLemmas::last_set))]
    fn take_back(&mut self, face: Plane) -> Result<(), Memory>
        requires begun { 0 < vec_len self.old.solids }
        requires limit { face_past face ≡ None }
        requires faces { self.old.numbered < MAX_FACES }
        requires room { in_last (λ s. length s.backs) self.old.solids.items < MAX_PLANES_OF_A_KIND }
        requires next { CanBeTaken self.old.numbered self.old.solids.items }
        ensures ok { OnOk result (view_of self.new ≡ record (view_of self.old) {
          numbered =
              self.old.numbered + 1;
          solids = with_last (with_back (self.old.numbered + 1)
              face) self.old.solids.items;
        }) }
    {
        let number = self.numbered + 1;
        let last = self.solids.len() - 1;
        let solid = &mut self.solids[last];
        push_back(solid, number, face)?;
        self.numbered = number;
        Ok(())
    }

    #[tactic(auto, using(crate::proofs::DraftLemmas::last_set))]
    fn take_side(&mut self, form: Linear) -> Result<(), Memory>
        requires begun { 0 < vec_len self.old.solids }
        requires limit { plane_past form ≡ None }
        requires room { in_last (λ s. length s.sides) self.old.solids.items < MAX_PLANES_OF_A_KIND }
        ensures ok { OnOk result (view_of self.new ≡ record (view_of self.old) {
          solids = with_last
              (with_side form) self.old.solids.items;
        }) }
    {
        let last = self.solids.len() - 1;
        self.solids[last].push_side(form)?;
        Ok(())
    }
}

/// A solid of the same name that stands already.
fn second_name(solids: &[Solid], statement: Statement) -> Option<Cause>
    ensures { result ≡ second_name (names_of solids.now) (stated statement.entry) }
{
    match statement {
        Statement::Solid { name, paint: _ } => {
            if is_among(solids, name) {
                Some(Cause::SecondName)
            } else {
                None
            }
        }
        _ => None,
    }
}

#[tactic(auto, using(crate::proofs::LineLemmas::any_of_mapped))]
fn is_among(solids: &[Solid], name: &[u8]) -> bool
    ensures { result ≡ is_among (names_of solids.now) name.now }
{
    is_any_named(solids, name)
}

fn is_any_named(solids: &[Solid], name: &[u8]) -> bool
    ensures { result ≡ list_any (λ s. bytes_eq s.name name.now) solids.now }
{
    solids.iter().any(|solid| is_named(solid, name))
}

fn is_named(solid: &Solid, name: &[u8]) -> bool
    ensures { result ≡ bytes_eq solid.now.name name.now }
{
    solid.name() == name
}

/// A name's bytes, of which there are at most 32.
fn name_of(word: &[u8]) -> ArrayVec<u8, 32>
    requires { length word.now ≤ 32 }
    ensures { result.items ≡ word.now }
{
    let mut name = ArrayVec::new();
    for byte in word {
        name.push(*byte);
    }
    name
}

/// Adds the front of a line to its solid.
fn push_front(solid: &mut Solid, number: u32, face: Plane) -> Result<(), Memory>
    requires limit { face_past face ≡ None }
    requires room { length solid.old.fronts < MAX_PLANES_OF_A_KIND }
    requires next { CanTakeFace number solid.old }
    ensures ok { OnOk result (solid.new ≡ with_front number face solid.old) }
    ensures err { OnErr result (solid.new ≡ solid.old) }
{
    solid.push_front(face_of(solid.colour(), number, face))
}

/// Adds the back of a line to its solid.
fn push_back(solid: &mut Solid, number: u32, face: Plane) -> Result<(), Memory>
    requires limit { face_past face ≡ None }
    requires room { length solid.old.backs < MAX_PLANES_OF_A_KIND }
    requires next { CanTakeFace number solid.old }
    ensures ok { OnOk result (solid.new ≡ with_back number face solid.old) }
    ensures err { OnErr result (solid.new ≡ solid.old) }
{
    solid.push_back(face_of(solid.colour(), number, face))
}
