//! Reading a scene from its text.
ghost use Rattle.std.specs.Prelude.{◌≡◌, ◌⊎◌, IfErr, IfOk, None, Some};
ghost use Rattle.px_num.specs.Want.{want};
ghost use Rattle.px_scene.specs.AcceptedLaw.{AcceptedIsLawful};
ghost use Rattle.px_scene.specs.Reading.{refusal_of, scene_of};
ghost use Rattle.px_show.specs.declared.fault.TextFault.TheVariants as TextFault;
ghost use Rattle.px_text.specs.Text.{worded};

use crate::draft::Draft;
use px_model::Scene;
use px_show::{Drafting, LimitKind, LineError, SceneFault, read_text};
use px_text::{Line, MAX_TEXT_BYTES};
use std::alloc::Global;

/// Reads a scene (docs/SCENES.md).
///
/// `Malformed` and `Limit` come exactly as docs/SCENES.md says, for the first bad line.
pub fn read_scene(alloc: Global, text: &[u8]) -> Result<Scene, SceneFault>
    ensures ok { IfOk result (λ s. (refusal_of text.now ≡ None) × (s ≡ scene_of (worded text.now))) }
    ensures err { IfErr result (λ f. (f ≡ TextFault.Memory want) ⊎ (refusal_of text.now ≡ Some f)) }
{
    if text.len() > MAX_TEXT_BYTES {
        return Err(SceneFault::Limit {
            line: 0,
            kind: LimitKind::Text,
            found: MAX_TEXT_BYTES as i64 + 1,
        });
    }
    read_text(alloc, text, Draft::new(alloc))
}

impl Drafting for Draft {
    ghost use Rattle.px_scene.specs.DraftViews.{IsDraftOf, view_of};
    ghost use Rattle.px_scene.specs.Drafts.{draft_of};
    ghost use Rattle.px_scene.specs.Reading.{fault_behind, is_nothing, scene_of};

    type Kind = LimitKind;

    type Whole = Scene;

    ghost judge = { λ draft. fault_behind };

    ghost says = { λ draft lines. IsDraftOf (view_of draft) lines };

    ghost is_whole = { λ lines. is_nothing (draft_of lines).due };

    ghost means = { scene_of };

    fn add_line(&mut self, alloc: Global, line: &Line<'_>) -> Result<(), LineError<LimitKind>> {
        self.add_words(alloc, line.words.as_slice())
    }

    fn finish(self) -> Option<Scene> {
        self.into_scene()
    }
}

/// What holds of the scene of every text that is accepted: it is within the limits of scenes, and so
/// are its solids, as of every `Scene`.
#[tactic(auto, using(crate::proofs::AcceptedLemmas::accepted_lawful))]
pub fn laws_of_texts()
    ensures accepted { AcceptedIsLawful }
{}
