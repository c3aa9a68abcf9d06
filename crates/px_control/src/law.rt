//! What holds of the program of every scene, and what it leaves in an array.
ghost use Rattle.std.specs.Prelude.{◌≤◌};
ghost use Rattle.px_macro.specs.Macros.{IsLawfulInMore};
ghost use Rattle.px_sched.specs.Layouts.{layout_of, need_of};
ghost use Rattle.px_control.specs.declared.law.TheConstants.{MAX_LAYOUT_BITS};
ghost use Rattle.px_control.specs.GridLaw.{GridLaw, LeastGridLaw, SizeLaw};
ghost use Rattle.px_control.specs.PictureLaw.{PictureLaw};
ghost use Rattle.px_control.specs.Program.{CanRun};
ghost use Rattle.px_control.specs.ProgramLaws.{IsGoodProgram};

use px_model::{Scene, laws_of_scenes};

/// No scene's passes need more bits of memory in a pixel.
pub const MAX_LAYOUT_BITS: usize = 74;

/// The keys that an array stores after the whole program of a scene are the picture.
pub fn law_of_pictures()
    ensures { PictureLaw }
{}

/// An array on which a scene's broadcasts are made is open, and has a pixel for each one of the
/// picture; its grid is the one that `Scene::grid` gives.
#[tactic(auto, using(px_model::proofs::GridLaws::exponent_is))]
pub fn law_of_grids()
    ensures covers { GridLaw }
    ensures least { LeastGridLaw }
{}

/// The grid of such an array is one that an array can have, and its pixels have all their memory.
pub fn law_of_sizes()
    ensures { SizeLaw }
{}

/// No scene needs more than these bits.
#[tactic(auto, using(px_sched::proofs::LayoutLaws::scene_layout))]
pub(crate) fn law_of_needs(scene: &Scene)
    ensures { need_of (layout_of scene.now) ≤ MAX_LAYOUT_BITS }
{
    laws_of_scenes(scene);
}

/// What holds of the program of a scene that can be run.
pub(crate) fn law_of_program(scene: &Scene)
    requires { CanRun scene.now }
    ensures good { IsGoodProgram scene.now }
    ensures more { IsLawfulInMore }
{}
