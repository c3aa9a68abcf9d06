//! Where solids and scenes begin and end along a ray, and where a picture has its background.
ghost use Rattle.px_face.specs.Seen.{PicturesShowFirstCells};
ghost use Rattle.px_face.specs.Surfaces.{
  FirstCellsAreFirst,
  NoMemberBehind,
  PicturesShowBackground,
  PicturesShowFaces,
  ScenesHaveSurfaces,
  SolidsHaveSurfaces,
};

/// Where a solid or a scene begins along a ray it shows a face, and just after its end, before the
/// far limit, it hides one (docs/PICTURE.md, "What a pixel shows"). A pixel shows face 0, and the
/// far limit's depth, exactly where no cell of it is a member; otherwise its first cell that is one, and the
/// lowest-numbered face shown there.
#[tactic(auto, using(crate::proofs::SurfaceLemmas::scene_surface, crate::proofs::SurfaceLemmas::solid_surface, crate::proofs::SurfaceLemmas::none_behind, px_expr::proofs::CellsLemmas::member_of_cell, crate::proofs::BackgroundLemmas::first_cells, crate::proofs::BackgroundLemmas::shows_faces))]
pub fn laws_of_surfaces()
    ensures solids { SolidsHaveSurfaces }
    ensures scenes { ScenesHaveSurfaces }
    ensures past { NoMemberBehind }
    ensures first { FirstCellsAreFirst }
    ensures faces { PicturesShowFaces }
    ensures background { PicturesShowBackground }
    ensures seen { PicturesShowFirstCells }
{}
