//! Laws of cells.
ghost use Rattle.std.specs.Prelude.{◌≡◌, ◌<◌, ℕ};
ghost use Rattle.px_expr.specs.Tree.{Tree, HasLeavesBelow};
ghost use Rattle.px_expr.specs.Cells.{Cell, cell, is_member, HasSurface};

/// Where an expression begins along a ray it shows a face, and just after its end it hides one,
/// wherever that stands of each of its solids.
#[tactic(auto, using(crate::proofs::CellsLemmas::has_surface))]
pub fn surface_law()
    ensures { (before : ℕ → Cell) (now : ℕ → Cell) (count : ℕ) →
        ((solid : ℕ) → solid < count → HasSurface (before solid) (now solid)) →
        (tree : Tree) → HasLeavesBelow count tree → HasSurface (cell before tree) (cell now tree) }
{}

/// A cell is a member of an expression by the solids that have it as a member.
#[tactic(auto, using(crate::proofs::CellsLemmas::member_of_cell))]
pub fn member_law()
    ensures { (solid_at : ℕ → Cell) (tree : Tree) →
        (cell solid_at tree).member ≡ is_member (λ solid. (solid_at solid).member) tree }
{}
