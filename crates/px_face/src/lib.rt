//! The faces of a solid, and which of them covers a pixel.
#![tactic(auto)]

mod cover;
mod edge;
mod face;
mod surface;

pub use cover::{covered, laws_of_covering, laws_without_fraction};
pub use edge::{edge_at, edge_count, edges, laws_of_edges};
pub use face::{face_count, is_front, number_of, plane_of};
pub use surface::laws_of_surfaces;
