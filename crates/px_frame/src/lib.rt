//! From a scene to its images on an array: raw pixel maps.
#![tactic(auto)]

mod drawing;
mod fine_fault;
mod finer;
mod image;
mod keys;
mod law;
mod mean_sums;
mod means;
mod opening;
mod plane;
mod refinement_law;
mod strip;
mod theorem;

pub use drawing::{deliver, deliver_images, draw_job};
pub use fine_fault::FineFault;
pub use finer::fine_scene;
pub use image::{header, three_bytes, write_picture, write_rows};
pub use keys::stored;
pub use law::laws_of_images;
pub use opening::open_job;
pub use plane::{Fineness, Plane, colour_bytes};
pub use refinement_law::laws_of_refinement;
pub use strip::Strip;
pub use theorem::{law_of_pictures, law_of_small_scenes};
