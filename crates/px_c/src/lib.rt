//! Scenes, pictures, colours, products and states for programs in C, and in what calls C (include/pxplanes.h).
#![tactic(auto)]

mod answer;
mod check;
mod clocks;
mod colour;
mod course;
mod ends;
mod face;
mod found;
mod keys;
mod micros;
mod names;
mod numbered;
mod products;
mod render;
mod room;
mod run;
mod state;
mod status;
mod window;

pub use check::pxplanes_check;
pub use clocks::pxplanes_clocks;
pub use colour::pxplanes_colour;
pub use course::pxplanes_course;
pub use face::pxplanes_face;
pub use found::Found;
pub use micros::pxplanes_micros;
pub use names::{pxplanes_cause_name, pxplanes_kind_name, pxplanes_version};
pub use numbered::{BACK, FRONT, NEAR, NumberedFace};
pub use products::pxplanes_products;
pub use render::pxplanes_render;
pub use run::pxplanes_run;
pub use state::{State, pxplanes_state};
pub use window::pxplanes_window;
