//! Shadows: by which of up to eight lights each pixel of a picture is lit, and the command `shadow`.
#![tactic(auto)]

mod carrying;
mod law;
mod light;
mod masks;
mod passes;
mod shadow;

pub use law::laws_of_shadows;
pub use light::{LightFault, read_lights};
pub use masks::write_masks;
pub use passes::{MAX_LIGHTS, need, shade};
pub use shadow::shadow_input;
