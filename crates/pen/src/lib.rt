// Colour sequences, the pen that they steer, and the texts that a frame takes.

#![tactic(auto)]

mod check;
mod pen;
mod sequence;

pub use check::check_text;
pub use pen::steer;
pub use sequence::{BRACKET, ESC, colour_parameters};
