// A renderer: frames are written, and drawn over one another on a terminal.

#![tactic(auto)]

mod calls;
mod frames;
mod states;

pub use states::{Drawing, Lost, Receipt, Resting};
