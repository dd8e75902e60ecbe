// A frame: texts written one after another, as rows of runs.

#![tactic(auto)]

mod draft;
mod error;
mod examples;
mod mark;
mod rewrap;
mod state;
mod tally;

pub use error::FrameError;
pub use examples::worked_examples;
pub use state::FrameState;
pub use store::{Row, RowInfo, Rows, Runs};
