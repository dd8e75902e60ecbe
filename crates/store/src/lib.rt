//! Bounded storage for the rows of a frame. All memory is reserved at opening.

#![tactic(auto)]

mod rows;
mod runs;
mod spans;
mod store;

pub use rows::{Row, Rows};
pub use runs::Runs;
pub use store::{Full, RowInfo, Store};
