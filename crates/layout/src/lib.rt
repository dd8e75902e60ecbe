// How texts become rows. The definitions are in specs/; each function decides one step, and its contract names a
// theorem on them.

#![tactic(auto)]

mod hashes;
mod limits;
mod rows;

pub use hashes::{feed_piece, open_hash};
pub use limits::{closing_adds, within_limits};
pub use rows::folds;
