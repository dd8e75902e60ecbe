// Text that may hold escape sequences, read piece by piece.

#![tactic(auto)]

mod matcher;
mod pieces;
mod refusal;

pub use pieces::{AnsiAware, AnsiAwareChars, AnsiStrippable, AnsiStrippedChars, Piece};
pub use refusal::{Refusal, read_utf8};
