// Sizes and places on a terminal.

#![tactic(auto)]

mod dimension;
mod position;
mod terminal_size;

pub use dimension::Dimension;
pub use position::Position;
pub use terminal_size::TerminalSize;
