// A terminal over lent cells.

#![tactic(auto)]

mod cell;
mod cells;
mod purse;
mod screen;

pub use cell::Cell;
pub use screen::Screen;
