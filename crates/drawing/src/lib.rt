// The rows of a frame on the page of a terminal.

#![tactic(auto)]

mod error;
mod law;
mod moves;
mod painting;

pub use error::DrawError;
pub use law::drawings_show;
pub use moves::move_cursor;
pub use painting::paint;
