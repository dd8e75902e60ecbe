// What a terminal shows of the bytes that it is sent.

#![tactic(auto)]

mod column;

pub use column::cursor_column;
pub use terminal::{leftward, rightward};
