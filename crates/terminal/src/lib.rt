// What a terminal means: a page of cells and a cursor, and what each call does to it.

#![tactic(auto)]

mod fault;
mod moves;
mod run;
mod terminal;

pub use fault::{CallKind, Fault};
pub use moves::{leftward, rightward};
pub use run::check_run;
pub use terminal::{COST, RUN_COST, Terminal};
