//! The storage of a frame's rows.

ghost use Rattle.std.specs.Prelude.{◌≤◌, length, vec_len, vec_capacity, string_bytes, string_len, string_capacity};
ghost use Rattle.store.specs.Spans.{Opens, RunsIn, RowsIn, Cuts, Joins, Ends, Sized};

use crate::spans::{RowSpan, Span};

mod compares;
mod info;
mod reads;
mod writes;

pub use info::RowInfo;

/// There is no room left.
#[derive(Clone, Copy, Debug, PartialEq, Eq)]
pub struct Full;

/// Rows of runs, an open row, and the text of its current run.
///
/// It holds at most 16,384 bytes, 1,024 runs and 256 rows, for which memory is reserved at opening. The
/// runs lie one behind the other in the bytes, and the rows in the runs.
#[derive(Drop)]
pub struct Store {
    bytes: String,
    runs: Vec<Span>,
    rows: Vec<RowSpan>,
    /// Where the open row's runs begin.
    begins: usize,
    /// Where the current run's bytes begin.
    starts: usize,
    ghost room: { (16384 ≤ string_capacity bytes) × (1024 ≤ vec_capacity runs) × (256 ≤ vec_capacity rows) },
    ghost limits: { (string_len bytes ≤ 16384) × (vec_len runs ≤ 1024) × (vec_len rows ≤ 256) },
    ghost opens: { Opens (string_bytes bytes) runs.items begins starts },
    ghost spans: { RunsIn runs.items (length (string_bytes bytes)) },
    ghost lines: { RowsIn rows.items (length runs.items) },
    ghost cuts: { Cuts (string_bytes bytes) runs.items },
    ghost joins: { Joins runs.items },
    ghost ends: { Ends runs.items starts },
    ghost sized: { Sized (string_bytes bytes) runs.items rows.items begins starts },
}
