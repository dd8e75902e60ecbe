//! Finished rows.

ghost use Rattle.std.specs.Prelude.{◌≡◌, ◌<◌, ◌≤◌, length, Decides, MatchOption, slice_index_or};
ghost use Rattle.std.specs.Iterator.{YieldsFirstBy, item_count};
ghost use Rattle.store.specs.Piles.{no_row};
ghost use Rattle.store.specs.Spans.{RunsIn, Cuts, Joins, RowsIn};

use crate::runs::Runs;
use crate::spans::{RowSpan, Span};

/// A finished row.
#[derive(Clone, Copy)]
pub struct Row<'a> {
    pub runs: Runs<'a>,
    pub width: u16,
    pub hash: u64,
}

impl Row<'_> {
    ghost use Rattle.store.specs.Walks.{row_of};

    /// Whether it equals another one: in width, hash, and each run's text and style. A method as `Runs::same` is.
    pub(crate) fn same(&self, other: &Row<'_>) -> bool
        ensures { Decides result (row_of self.now ≡ row_of other.now) }
    {
        self.hash == other.hash && self.width == other.width && self.runs.same(&other.runs)
    }
}

/// The finished rows that are still to come.
#[derive(Clone, Copy)]
pub struct Rows<'a> {
    pub(crate) bytes: &'a str,
    pub(crate) runs: &'a [Span],
    pub(crate) rows: &'a [RowSpan],
    ghost within: { RunsIn runs.now (length bytes.now) },
    ghost cuts: { Cuts bytes.now runs.now },
    ghost joins: { Joins runs.now },
    ghost lines: { RowsIn rows.now (length runs.now) },
}

impl<'a> Rows<'a> {
    ghost use Rattle.store.specs.Walks.{row_of, row_left, rows_left};

    // The row that a part of the runs is.
    fn row(&self, part: RowSpan) -> Row<'a>
        requires forward { part.from ≤ part.to }
        requires inside { part.to ≤ length self.now.runs.now }
        ensures { row_of result ≡ row_left self.now part }
    {
        Row {
            runs: Runs {
                bytes: self.bytes,
                spans: &self.runs[part.from..part.to],
            },
            width: part.width,
            hash: part.hash,
        }
    }

    /// Row `i` of them.
    pub(crate) fn get(&self, i: usize) -> Option<Row<'a>>
        ensures { MatchOption result (length (rows_left self.now) ≤ i) (λ w. (i < length (rows_left self.now)) × (row_of w ≡ slice_index_or (rows_left self.now) i no_row)) }
    {
        let part = self.rows.get(i)?;
        Some(self.row(*part))
    }
}

impl<'a> Iterator for Rows<'a> {
    ghost use Rattle.store.specs.Walks.{row_of, rows_left};

    type Item = Row<'a>;

    ghost next_gives = { YieldsFirstBy row_of rows_left };

    ghost remaining = { item_count rows_left };

    fn next(&mut self) -> Option<Row<'a>> {
        let (part, rest) = self.rows.split_first()?;
        let row = self.row(*part);
        self.rows = rest;
        Some(row)
    }
}
