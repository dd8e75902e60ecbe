//! What a store holds.

ghost use Rattle.std.specs.Prelude.{◌≡◌, ◌<◌, ◌≤◌, length, MatchOption, slice_index_or};
ghost use Rattle.layout.specs.Writing.{some};
ghost use Rattle.store.specs.Piles.{bytes_of, runs_of, runs_of_row, text_of_row, Finds, no_row};
ghost use Rattle.store.specs.Stores.{pile_of, info_of};
ghost use Rattle.store.specs.Walks.{runs_left, rows_left};

use super::Store;
use super::info::RowInfo;
use crate::rows::Rows;
use crate::runs::Runs;
use style::StyleSheet;

impl Store {
    /// Whether the current run has text.
    pub fn has_text(&self) -> bool
        ensures { result ≡ some (pile_of self.now).text }
    {
        self.starts < self.bytes.len()
    }

    /// Whether the open row has runs.
    pub fn has_runs(&self) -> bool
        ensures { result ≡ some (pile_of self.now).runs }
    {
        self.begins < self.runs.len()
    }

    /// How many bytes there are in all.
    pub fn bytes_len(&self) -> usize
        ensures value { result ≡ bytes_of (pile_of self.now) }
        ensures bound { result ≤ 16384 }
    {
        self.bytes.len()
    }

    /// How many runs have ended.
    pub fn runs_len(&self) -> usize
        ensures value { result ≡ runs_of (pile_of self.now) }
        ensures bound { result ≤ 1024 }
    {
        self.runs.len()
    }

    /// How many rows are finished.
    pub fn rows_len(&self) -> usize
        ensures value { result ≡ length (pile_of self.now).rows }
        ensures bound { result ≤ 256 }
    {
        self.rows.len()
    }

    /// How many runs the open row has.
    pub fn open_runs(&self) -> usize
        ensures { result ≡ length (pile_of self.now).runs }
    {
        self.runs_len() - self.begins
    }

    /// The finished rows, one after another.
    pub fn rows(&self) -> Rows<'_>
        ensures { rows_left result ≡ (pile_of self.now).rows }
    {
        Rows {
            bytes: self.bytes.as_str(),
            runs: self.runs.as_slice(),
            rows: self.rows.as_slice(),
        }
    }

    /// The runs of the open row, one after another.
    pub fn open_row(&self) -> Runs<'_>
        ensures { runs_left result ≡ (pile_of self.now).runs }
    {
        Runs {
            bytes: self.bytes.as_str(),
            spans: &self.runs[self.begins..],
        }
    }

    /// The number of runs, the width and the hash of finished row `i`.
    pub fn row(&self, i: usize) -> Option<RowInfo>
        ensures { MatchOption result (length (pile_of self.now).rows ≤ i) (λ x. (i < length (pile_of self.now).rows) × (x ≡ info_of (slice_index_or (pile_of self.now).rows i no_row))) }
    {
        let row = self.rows().get(i)?;
        Some(RowInfo {
            runs: row.runs.len(),
            width: row.width,
            hash: row.hash,
        })
    }

    /// Run `k` of finished row `i`.
    pub fn run(&self, i: usize, k: usize) -> Option<(&str, StyleSheet)>
        ensures { Finds (runs_of_row i (pile_of self.now)) k result }
    {
        self.rows().get(i)?.runs.get(k)
    }

    /// The text of finished row `i`: its runs' texts joined.
    pub fn row_text(&self, i: usize) -> Option<&str>
        ensures { MatchOption result (length (pile_of self.now).rows ≤ i) (λ x. (i < length (pile_of self.now).rows) × (x.now ≡ text_of_row i (pile_of self.now))) }
    {
        let row = self.rows().get(i)?;
        Some(row.runs.text())
    }

    /// Run `k` of the open row.
    pub fn open_run(&self, k: usize) -> Option<(&str, StyleSheet)>
        ensures { Finds (pile_of self.now).runs k result }
    {
        self.open_row().get(k)
    }
}
