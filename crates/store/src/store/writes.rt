//! Opening, filling and emptying a store.

ghost use Rattle.std.specs.Prelude.{◌≡◌, ◌+◌, ◌<◌, ◌≤◌, length, IfOk, MatchResult};
ghost use Rattle.store.specs.Piles.{empty, bytes_of, runs_of, put_text, end_run, end_row};
ghost use Rattle.store.specs.Stores.{pile_of};

use super::{Full, Store};
use crate::spans::{RowSpan, Span};
use std::alloc::{AllocError, Global};
use style::StyleSheet;

/// The most bytes of a store.
const BYTES: usize = 16_384;

/// The most runs of a store that have ended.
const RUNS: usize = 1_024;

/// The most finished rows of a store.
const ROWS: usize = 256;

impl Store {
    /// An empty store, with memory for all that it may hold.
    pub fn open(heap: Global) -> Result<Store, AllocError>
        ensures { IfOk result (λ s. pile_of s ≡ empty) }
    {
        let bytes = String::with_capacity(heap, BYTES)?;
        let runs = Vec::with_capacity(heap, RUNS)?;
        let rows = Vec::with_capacity(heap, ROWS)?;
        Ok(Store {
            bytes,
            runs,
            rows,
            begins: 0,
            starts: 0,
        })
    }

    /// Removes everything.
    pub fn clear(&mut self)
        ensures { pile_of self.new ≡ empty }
    {
        self.bytes.clear();
        self.runs.clear();
        self.rows.clear();
        self.begins = 0;
        self.starts = 0;
    }

    /// Adds to the current run's text. Refused if there would be more than 16,384 bytes in all.
    pub fn put(&mut self, text: &str) -> Result<(), Full>
        ensures { MatchResult result (λ _. (bytes_of (pile_of self.old) + length text.now ≤ 16384) × (pile_of self.new ≡ put_text text.now (pile_of self.old))) (λ _. (16384 < bytes_of (pile_of self.old) + length text.now) × (self.new ≡ self.old)) }
    {
        if text.len() > BYTES - self.bytes.len() {
            return Err(Full);
        }
        // The memory is reserved.
        self.bytes.push_str(text).unwrap();
        Ok(())
    }

    /// Adds the current text, which may be empty, to the open row as a run. Refused if there are
    /// 1,024 runs already.
    pub fn end_run(&mut self, style: StyleSheet) -> Result<(), Full>
        ensures { MatchResult result (λ _. (runs_of (pile_of self.old) < 1024) × (pile_of self.new ≡ end_run style (pile_of self.old))) (λ _. (1024 ≤ runs_of (pile_of self.old)) × (self.new ≡ self.old)) }
    {
        if self.runs.len() >= RUNS {
            return Err(Full);
        }
        let to = self.bytes.len();
        self.runs.push_reserved(Span {
            from: self.starts,
            to,
            style,
        });
        self.starts = to;
        Ok(())
    }

    /// Makes a row of the open row's runs. The current text stays. Refused if there are 256 rows
    /// already.
    pub fn end_row(&mut self, width: u16, hash: u64) -> Result<(), Full>
        ensures { MatchResult result (λ _. (length (pile_of self.old).rows < 256) × (pile_of self.new ≡ end_row width hash (pile_of self.old))) (λ _. (256 ≤ length (pile_of self.old).rows) × (self.new ≡ self.old)) }
    {
        if self.rows.len() >= ROWS {
            return Err(Full);
        }
        let to = self.runs.len();
        self.rows.push_reserved(RowSpan {
            from: self.begins,
            to,
            width,
            hash,
        });
        self.begins = to;
        Ok(())
    }
}
