// What a frame holds.
ghost use Rattle.std.specs.Prelude.{◌≡◌, ◌<◌, ◌≤◌, length, get_or, Decides, MatchOption, slice_index_or};
ghost use Rattle.store.specs.Piles.{no_row, no_run, text_of_row};
ghost use Rattle.store.specs.Stores.{info_of, pile_of};
ghost use Rattle.store.specs.Walks.{rows_left};
ghost use Rattle.frame.specs.States.{sheet_of, widest};

use super::FrameState;
use size::{Dimension, Position, TerminalSize};
use store::{RowInfo, Rows};
use style::StyleSheet;
use width::{RowHash, WidthRule};

impl<C: WidthRule, R: RowHash> FrameState<C, R> {
    /// The size of the terminal that the frame is for.
    pub fn terminal_size(&self) -> TerminalSize
        ensures { result ≡ self.now.terminal_size }
    {
        self.terminal_size
    }

    /// The last mark.
    pub fn expected_cursor_position(&self) -> Option<Position>
        ensures { result ≡ self.now.expected_cursor_position }
    {
        self.expected_cursor_position
    }

    /// How many rows are finished.
    pub fn rows_len(&self) -> usize
        ensures value { result ≡ length (sheet_of self.now).rows }
        ensures bound { result ≤ 256 }
    {
        self.draft.store.rows_len()
    }

    /// The finished rows, one after another.
    pub fn rows(&self) -> Rows<'_>
        ensures { rows_left result ≡ (sheet_of self.now).rows }
    {
        self.draft.store.rows()
    }

    /// The number of runs, the width and the hash of a finished row.
    pub fn row(&self, i: usize) -> Option<RowInfo>
        ensures { MatchOption result (length (sheet_of self.now).rows ≤ i) (λ x. (i < length (sheet_of self.now).rows) × (x ≡ info_of (slice_index_or (sheet_of self.now).rows i no_row))) }
    {
        self.draft.store.row(i)
    }

    /// Run `k` of finished row `i`.
    pub fn run(&self, i: usize, k: usize) -> Option<(&str, StyleSheet)>
        ensures { MatchOption result (length (get_or (sheet_of self.now).rows i no_row).runs ≤ k) (λ x. (k < length (get_or (sheet_of self.now).rows i no_row).runs) × (x.0.now ≡ (get_or (get_or (sheet_of self.now).rows i no_row).runs k no_run).text) × (x.1 ≡ (get_or (get_or (sheet_of self.now).rows i no_row).runs k no_run).style)) }
    {
        self.draft.store.run(i, k)
    }

    /// The bytes of finished row `i`, in one piece.
    pub fn row_text(&self, i: usize) -> Option<&str>
        ensures { MatchOption result (length (sheet_of self.now).rows ≤ i) (λ x. (i < length (sheet_of self.now).rows) × (x.now ≡ text_of_row i (pile_of self.now.draft.store))) }
    {
        self.draft.store.row_text(i)
    }

    /// Whether finished row `i` here and finished row `j` there are equal: in width, hash, and each run's bytes and
    /// style.
    pub fn same_row(&self, i: usize, other: &FrameState<C, R>, j: usize) -> bool
        ensures { Decides result ((i < length (sheet_of self.now).rows) × (j < length (sheet_of other.now).rows) × (slice_index_or (sheet_of self.now).rows i no_row ≡ slice_index_or (sheet_of other.now).rows j no_row)) }
    {
        self.draft.store.same_row(i, &other.draft.store, j)
    }

    /// The finished rows and the width of the widest.
    pub fn frame_size(&self) -> Dimension
        ensures { (result.width ≡ widest (sheet_of self.now).rows) × (result.height ≡ length (sheet_of self.now).rows) }
    {
        let width = self.rows().fold(0, |widest, row| row.width.max(widest));
        Dimension::new(width, self.rows_len() as u16)
    }
}
