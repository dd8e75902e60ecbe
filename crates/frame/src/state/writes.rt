// Opening a frame, writing to it, and finishing it.
ghost use Rattle.std.specs.Prelude.{◌≡◌, ◌≤◌, [], IfOk, None, MatchResult};
ghost use Rattle.layout.specs.RowLaw.{RowsLaw, HashLaw, EqualWrites};
ghost use Rattle.layout.specs.Tally.{tally_of};
ghost use Rattle.layout.specs.Writing.{fresh, finished};
ghost use Rattle.frame.specs.Counts.{counts_of};
ghost use Rattle.frame.specs.Drafts.{rule_by};
ghost use Rattle.frame.specs.States.{sheet_of, rule_of, Writes, Denies};

use super::FrameState;
use crate::draft::Draft;
use crate::error::FrameError;
use crate::tally::{Counts, measure};
use pen::check_text;
use size::TerminalSize;
use std::alloc::{AllocError, Global};
use std::marker::PhantomData;
use store::Store;
use style::StyleSheet;
use width::{RowHash, WidthRule};

const MOST_TEXT: usize = 65_535;

impl<C: WidthRule, R: RowHash> FrameState<C, R> {
    /// An empty frame, with memory for all that it may hold.
    pub fn new(heap: Global, terminal_size: TerminalSize) -> Result<FrameState<C, R>, AllocError>
        ensures { IfOk result (λ s. (sheet_of s ≡ fresh (rule_by 0 C.WidthRule R.RowHash) []) × (s.terminal_size ≡ terminal_size) × (s.expected_cursor_position ≡ None)) }
    {
        let store = Store::open(heap)?;
        Ok(FrameState {
            draft: Draft {
                store,
                style: StyleSheet::empty(),
                width: 0,
                hash: R::begin(),
                hasher: PhantomData,
            },
            terminal_size,
            expected_cursor_position: None,
            rule: PhantomData,
        })
    }

    // What the frame holds, counted.
    fn counts(&self) -> Counts
        ensures value { counts_of result ≡ tally_of (sheet_of self.now) }
        ensures bytes { result.bytes ≤ 16384 }
        ensures runs { result.runs ≤ 1024 }
        ensures rows { result.rows ≤ 256 }
    {
        let store = &self.draft.store;
        Counts {
            rows: store.rows_len(),
            runs: store.runs_len(),
            bytes: store.bytes_len(),
            begun: store.has_runs(),
            text: store.has_text(),
            width: self.draft.width,
        }
    }

    /// Writes a text under a style. Refused, the frame is as it was.
    pub fn write(&mut self, text: &[u8], style: StyleSheet) -> Result<(), FrameError>
        ensures answer { MatchResult result (λ _. Writes (rule_of self.old C.WidthRule R.RowHash) style text.now (sheet_of self.old) (sheet_of self.new)) (λ e. Denies (rule_of self.old C.WidthRule R.RowHash) style text.now (sheet_of self.old) e × (self.new ≡ self.old)) }
        ensures size { self.new.terminal_size ≡ self.old.terminal_size }
        ensures mark { self.new.expected_cursor_position ≡ self.old.expected_cursor_position }
    {
        if text.len() > MOST_TEXT {
            return Err(FrameError::TooLarge);
        }
        let text = check_text(text)?;
        let columns = self.terminal_size.width();
        let bare = style.is_empty();
        let end = measure::<C>(self.counts(), columns, bare, text);
        if !end.fits(bare) {
            return Err(FrameError::TooLarge);
        }
        self.draft.write::<C>(columns, text, style);
        Ok(())
    }

    /// Closes the open row. The law says where rows break and what their hashes are of.
    pub fn finish(&mut self)
        ensures frame { sheet_of self.new ≡ finished (rule_of self.old C.WidthRule R.RowHash) (sheet_of self.old) }
        ensures size { self.new.terminal_size ≡ self.old.terminal_size }
        ensures mark { self.new.expected_cursor_position ≡ self.old.expected_cursor_position }
        ensures law { RowsLaw × HashLaw × EqualWrites }
    {
        self.draft.finish();
    }

    /// Empties the frame, for a terminal of this size. A mark is lost.
    pub fn restart(&mut self, terminal_size: TerminalSize)
        ensures frame { sheet_of self.new ≡ fresh (rule_of self.old C.WidthRule R.RowHash) [] }
        ensures size { self.new.terminal_size ≡ terminal_size }
        ensures mark { self.new.expected_cursor_position ≡ None }
    {
        self.draft.clear();
        self.terminal_size = terminal_size;
        self.expected_cursor_position = None;
    }
}
