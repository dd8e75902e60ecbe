// Marks, and what a frame tells of itself.
ghost use Rattle.std.specs.Prelude.{◌≡◌, MatchResult};
ghost use Rattle.frame.specs.States.{sheet_of, rule_of, Marks, BadMark};

use super::FrameState;
use crate::error::FrameError;
use crate::mark::folded_column;
use size::Position;
use width::{RowHash, WidthRule};

impl<C: WidthRule, R: RowHash> FrameState<C, R> {
    /// Marks where the cursor is to stand, an offset behind the end of the open row. Refused, an older mark stays.
    pub fn mark_cursor_position(&mut self, offset: isize) -> Result<Position, FrameError>
        ensures { MatchResult result (Marks (rule_of self.old C.WidthRule R.RowHash) offset self.old self.new) (λ e. BadMark offset e × (self.new ≡ self.old)) }
    {
        let offset = u16::try_from(offset).map_err(|_| FrameError::BadOffset)?;
        let (rows, col) = folded_column(self.draft.width, offset, self.terminal_size.width());
        let finished = self.draft.store.rows_len() as u16;
        let position = Position {
            row: finished.saturating_add(rows),
            col,
        };
        self.expected_cursor_position = Some(position);
        Ok(position)
    }
}
