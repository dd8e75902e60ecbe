// A frame of a terminal that changes its size.
ghost use Rattle.std.specs.Prelude.{◌≡◌, MatchResult};
ghost use Rattle.layout.specs.Limits.{fits};
ghost use Rattle.layout.specs.Writing.{rewrapped};
ghost use Rattle.frame.specs.Drafts.{rule_by};
ghost use Rattle.frame.specs.Rewraps.{Resizes, DeniesSize};
ghost use Rattle.frame.specs.States.{sheet_of};

use super::FrameState;
use crate::error::FrameError;
use size::TerminalSize;
use width::{RowHash, WidthRule};

impl<C: WidthRule, R: RowHash> FrameState<C, R> {
    /// Whether the frame keeps within the limits, wrapped anew at so many columns.
    pub fn fits_columns(&self, columns: u16) -> bool
        ensures { result ≡ fits (rule_by columns C.WidthRule R.RowHash) (rewrapped (rule_by columns C.WidthRule R.RowHash) (sheet_of self.now)) }
    {
        let counts = self.draft.measure_rewrap::<C>(columns);
        counts.fits(self.draft.style.is_empty())
    }

    /// Wraps the frame anew if its terminal's size is another one. The spare frame is written over; it keeps what the
    /// frame was. Refused, both are as they were.
    pub fn resize_if_needed(
        &mut self,
        new_size: TerminalSize,
        spare: &mut FrameState<C, R>,
    ) -> Result<(), FrameError>
        ensures { MatchResult result (λ _. Resizes (rule_by new_size.width C.WidthRule R.RowHash) new_size self.old self.new spare.old spare.new) (λ e. DeniesSize (rule_by new_size.width C.WidthRule R.RowHash) new_size self.old e × (self.new ≡ self.old) × (spare.new ≡ spare.old)) }
    {
        if self.terminal_size == new_size {
            return Ok(());
        }
        let columns = new_size.width();
        let end = self.draft.measure_rewrap::<C>(columns);
        if !end.fits(self.draft.style.is_empty()) {
            return Err(FrameError::TooLarge);
        }
        spare.draft.rewrite::<C>(columns, &self.draft);
        std::mem::swap(&mut self.draft, &mut spare.draft);
        self.terminal_size = new_size;
        self.expected_cursor_position = None;
        Ok(())
    }
}
