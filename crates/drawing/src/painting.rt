// Painting a frame once.
ghost use Rattle.std.specs.Prelude.{[], ◌∷◌, length, OnOk};
ghost use Rattle.store.specs.Walks.{runs_left};
ghost use Rattle.frame.specs.States.{sheet_of};
ghost use Rattle.terminal.specs.Calls.{return};
ghost use Rattle.drawing.specs.Painted.{Blank};
ghost use Rattle.drawing.specs.Drawing.{for_row, sent, row_end, rows_from};
ghost use Rattle.drawing.specs.Tries.{Tried};
ghost use Rattle.drawing.specs.Law.{Paints};

use crate::error::DrawError;
use frame::FrameState;
use store::Runs;
use terminal::{CallKind, Terminal};
use width::{RowHash, WidthRule};

// Sends the runs of row `i`.
fn write_row<T: Terminal>(terminal: &mut T, i: usize, runs: Runs) -> Result<(), DrawError>
    ensures { Tried T.Width.WidthRule.cells (sent i (runs_left runs.entry)) (T.Terminal.page terminal.old) result (T.Terminal.page terminal.new) }
{
    for (text, style) in runs {
        let answer = terminal.write_styled(text.as_bytes(), style);
        DrawError::check(answer, CallKind::WriteStyled, Some(i))?;
    }
    Ok(())
}

// Goes to the start of the row's line.
#[tactic(auto, using(crate::proofs::Tries::tried_one))]
fn return_from<T: Terminal>(terminal: &mut T, i: usize) -> Result<(), DrawError>
    ensures { Tried T.Width.cells (for_row i return ∷ []) (T.Terminal.page terminal.old) result (T.Terminal.page terminal.new) }
{
    DrawError::check(
        terminal.carriage_return(),
        CallKind::CarriageReturn,
        Some(i),
    )
}

// Goes to the next line's start behind a row, and stays on the row's line where no rows are left.
fn end_row<T: Terminal>(terminal: &mut T, i: usize, rows_left: usize) -> Result<(), DrawError>
    ensures { Tried T.Width.cells (row_end i rows_left) (T.Terminal.page terminal.old) result (T.Terminal.page terminal.new) }
{
    return_from(terminal, i)?;
    if rows_left > 0 {
        DrawError::check(terminal.line_feed(), CallKind::LineFeed, Some(i))?;
    }
    Ok(())
}

/// Paints the finished rows of a frame from where the cursor is: for each row its runs, a return, and a feed if rows
/// remain. It stops at the first fault.
pub fn paint<T: Terminal, R: RowHash>(
    terminal: &mut T,
    frame: &FrameState<T::Width, R>,
) -> Result<(), DrawError>
    ensures calls { Tried T.Width.WidthRule.cells (rows_from [] (sheet_of frame.now).rows (length (sheet_of frame.now).rows) 0) (T.Terminal.page terminal.old) result (T.Terminal.page terminal.new) }
    ensures painted { OnOk result (Blank (T.Terminal.page terminal.old) → Paints T.Width.WidthRule.cells (sheet_of frame.now).rows (T.Terminal.page terminal.new)) }
{
    let rows = frame.rows_len();
    for (i, row) in frame.rows().enumerate() {
        write_row(terminal, i, row.runs)?;
        end_row(terminal, i, rows - i - 1)?;
    }
    Ok(())
}
