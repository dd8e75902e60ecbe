// Moving the cursor.
ghost use Rattle.std.specs.Prelude.{◌≡◌, ◌<◌, OnOk};
ghost use Rattle.terminal.specs.Calls.{up, down, left, right};
ghost use Rattle.drawing.specs.Drawing.{steps, going};
ghost use Rattle.drawing.specs.Tries.{Tried};

use crate::error::DrawError;
use size::Position;
use terminal::{CallKind, Terminal};
use width::WidthRule;

// Passing the two calls of a direction as closures to one function would be no plainer: they would have to promise what
// each call does, so there is one function for rows and one for columns.
fn move_row<T: Terminal>(terminal: &mut T, from: u16, to: u16) -> Result<(), DrawError>
    ensures { Tried T.Width.cells (steps up down from to) (T.Terminal.page terminal.old) result (T.Terminal.page terminal.new) }
{
    if to < from {
        DrawError::check(terminal.cursor_up(from - to), CallKind::CursorUp, None)
    } else if from < to {
        DrawError::check(terminal.cursor_down(to - from), CallKind::CursorDown, None)
    } else {
        Ok(())
    }
}

fn move_column<T: Terminal>(terminal: &mut T, from: u16, to: u16) -> Result<(), DrawError>
    ensures { Tried T.Width.cells (steps left right from to) (T.Terminal.page terminal.old) result (T.Terminal.page terminal.new) }
{
    if to < from {
        DrawError::check(terminal.cursor_left(from - to), CallKind::CursorLeft, None)
    } else if from < to {
        DrawError::check(
            terminal.cursor_right(to - from),
            CallKind::CursorRight,
            None,
        )
    } else {
        Ok(())
    }
}

/// Moves the cursor from a position, where it is, to another: rows before columns, and nothing where they are equal. It
/// stops at the first fault.
pub fn move_cursor<T: Terminal>(
    terminal: &mut T,
    from: Position,
    to: Position,
) -> Result<(), DrawError>
    ensures calls { Tried T.Width.cells (going from to) (T.Terminal.page terminal.old) result (T.Terminal.page terminal.new) }
    ensures moved { OnOk result ((T.Terminal.page terminal.old).cursor ≡ from → from.col < (T.Terminal.page terminal.old).width → to.col < (T.Terminal.page terminal.old).width → (T.Terminal.page terminal.new).cursor ≡ to) }
{
    move_row(terminal, from.row, to.row)?;
    move_column(terminal, from.col, to.col)
}
