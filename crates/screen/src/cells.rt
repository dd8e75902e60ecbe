// Stores into cells.
ghost use Rattle.std.specs.Prelude.{◌+◌, ◌≤◌, length, replicate};
ghost use Rattle.layout.specs.Writing.{run};
ghost use Rattle.terminal.specs.Pages.{spread, ink};
ghost use Rattle.screen.specs.Cells.{cell_of, Stored};

use crate::cell::Cell;
use ansi::{AnsiAware, Piece};
use pen::steer;
use style::StyleSheet;
use width::WidthRule;

// Sets `n` cells.
pub(crate) fn fill(cells: &mut [Cell], from: usize, n: usize, cell: Cell)
    requires { from + n ≤ length cells.old }
    ensures { Stored from (replicate n (cell_of cell)) cells.old cells.new }
{
    cells[from..from + n].fill(cell);
}

// Puts a character that takes `n` cells.
fn put_char(cells: &mut [Cell], at: usize, n: usize, cell: Cell)
    requires { at + n ≤ length cells.old }
    ensures { Stored at (spread n (cell_of cell)) cells.old cells.new }
{
    if n > 0 {
        cells[at] = cell;
        fill(cells, at + 1, n - 1, Cell::Half);
    }
}

// Puts the characters of a run, with the pen that its style and its colour sequences give. Where the next one goes is counted,
// since it takes as many cells as the width rule says.
pub(crate) fn put_run<C: WidthRule>(
    cells: &mut [Cell],
    mut at: usize,
    text: &str,
    style: StyleSheet,
)
    requires { at + length (ink C.WidthRule.cells (run text.now style)) ≤ length cells.old }
    ensures { Stored at (ink C.WidthRule.cells (run text.now style)) cells.old cells.new }
{
    let mut pen = style;
    for piece in text.ansi_aware_chars() {
        match piece {
            Piece::Escape { text, .. } => pen = steer(pen, text.as_bytes()),
            Piece::Char(c) => {
                let n = C::width(c);
                put_char(
                    cells,
                    at,
                    n,
                    Cell::Char {
                        char: c,
                        style: pen,
                    },
                );
                at += n;
            }
        }
    }
}
