// A terminal over lent cells.
ghost use Rattle.std.specs.Prelude.{◌≡◌, ◌+◌, ◌*◌, ◌^◌, ◌<◌, ◌≤◌, length, MatchOption, MatchResult};
ghost use Rattle.layout.specs.Writing.{run};
ghost use Rattle.terminal.specs.Calls.{write, return, feed, clear_line, clear_until_new_line, hide, show, up, down, left, right, flush};
ghost use Rattle.screen.specs.Cells.{cell_of};
ghost use Rattle.screen.specs.Purses.{work_of, left_of, Exactly};
ghost use Rattle.screen.specs.Sizes.{Sized, Unsized};

use crate::cell::Cell;
use crate::cells::{fill, put_run};
use crate::purse::Purse;
use size::{Position, TerminalSize};
use std::marker::PhantomData;
use style::StyleSheet;
use terminal::{COST, Fault, RUN_COST, Terminal, check_run, leftward, rightward};
use width::WidthRule;

/// A terminal whose lines are cells that were lent.
#[derive(Drop)]
pub struct Screen<'a, C> {
    cells: &'a mut [Cell],
    width: u16,
    height: u16,
    line: u16,
    col: u16,
    shown: bool,
    purse: Purse,
    rule: PhantomData<C>,
    // the cells are whole lines, and the cursor stands on one of them, or behind its last cell
    ghost whole: { length cells.now ≡ width * height },
    ghost size: { (0 < width) × (0 < height) },
    ghost place: { (line < height) × (col ≤ width) },
    ghost counted: { work_of purse + left_of purse < 2 ^ 32 },
}

impl<'a, C: WidthRule> Screen<'a, C> {
    ghost use Rattle.screen.specs.Screens.{page_of, blank_page};

    /// Whether `new` takes these cells at this size: as many as it has, in 1 to 1,024 lines that are not empty.
    pub fn check(cells: &[Cell], width: u16, height: u16) -> Result<(), Fault>
        ensures { MatchResult result (λ _. Sized width height (length cells.now)) (Unsized width height (length cells.now)) }
    {
        if width == 0
            || height == 0
            || height > 1024
            || cells.len() != width as usize * height as usize
        {
            return Err(Fault::Size);
        }
        Ok(())
    }

    /// A blank screen. Cells that `check` refuses are not touched.
    pub fn new(cells: &'a mut [Cell], width: u16, height: u16) -> Result<Screen<'a, C>, Fault>
        ensures { MatchResult result (λ s. Sized width height (length cells.old) × (page_of s ≡ blank_page width height 4294967295)) (Unsized width height (length cells.old)) }
    {
        Self::check(cells, width, height)?;
        cells.fill(Cell::Blank);
        Ok(Screen {
            cells,
            width,
            height,
            line: 0,
            col: 0,
            shown: true,
            purse: Purse::new(u32::MAX),
            rule: PhantomData,
        })
    }

    /// The cell on a line in a column.
    pub fn cell(&self, line: u16, column: u16) -> Option<Cell>
        ensures { MatchOption result (line < (page_of self.now).lines → column < (page_of self.now).width → ⊥) (λ x. (line < (page_of self.now).lines) × (column < (page_of self.now).width) × (cell_of x ≡ (page_of self.now).cells line column)) }
    {
        if line >= self.height || column >= self.width {
            return None;
        }
        Some(self.cells[line as usize * self.width as usize + column as usize])
    }

    /// The cells of a line.
    pub fn width(&self) -> u16
        ensures { result ≡ (page_of self.now).width }
    {
        self.width
    }

    /// How many lines there are.
    pub fn lines(&self) -> u16
        ensures { result ≡ (page_of self.now).lines }
    {
        self.height
    }

    pub fn cursor(&self) -> Position
        ensures { result ≡ (page_of self.now).cursor }
    {
        Position {
            row: self.line,
            col: self.col,
        }
    }

    pub fn is_shown(&self) -> bool
        ensures { result ≡ (page_of self.now).shown }
    {
        self.shown
    }

    // Where the cells of the cursor's line begin.
    fn line_start(&self) -> usize
        ensures { result ≡ self.now.line * self.now.width }
    {
        self.line as usize * self.width as usize
    }

    /// How much the calls to come may cost.
    pub fn left(&self) -> u32
        ensures { result ≡ (page_of self.now).left }
    {
        self.purse.left()
    }

    /// How many runs and clears were accepted.
    pub fn work(&self) -> u32
        ensures { result ≡ (page_of self.now).work }
    {
        self.purse.work()
    }
}

impl<'a, C: WidthRule> Terminal for Screen<'a, C> {
    ghost use Rattle.screen.specs.Screens.{page_of};

    type Width = C;

    ghost page = { page_of };

    fn get_size(&self) -> Result<Option<TerminalSize>, Fault> {
        Ok(TerminalSize::new(self.width, self.height))
    }

    fn write_styled(&mut self, text: &[u8], style: StyleSheet) -> Result<(), Fault>
        ensures { Exactly C.WidthRule.cells (write (run text.now style)) (page_of self.old) result (page_of self.new) }
    {
        let (run, cells) = check_run::<C>(text, self.width - self.col)?;
        self.purse.pay(text.len() + RUN_COST, 1)?;
        let at = self.line_start() + self.col as usize;
        put_run::<C>(self.cells, at, run, style);
        self.col += cells;
        Ok(())
    }

    fn carriage_return(&mut self) -> Result<(), Fault>
        ensures { Exactly C.WidthRule.cells return (page_of self.old) result (page_of self.new) }
    {
        self.purse.pay(COST, 0)?;
        self.col = 0;
        Ok(())
    }

    fn line_feed(&mut self) -> Result<(), Fault>
        ensures { Exactly C.WidthRule.cells feed (page_of self.old) result (page_of self.new) }
    {
        self.cursor_down(1)
    }

    fn clear_line(&mut self) -> Result<(), Fault>
        ensures { Exactly C.WidthRule.cells clear_line (page_of self.old) result (page_of self.new) }
    {
        self.purse.pay(COST, 1)?;
        let from = self.line_start();
        fill(self.cells, from, self.width as usize, Cell::Blank);
        Ok(())
    }

    fn clear_until_new_line(&mut self) -> Result<(), Fault>
        ensures { Exactly C.WidthRule.cells clear_until_new_line (page_of self.old) result (page_of self.new) }
    {
        self.purse.pay(COST, 1)?;
        let from = self.line_start() + self.col as usize;
        let n = (self.width - self.col) as usize;
        fill(self.cells, from, n, Cell::Blank);
        Ok(())
    }

    // Hiding and showing differ in one assignment, and in what they promise.
    fn cursor_hide(&mut self) -> Result<(), Fault>
        ensures { Exactly C.WidthRule.cells hide (page_of self.old) result (page_of self.new) }
    {
        self.purse.pay(COST, 0)?;
        self.shown = false;
        Ok(())
    }

    fn cursor_show(&mut self) -> Result<(), Fault>
        ensures { Exactly C.WidthRule.cells show (page_of self.old) result (page_of self.new) }
    {
        self.purse.pay(COST, 0)?;
        self.shown = true;
        Ok(())
    }

    fn cursor_up(&mut self, cnt: u16) -> Result<(), Fault>
        ensures { Exactly C.WidthRule.cells (up cnt) (page_of self.old) result (page_of self.new) }
    {
        self.purse.pay(COST, 0)?;
        self.line = self.line.saturating_sub(cnt);
        Ok(())
    }

    fn cursor_down(&mut self, cnt: u16) -> Result<(), Fault>
        ensures { Exactly C.WidthRule.cells (down cnt) (page_of self.old) result (page_of self.new) }
    {
        let line = self.line.saturating_add(cnt);
        if line >= self.height {
            return Err(Fault::Bottom);
        }
        self.purse.pay(COST, 0)?;
        self.line = line;
        Ok(())
    }

    fn cursor_left(&mut self, cnt: u16) -> Result<(), Fault>
        ensures { Exactly C.WidthRule.cells (left cnt) (page_of self.old) result (page_of self.new) }
    {
        self.purse.pay(COST, 0)?;
        self.col = leftward(self.width, cnt, self.col);
        Ok(())
    }

    fn cursor_right(&mut self, cnt: u16) -> Result<(), Fault>
        ensures { Exactly C.WidthRule.cells (right cnt) (page_of self.old) result (page_of self.new) }
    {
        self.purse.pay(COST, 0)?;
        self.col = rightward(self.width, cnt, self.col);
        Ok(())
    }

    fn flush(&mut self) -> Result<(), Fault>
        ensures { Exactly C.WidthRule.cells flush (page_of self.old) result (page_of self.new) }
    {
        self.purse.pay(COST, 0)
    }
}
