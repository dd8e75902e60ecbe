// The calls of a terminal.
ghost use Rattle.std.specs.Prelude.{◌≡◌};
ghost use Rattle.layout.specs.Writing.{run};
ghost use Rattle.terminal.specs.Pages.{Page};
ghost use Rattle.terminal.specs.Calls.{write, return, feed, clear_line, clear_until_new_line, hide, show, up, down, left, right, flush};
ghost use Rattle.terminal.specs.Outcomes.{Outcome};
ghost use Rattle.terminal.specs.Sizes.{HasSize};

use crate::fault::Fault;
use size::TerminalSize;
use style::StyleSheet;
use width::WidthRule;

/// What a call costs.
pub const COST: usize = 8;

/// What a run costs beside its bytes.
pub const RUN_COST: usize = 50;

/// A terminal, by the page that it shows. Each call is performed, or it faults and nothing changes.
pub trait Terminal {
    /// The width rule that the page is drawn with.
    type Width: WidthRule;

    ghost page: { Self → Page };

    /// The size; where there is no answer, it is 80 columns by 24 rows.
    fn get_size(&self) -> Result<Option<TerminalSize>, Fault>
        ensures { HasSize (page self.now) result };

    /// Writes a run: bytes of one line under a style.
    fn write_styled(&mut self, text: &[u8], style: StyleSheet) -> Result<(), Fault>
        ensures { Outcome Self.Width.WidthRule.cells (write (run text.now style)) (page self.old) result (page self.new) };

    /// Goes to the first column.
    fn carriage_return(&mut self) -> Result<(), Fault>
        ensures { Outcome Self.Width.WidthRule.cells return (page self.old) result (page self.new) };

    /// Goes one line down.
    fn line_feed(&mut self) -> Result<(), Fault>
        ensures { Outcome Self.Width.WidthRule.cells feed (page self.old) result (page self.new) };

    /// Blanks the cursor's line.
    fn clear_line(&mut self) -> Result<(), Fault>
        ensures { Outcome Self.Width.WidthRule.cells clear_line (page self.old) result (page self.new) };

    /// Blanks the cursor's line from the cursor on.
    fn clear_until_new_line(&mut self) -> Result<(), Fault>
        ensures { Outcome Self.Width.WidthRule.cells clear_until_new_line (page self.old) result (page self.new) };

    fn cursor_hide(&mut self) -> Result<(), Fault>
        ensures { Outcome Self.Width.WidthRule.cells hide (page self.old) result (page self.new) };

    fn cursor_show(&mut self) -> Result<(), Fault>
        ensures { Outcome Self.Width.WidthRule.cells show (page self.old) result (page self.new) };

    fn cursor_up(&mut self, cnt: u16) -> Result<(), Fault>
        ensures { Outcome Self.Width.WidthRule.cells (up cnt) (page self.old) result (page self.new) };

    fn cursor_down(&mut self, cnt: u16) -> Result<(), Fault>
        ensures { Outcome Self.Width.WidthRule.cells (down cnt) (page self.old) result (page self.new) };

    fn cursor_left(&mut self, cnt: u16) -> Result<(), Fault>
        ensures { Outcome Self.Width.WidthRule.cells (left cnt) (page self.old) result (page self.new) };

    fn cursor_right(&mut self, cnt: u16) -> Result<(), Fault>
        ensures { Outcome Self.Width.WidthRule.cells (right cnt) (page self.old) result (page self.new) };

    fn flush(&mut self) -> Result<(), Fault>
        ensures { Outcome Self.Width.WidthRule.cells flush (page self.old) result (page self.new) };
}
