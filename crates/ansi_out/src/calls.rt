// The calls of a terminal, as bytes.
ghost use Rattle.ansi_out.specs.Pages.{page_of};

use crate::out::AnsiOut;
use crate::push::{push, push_move, push_run};
use size::TerminalSize;
use style::StyleSheet;
use terminal::{COST, Fault, RUN_COST, Terminal, check_run, leftward, rightward};
use width::Table;

// There is no line below this one.
const LAST_LINE: u16 = 65534;

impl Terminal for AnsiOut {
    type Width = Table;

    ghost page = { page_of };

    fn get_size(&self) -> Result<Option<TerminalSize>, Fault> {
        Ok(TerminalSize::new(self.width, self.height))
    }

    fn write_styled(&mut self, text: &[u8], style: StyleSheet) -> Result<(), Fault> {
        let (_, cells) = check_run::<Table>(text, self.width - self.col)?;
        self.check_left(text.len() + RUN_COST)?;
        push_run(&mut self.bytes, text, style);
        self.col += cells;
        self.work += 1;
        Ok(())
    }

    // A call that moves the cursor sets it itself: a method that all of them called would have to be told
    // where it goes, so it would be no plainer.
    fn carriage_return(&mut self) -> Result<(), Fault> {
        self.check_left(COST)?;
        push(&mut self.bytes, b'\r');
        self.col = 0;
        Ok(())
    }

    fn line_feed(&mut self) -> Result<(), Fault> {
        if self.line == LAST_LINE {
            return Err(Fault::Bottom);
        }
        self.check_left(COST)?;
        push(&mut self.bytes, b'\n');
        self.line += 1;
        Ok(())
    }

    fn clear_line(&mut self) -> Result<(), Fault> {
        self.send(b"\x1B[2K", 1)
    }

    fn clear_until_new_line(&mut self) -> Result<(), Fault> {
        self.send(b"\x1B[K", 1)
    }

    fn cursor_hide(&mut self) -> Result<(), Fault> {
        self.send(b"\x1B[?25l", 0)
    }

    fn cursor_show(&mut self) -> Result<(), Fault> {
        self.send(b"\x1B[?25h", 0)
    }

    fn cursor_up(&mut self, cnt: u16) -> Result<(), Fault> {
        self.check_left(COST)?;
        push_move(&mut self.bytes, cnt, b'A');
        self.line = self.line.saturating_sub(cnt);
        Ok(())
    }

    fn cursor_down(&mut self, cnt: u16) -> Result<(), Fault> {
        if cnt > LAST_LINE - self.line {
            return Err(Fault::Bottom);
        }
        self.check_left(COST)?;
        push_move(&mut self.bytes, cnt, b'B');
        self.line += cnt;
        Ok(())
    }

    fn cursor_left(&mut self, cnt: u16) -> Result<(), Fault> {
        self.check_left(COST)?;
        push_move(&mut self.bytes, cnt, b'D');
        self.col = leftward(self.width, cnt, self.col);
        Ok(())
    }

    fn cursor_right(&mut self, cnt: u16) -> Result<(), Fault> {
        self.check_left(COST)?;
        push_move(&mut self.bytes, cnt, b'C');
        self.col = rightward(self.width, cnt, self.col);
        Ok(())
    }

    fn flush(&mut self) -> Result<(), Fault> {
        self.check_left(COST)
    }
}
