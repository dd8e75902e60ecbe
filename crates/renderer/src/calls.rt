// Opening a renderer, and writing frames.
ghost use Rattle.std.specs.Prelude.{◌≡◌, Some, MatchResult};
ghost use Rattle.history.specs.Machines.{opened};
ghost use Rattle.history.specs.Steps.{Step, accepted, refused, start, refresh, write, mark};
ghost use Rattle.renderer.specs.Rulings.{rules_by};
ghost use Rattle.renderer.specs.States.{rests, draws};

use crate::frames::{Frames, correct, taken_size};
use crate::states::{Drawing, Receipt, Resting};
use history::RenderError;
use size::Position;
use std::alloc::Global;
use style::StyleSheet;
use terminal::Terminal;
use width::RowHash;

impl<T: Terminal, R: RowHash> Resting<T, R> {
    /// A renderer over a terminal, of which nothing is called, and the receipt for it. Where memory is wanting, the terminal
    /// is handed back.
    pub(crate) fn open(heap: Global, terminal: T) -> Result<(Resting<T, R>, Receipt), T>
        ensures { MatchResult result (λ x. rests T.Terminal.page x.0 ≡ opened (rules_by T.Width.WidthRule R.RowHash) (T.Terminal.page terminal)) (λ t. t ≡ terminal) }
    {
        let Ok(frames) = Frames::open(heap) else {
            return Err(terminal);
        };
        let resting = Resting {
            terminal,
            cursor_position: Position::default(),
            frames,
        };
        Ok((resting, Receipt {}))
    }

    /// Begins an empty frame, at the size of the terminal. Refused at one column (6), and where the last frame does not fit,
    /// wrapped anew (4); the renderer is then handed back as it was.
    pub(crate) fn start(mut self) -> Result<Drawing<T, R>, (Resting<T, R>, RenderError)>
        ensures { MatchResult result (λ d. Step (rules_by T.Width.WidthRule R.RowHash) (accepted start) (rests T.Terminal.page self) (draws T.Terminal.page d)) (λ x. Step (rules_by T.Width.WidthRule R.RowHash) (refused start x.1) (rests T.Terminal.page self) (rests T.Terminal.page x.0)) }
    {
        let size = taken_size(&self.terminal);
        if let Err(e) = self.frames.start(size) {
            return Err((self, e));
        }
        let Resting {
            terminal,
            cursor_position,
            frames,
        } = self;
        Ok(Drawing {
            terminal,
            cursor_position: correct(cursor_position, size),
            frames,
        })
    }
}

impl<T: Terminal, R: RowHash> Drawing<T, R> {
    /// Takes the size of the terminal anew: frames that are folded for another one are wrapped anew. Refused as `start` is;
    /// then all is as it was.
    pub(crate) fn refresh(&mut self) -> Result<(), RenderError>
        ensures { MatchResult result (λ _. Step (rules_by T.Width.WidthRule R.RowHash) (accepted refresh) (draws T.Terminal.page self.old) (draws T.Terminal.page self.new)) (λ e. Step (rules_by T.Width.WidthRule R.RowHash) (refused refresh e) (draws T.Terminal.page self.old) (draws T.Terminal.page self.new)) }
    {
        let size = taken_size(&self.terminal);
        self.frames.refresh(size)?;
        self.cursor_position = correct(self.cursor_position, size);
        Ok(())
    }

    /// Adds a text under a style to the frame. Refused (1 to 4), the frame is as it was.
    pub(crate) fn write(&mut self, text: &[u8], style: StyleSheet) -> Result<(), RenderError>
        ensures { MatchResult result (λ _. Step (rules_by T.Width.WidthRule R.RowHash) (accepted (write style text.now)) (draws T.Terminal.page self.old) (draws T.Terminal.page self.new)) (λ e. Step (rules_by T.Width.WidthRule R.RowHash) (refused (write style text.now) e) (draws T.Terminal.page self.old) (draws T.Terminal.page self.new)) }
    {
        self.frames.current.write(text, style)?;
        Ok(())
    }

    /// Marks where the cursor is to stand after the frame is drawn, an offset behind the end of the open row. Refused (5), an
    /// older mark stays.
    pub(crate) fn mark(&mut self, offset: isize) -> Result<Position, RenderError>
        ensures { MatchResult result (λ x. Step (rules_by T.Width.WidthRule R.RowHash) (accepted (mark offset)) (draws T.Terminal.page self.old) (draws T.Terminal.page self.new) × (self.new.frames.current.expected_cursor_position ≡ Some x)) (λ e. Step (rules_by T.Width.WidthRule R.RowHash) (refused (mark offset) e) (draws T.Terminal.page self.old) (draws T.Terminal.page self.new)) }
    {
        let position = self.frames.current.mark_cursor_position(offset)?;
        Ok(position)
    }
}
