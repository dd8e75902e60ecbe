// Frames in memory, for the size of a terminal.
ghost use Rattle.std.specs.Prelude.{◌≡◌, true, false, ◌&&◌, IfOk, MatchResult};
ghost use Rattle.frame.specs.declared.error.FrameError.TheVariants.{TooLarge};
ghost use Rattle.history.specs.Machines.{unsized};
ghost use Rattle.history.specs.Sizing.{corrected, fits_size};
ghost use Rattle.renderer.specs.Frames.{Resized, Started, Refreshed, Unfit};
ghost use Rattle.renderer.specs.Rulings.{rules_by, sheet_from};

use super::Frames;
use frame::{FrameError, FrameState};
use history::RenderError;
use size::{Position, TerminalSize};
use std::alloc::{AllocError, Global};
use terminal::Terminal;
use width::{RowHash, WidthRule};

impl<C: WidthRule, R: RowHash> Frames<C, R> {
    pub(crate) fn open(heap: Global) -> Result<Frames<C, R>, AllocError>
        ensures { IfOk result (λ f. sheet_from f.last ≡ unsized (rules_by C.WidthRule R.RowHash)) }
    {
        let size = TerminalSize::default();
        let last = FrameState::new(heap, size)?;
        let current = FrameState::new(heap, size)?;
        let spare = FrameState::new(heap, size)?;
        Ok(Frames {
            last,
            current,
            spare,
        })
    }
}

// The size that is taken of a terminal's answer.
pub(crate) fn taken_size<T: Terminal>(terminal: &T) -> TerminalSize
    ensures { (result.width ≡ (T.Terminal.page terminal.now).width) × (result.height ≡ (T.Terminal.page terminal.now).height) }
{
    terminal.get_size().ok().flatten().unwrap_or_default()
}

// A noted column past the columns is folded.
pub(crate) fn correct(position: Position, size: TerminalSize) -> Position
    ensures { result ≡ corrected size.width position }
{
    let columns = size.width();
    if position.col < columns {
        return position;
    }
    Position {
        row: position.row.saturating_add(position.col / columns),
        col: position.col % columns,
    }
}

// Whether a frame has the size, or keeps within the limits wrapped anew for it.
fn fits_size<C: WidthRule, R: RowHash>(frame: &FrameState<C, R>, size: TerminalSize) -> bool
    ensures { result ≡ fits_size (rules_by C.WidthRule R.RowHash) size.width size.height (sheet_from frame.now) }
{
    frame.terminal_size() == size || frame.fits_columns(size.width())
}

// A frame for the size; refused where it does not fit.
fn resize<C: WidthRule, R: RowHash>(
    frame: &mut FrameState<C, R>,
    size: TerminalSize,
    spare: &mut FrameState<C, R>,
) -> Result<(), FrameError>
    ensures { MatchResult result (λ _. (fits_size (rules_by C.WidthRule R.RowHash) size.width size.height (sheet_from frame.old) ≡ true) × Resized (rules_by C.WidthRule R.RowHash) size.width size.height frame.old frame.new) (λ e. (fits_size (rules_by C.WidthRule R.RowHash) size.width size.height (sheet_from frame.old) ≡ false) × (e ≡ TooLarge) × (frame.new ≡ frame.old) × (spare.new ≡ spare.old)) }
{
    frame.resize_if_needed(size, spare)
}

// A frame for a size that it fits.
fn fit<C: WidthRule, R: RowHash>(
    frame: &mut FrameState<C, R>,
    size: TerminalSize,
    spare: &mut FrameState<C, R>,
)
    requires { fits_size (rules_by C.WidthRule R.RowHash) size.width size.height (sheet_from frame.old) ≡ true }
    ensures { Resized (rules_by C.WidthRule R.RowHash) size.width size.height frame.old frame.new }
{
    resize(frame, size, spare).unwrap();
}

impl<C: WidthRule, R: RowHash> Frames<C, R> {
    // An empty frame to draw, over the last one, at a size. Refused, all is as it was.
    pub(crate) fn start(&mut self, size: TerminalSize) -> Result<(), RenderError>
        ensures { MatchResult result (λ _. Started (rules_by C.WidthRule R.RowHash) size.width size.height self.old self.new) (λ e. Unfit size.width (fits_size (rules_by C.WidthRule R.RowHash) size.width size.height (sheet_from self.old.last)) e × (self.new ≡ self.old)) }
    {
        if size.width() == 1 {
            return Err(RenderError::OneColumn);
        }
        resize(&mut self.last, size, &mut self.spare)?;
        self.current.restart(size);
        Ok(())
    }

    // Both frames at a size. Refused, all is as it was.
    pub(crate) fn refresh(&mut self, size: TerminalSize) -> Result<(), RenderError>
        ensures { MatchResult result (λ _. Refreshed (rules_by C.WidthRule R.RowHash) size.width size.height self.old self.new) (λ e. Unfit size.width (fits_size (rules_by C.WidthRule R.RowHash) size.width size.height (sheet_from self.old.last) && fits_size (rules_by C.WidthRule R.RowHash) size.width size.height (sheet_from self.old.current)) e × (self.new ≡ self.old)) }
    {
        if size.width() == 1 {
            return Err(RenderError::OneColumn);
        }
        if !fits_size(&self.last, size) || !fits_size(&self.current, size) {
            return Err(RenderError::Frame(FrameError::TooLarge));
        }
        fit(&mut self.last, size, &mut self.spare);
        fit(&mut self.current, size, &mut self.spare);
        Ok(())
    }
}
