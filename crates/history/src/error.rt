// Why a renderer refuses a call.
ghost use Rattle.std.specs.Prelude.{◌≡◌};
ghost use Rattle.history.specs.Answers.{number_of};
ghost use Rattle.history.specs.declared.error.RenderError.TheVariants.{Frame};

use drawing::DrawError;
use frame::FrameError;

/// Why a call is refused. All but a broken drawing leave everything as it was.
#[derive(Clone, Copy, Debug, PartialEq)]
pub enum RenderError {
    /// Numbers 1 to 5: the frame refuses it.
    Frame(FrameError),
    /// Number 6: the terminal has one column.
    OneColumn,
    /// Number 7: a call of the terminal faulted, and the drawing broke off there.
    Draw(DrawError),
}

impl RenderError {
    /// Its number. No cast gives it: variants have fields.
    pub fn number(&self) -> u8
        ensures { result ≡ number_of self.now }
    {
        match self {
            RenderError::Frame(e) => e.number(),
            RenderError::OneColumn => 6,
            RenderError::Draw(_) => 7,
        }
    }
}

impl From<FrameError> for RenderError {
    ghost from_gives = { λ e r. r ≡ Frame e };

    fn from(error: FrameError) -> RenderError {
        RenderError::Frame(error)
    }
}
