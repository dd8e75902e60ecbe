// Why a call on a frame is refused.
ghost use Rattle.std.specs.Prelude.{◌≡◌, Some};
ghost use Rattle.frame.specs.Answers.{number_of, place_of, shown};
ghost use Rattle.frame.specs.declared.error.FrameError.TheVariants.{Text};

use ansi::Refusal;
use std::error::Error;
use std::fmt;

/// Why a call on a frame is refused.
#[derive(Clone, Copy, Debug, PartialEq)]
pub enum FrameError {
    /// Numbers 1 to 3: the text is not taken.
    Text(Refusal),
    /// Number 4: the text is longer than 65,535 bytes, or the frame would pass a limit.
    TooLarge,
    /// Number 5: an offset below 0 or above 65,535.
    BadOffset,
}

impl FrameError {
    pub fn number(&self) -> u8
        ensures { result ≡ number_of self.now }
    {
        match self {
            FrameError::Text(refusal) => refusal.number(),
            FrameError::TooLarge => 4,
            FrameError::BadOffset => 5,
        }
    }

    /// The place in the text, for numbers 1 to 3.
    pub fn place(&self) -> Option<usize>
        ensures { result ≡ place_of self.now }
    {
        match self {
            FrameError::Text(refusal) => Some(refusal.place()),
            FrameError::TooLarge | FrameError::BadOffset => None,
        }
    }
}

// The number, and the place where there is one.
impl fmt::Display for FrameError {
    ghost output = { λ e. Some (shown e) };

    fn fmt<W: fmt::Write>(&self, f: &mut fmt::Formatter<W>) -> fmt::Result {
        match self {
            FrameError::Text(refusal) => write!(f, "{refusal}"),
            FrameError::TooLarge | FrameError::BadOffset => write!(f, "{}", self.number()),
        }
    }
}

impl Error for FrameError {}

impl From<Refusal> for FrameError {
    ghost from_gives = { λ e r. r ≡ Text e };

    fn from(text: Refusal) -> FrameError {
        FrameError::Text(text)
    }
}
