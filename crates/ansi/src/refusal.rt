// Why a text is refused.
ghost use Rattle.std.specs.Prelude.{◌≡◌, Some, IsUtf8, MatchResult};
ghost use Rattle.ansi.specs.Refusals.{number_of, place_of, shown, NotText};

use std::error::Error;
use std::fmt;

/// Why a text is refused. A place is that of the first byte of the first offender.
#[derive(Clone, Copy, Debug, PartialEq, Eq)]
pub enum Refusal {
    /// Number 1: the text is not UTF-8 (RFC 3629).
    NotUtf8 { place: usize },
    /// Number 2: a control character other than newline, outside escape sequences.
    Control { place: usize },
    /// Number 3: an escape sequence that is no colour sequence.
    NoColour { place: usize },
}

impl Refusal {
    pub fn number(&self) -> u8
        ensures { result ≡ number_of self.now }
    {
        match self {
            Refusal::NotUtf8 { .. } => 1,
            Refusal::Control { .. } => 2,
            Refusal::NoColour { .. } => 3,
        }
    }

    pub fn place(&self) -> usize
        ensures { result ≡ place_of self.now }
    {
        match self {
            Refusal::NotUtf8 { place } | Refusal::Control { place } | Refusal::NoColour { place } =>
                *place,
        }
    }
}

// The number, and the place.
impl fmt::Display for Refusal {
    ghost output = { λ e. Some (shown e) };

    fn fmt<W: fmt::Write>(&self, f: &mut fmt::Formatter<W>) -> fmt::Result {
        write!(f, "{} at {}", self.number(), self.place())
    }
}

impl Error for Refusal {}

/// The text that the bytes are; refused where they are not UTF-8.
pub fn read_utf8(bytes: &[u8]) -> Result<&str, Refusal>
    ensures { MatchResult result (λ s. (s.now ≡ bytes.now) × IsUtf8 bytes.now) (NotText bytes.now) }
{
    std::str::from_utf8(bytes).map_err(|e| Refusal::NotUtf8 {
        place: e.valid_up_to(),
    })
}
