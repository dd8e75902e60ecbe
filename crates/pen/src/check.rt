// Which texts are taken.
ghost use Rattle.std.specs.Prelude.{◌≡◌, ◌⊎◌, Some, None, IsUtf8, MatchOption, MatchResult};
ghost use Rattle.ansi.specs.Pieces.{pieces};
ghost use Rattle.ansi.specs.Refusals.{NotText};
ghost use Rattle.pen.specs.Checks.{is_barred, offence, first_offence, Accepted};

use crate::sequence::colour_parameters;
use ansi::{AnsiAware, Piece, Refusal, read_utf8};

// Refuses the earliest piece that is a control and no newline, or an escape sequence and no colour sequence. A piece
// that is a character has no place of its own: it is counted.
fn check_pieces(text: &str) -> Result<(), Refusal>
    ensures { MatchResult result (λ _. first_offence 0 (pieces text.now) ≡ None) (λ e. first_offence 0 (pieces text.now) ≡ Some e) }
{
    let mut place = 0;
    for piece in text.ansi_aware_chars() {
        match piece {
            Piece::Escape { text, .. } => {
                if colour_parameters(text.as_bytes()).is_none() {
                    return Err(Refusal::NoColour { place });
                }
                place += text.len();
            }
            Piece::Char(c) => {
                if c.is_control() && c != '\n' {
                    return Err(Refusal::Control { place });
                }
                place += c.len_utf8();
            }
        }
    }
    Ok(())
}

/// The text, if it is taken. Refused where it is not UTF-8 (1), else at the earliest control that is no newline (2)
/// or escape sequence that is no colour sequence (3).
pub fn check_text(text: &[u8]) -> Result<&str, Refusal>
    ensures { MatchResult result (λ s. (s.now ≡ text.now) × Accepted text.now) (λ e. NotText text.now e ⊎ (IsUtf8 text.now × (first_offence 0 (pieces text.now) ≡ Some e))) }
{
    let text = read_utf8(text)?;
    check_pieces(text)?;
    Ok(text)
}
