// What is asked of a run before it is written.
ghost use Rattle.std.specs.Prelude.{◌≡◌, ◌-◌, ◌^◌, min, false, MatchOption, MatchResult};
ghost use Rattle.std.specs.List.{AllByRecursion};
ghost use Rattle.ansi.specs.Pieces.{pieces};
ghost use Rattle.layout.specs.Inks.{is_line};
ghost use Rattle.terminal.specs.Pages.{span};
ghost use Rattle.terminal.specs.Runs.{Fitting, Misfit};

use crate::fault::Fault;
use ansi::{AnsiAware, Piece};
use pen::check_text;
use width::WidthRule;

// The cells of a text together, or `usize::MAX` where there are more; none where it has a newline.
fn line_cells<C: WidthRule>(text: &str) -> Option<usize>
    ensures { MatchOption result (AllByRecursion (λ p. is_line p ≡ false) (pieces text.now) → ⊥) (λ n. AllByRecursion (λ p. is_line p ≡ false) (pieces text.now) × (n ≡ min (span C.WidthRule.cells (pieces text.now)) (2 ^ 64 - 1))) }
{
    // a loop that stops at a newline: try_fold would wrap the sum in each arm
    let mut sum: usize = 0;
    for piece in text.ansi_aware_chars() {
        match piece {
            Piece::Char('\n') => return None,
            Piece::Char(c) => sum = sum.saturating_add(C::width(c)),
            Piece::Escape { .. } => {}
        }
    }
    Some(sum)
}

/// The text of a run and its cells, if it is one line (else fault 3) and no wider than the room (else fault 4).
pub fn check_run<C: WidthRule>(text: &[u8], room: u16) -> Result<(&str, u16), Fault>
    ensures { MatchResult result (λ x. (x.0.now ≡ text.now) × Fitting C.WidthRule.cells text.now room x.1) (Misfit C.WidthRule.cells text.now room) }
{
    let text = check_text(text).map_err(|_| Fault::Text)?;
    let cells = line_cells::<C>(text).ok_or(Fault::Text)?;
    if cells > usize::from(room) {
        return Err(Fault::Wide);
    }
    Ok((text, cells as u16))
}
