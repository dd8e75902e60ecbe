// Where the bytes of a terminal leave the cursor.
ghost use Rattle.std.specs.Prelude.{◌≡◌, min, true, false, MatchOption};
ghost use Rattle.ansi.specs.Pieces.{letter};
ghost use Rattle.pen.specs.Sequences.{parameters};
ghost use Rattle.terminal.specs.Pages.{at};
ghost use Rattle.stream.specs.Controls.{first_number, asked};
ghost use Rattle.stream.specs.Cursors.{moved, placed, cursor_of};
ghost use Rattle.stream.specs.Law.{ReadsBack};

use ansi::{AnsiAware, Piece};
use pen::{BRACKET, ESC};
use terminal::{leftward, rightward};
use width::WidthRule;

// The first number of the parameters of a control sequence, 65,535 where it is larger; none for other bytes.
fn first_number(bytes: &[u8]) -> Option<u16>
    ensures { MatchOption result (parameters bytes.now ≡ false) (λ n. (parameters bytes.now ≡ true) × (n ≡ min (first_number bytes.now) 65535)) }
{
    // a chain of take_while and fold did not prove
    let mut n: u16 = 0;
    let mut first = true;
    for b in bytes {
        match *b {
            b';' => first = false,
            b'0'..=b'9' if first => n = n.saturating_mul(10).saturating_add(u16::from(*b - b'0')),
            b'0'..=b'9' => {}
            _ => return None,
        }
    }
    Some(n)
}

// The column after an escape sequence.
fn column_behind(sequence: &[u8], width: u16, col: u16) -> u16
    ensures { result ≡ (moved (λ _. 0) width (asked sequence.now) (at 0 col)).col }
{
    match sequence {
        [ESC, BRACKET, middle @ .., last] => match (first_number(middle), *last) {
            (Some(n), b'C') => rightward(width, n.max(1), col),
            (Some(n), b'D') => leftward(width, n.max(1), col),
            _ => col,
        },
        _ => col,
    }
}

// The column after a character.
fn column_past<C: WidthRule>(c: char, width: u16, col: u16) -> u16
    ensures { result ≡ (placed C.WidthRule.cells width (at 0 col) (letter c)).col }
{
    match c {
        '\r' => 0,
        '\n' => col,
        _ => usize::from(col)
            .saturating_add(C::width(c))
            .min(usize::from(width)) as u16,
    }
}

/// The column in which the bytes of a terminal leave the cursor, on lines of `width` cells.
pub fn cursor_column<C: WidthRule>(sent: &str, width: u16) -> u16
    ensures value { result ≡ (cursor_of C.WidthRule.cells width sent.now).col }
    ensures law { ReadsBack }
{
    let mut col: u16 = 0;
    for piece in sent.ansi_aware_chars() {
        col = match piece {
            Piece::Escape { text, .. } => column_behind(text.as_bytes(), width, col),
            Piece::Char(c) => column_past::<C>(c, width, col),
        };
    }
    col
}
