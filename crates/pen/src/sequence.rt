// Which escape sequences are colour sequences.
ghost use Rattle.std.specs.Prelude.{◌≡◌, ℕ, true, false, List, MatchOption};
ghost use Rattle.pen.specs.Sequences.{parameters, Colours, ColoursTold, is_colour, between};

/// With it an escape sequence begins.
pub const ESC: u8 = 0x1B;

/// Behind ESC, with it a control sequence begins.
pub const BRACKET: u8 = b'[';

const FINAL: u8 = b'm';

// Whether all bytes are digits or semicolons.
fn all_parameters(bytes: &[u8]) -> bool
    ensures { result ≡ parameters bytes.now }
{
    bytes.iter().all(|&b| matches!(b, b'0'..=b'9' | b';'))
}

/// What stands between the first two bytes and the last of a colour sequence; none for any other bytes.
#[tactic(auto, using(crate::proofs::Sequences::colours_told))]
pub fn colour_parameters(bytes: &[u8]) -> Option<&[u8]>
    ensures test { MatchOption result (is_colour bytes.now ≡ false) (λ m. (is_colour bytes.now ≡ true) × (m.now ≡ between bytes.now)) }
    ensures law { ColoursTold }
{
    match bytes {
        [ESC, BRACKET, middle @ .., FINAL] if all_parameters(middle) => Some(middle),
        _ => None,
    }
}
