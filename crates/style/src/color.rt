//! The colours of text.

ghost use Rattle.std.specs.Prelude.{◌≡◌, Decides};
ghost use Rattle.style.specs.Bytes.{color_bytes};
ghost use Rattle.style.specs.Colors.{code_of, named, CodesName};

use crate::meaning::EqMeans;

/// A colour of text.
///
/// Almost every terminal shows the 16 named colours; `Rgb` and `AnsiValue` are for those that show more.
#[derive(Copy, Clone, Debug, PartialEq, Eq, Hash)]
pub enum Color {
    Black,
    LightRed,
    DarkRed,
    LightGreen,
    DarkGreen,
    LightYellow,
    DarkYellow,
    LightBlue,
    DarkBlue,
    LightMagenta,
    DarkMagenta,
    LightCyan,
    DarkCyan,
    White,
    Grey,
    DarkGrey,
    /// Red, green and blue.
    Rgb { r: u8, g: u8, b: u8 },
    /// An entry of the palette of 256 colours.
    AnsiValue(u8),
}

impl Color {
    /// The colour with these parts of red, green and blue.
    pub fn rgb(r: u8, g: u8, b: u8) -> Color
        ensures { result ≡ Color.Rgb r g b }
    {
        Self::Rgb { r, g, b }
    }

    /// The ANSI code of a named colour, 0 to 15. The other colours have none.
    // No cast: variants with fields have none, and the codes' order is not that of the variants.
    pub fn code(self) -> Option<u8>
        ensures { result ≡ code_of self }
    {
        match self {
            Color::Black => Some(0),
            Color::LightRed => Some(9),
            Color::DarkRed => Some(1),
            Color::LightGreen => Some(10),
            Color::DarkGreen => Some(2),
            Color::LightYellow => Some(11),
            Color::DarkYellow => Some(3),
            Color::LightBlue => Some(12),
            Color::DarkBlue => Some(4),
            Color::LightMagenta => Some(13),
            Color::DarkMagenta => Some(5),
            Color::LightCyan => Some(14),
            Color::DarkCyan => Some(6),
            Color::White => Some(15),
            Color::Grey => Some(7),
            Color::DarkGrey => Some(8),
            Color::Rgb { .. } | Color::AnsiValue(_) => None,
        }
    }

    /// The named colour with this ANSI code. There is none above 15.
    // No `TryFrom`: its error would say no more than `None` does.
    #[tactic(auto, using(crate::proofs::Codes::codes_name))]
    pub fn from_code(code: u8) -> Option<Color>
        ensures value { result ≡ named code }
        ensures law { CodesName }
    {
        NAMES.get(usize::from(code)).copied()
    }

    /// Four bytes that no other colour has. The first is not 0.
    pub(crate) fn to_bytes(self) -> [u8; 4]
        ensures { result ≡ color_bytes self }
    {
        match self {
            Color::Rgb { r, g, b } => [3, r, g, b],
            Color::AnsiValue(value) => [2, value, 0, 0],
            name => [1, name.code().unwrap(), 0, 0],
        }
    }
}

impl EqMeans for Color {
    ghost use Rattle.style.specs.Deciding.{colors_decide};

    ghost means = { λ c d same. Decides same (c ≡ d) };

    ghost holds = { colors_decide.colors };
}

impl EqMeans for Option<Color> {
    ghost use Rattle.style.specs.Deciding.{colors_decide};

    ghost means = { λ c d same. Decides same (c ≡ d) };

    ghost holds = { colors_decide.options };
}

/// The named colours in the order of their codes. Searching it in `code` would be no plainer than the match there.
const NAMES: [Color; 16] = [
    Color::Black,
    Color::DarkRed,
    Color::DarkGreen,
    Color::DarkYellow,
    Color::DarkBlue,
    Color::DarkMagenta,
    Color::DarkCyan,
    Color::Grey,
    Color::DarkGrey,
    Color::LightRed,
    Color::LightGreen,
    Color::LightYellow,
    Color::LightBlue,
    Color::LightMagenta,
    Color::LightCyan,
    Color::White,
];
