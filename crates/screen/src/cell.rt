// The cells of a screen.
use style::StyleSheet;

/// What stands in one column of a line.
#[derive(Clone, Copy, Debug, PartialEq)]
pub enum Cell {
    Blank,
    /// A character, and the pen that it was written with.
    Char { char: char, style: StyleSheet },
    /// The second half of a wide character.
    Half,
}
