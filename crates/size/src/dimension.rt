// The size of a frame.
ghost use Rattle.std.specs.Prelude.{◌≡◌};

/// Columns and rows, both of which may be 0.
#[derive(Debug, Default, Clone, Copy, PartialEq, Eq)]
pub struct Dimension {
    width: u16,
    height: u16,
}

// `width` and `height` are those of `TerminalSize` too: a trait for both would be longer than the four bodies, and
// each caller would have to import it.
impl Dimension {
    pub fn new(width: u16, height: u16) -> Dimension
        ensures { (result.width ≡ width) × (result.height ≡ height) }
    {
        Dimension { width, height }
    }

    pub fn width(&self) -> u16
        ensures { result ≡ self.now.width }
    {
        self.width
    }

    pub fn height(&self) -> u16
        ensures { result ≡ self.now.height }
    {
        self.height
    }
}
