// The size of a terminal.
ghost use Rattle.std.specs.Prelude.{◌≡◌, ◌<◌, ◌⊎◌, Decides, MatchOption};

use style::EqMeans;

/// Columns and rows, neither of which is 0.
#[derive(Clone, Copy, PartialEq, Eq)]
pub struct TerminalSize {
    width: u16,
    height: u16,
    ghost some: { (0 < width) × (0 < height) },
}

impl TerminalSize {
    ghost use Rattle.size.specs.Equality.{SizesDecide};

    /// None if the width or the height is 0. Sizes are equal by `==` where both parts are.
    #[tactic(auto, using(crate::specs::Equality::sizes_decide))]
    pub fn new(width: u16, height: u16) -> Option<TerminalSize>
        ensures size { MatchOption result ((width ≡ 0) ⊎ (height ≡ 0)) (λ s. (s.width ≡ width) × (s.height ≡ height)) }
        ensures law { SizesDecide }
    {
        if width == 0 || height == 0 {
            None
        } else {
            Some(TerminalSize { width, height })
        }
    }

    pub fn width(&self) -> u16
        ensures { result ≡ self.now.width }
    {
        self.width
    }

    pub fn height(&self) -> u16
        ensures { result ≡ self.now.height }
    {
        self.height
    }
}

impl EqMeans for TerminalSize {
    ghost use Rattle.size.specs.Equality.{sizes_decide};

    ghost means = { λ a b same. Decides same ((a.width ≡ b.width) × (a.height ≡ b.height)) };

    ghost holds = { sizes_decide };
}

// Not derived: of its fields' defaults no size is made.
impl Default for TerminalSize {
    ghost is_default = { λ r. (r.width ≡ 80) × (r.height ≡ 24) };

    fn default() -> TerminalSize {
        TerminalSize {
            width: 80,
            height: 24,
        }
    }
}
