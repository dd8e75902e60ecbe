// Why a terminal does not perform a call, and the kinds of calls.
ghost use Rattle.std.specs.Prelude.{◌≡◌};
ghost use Rattle.terminal.specs.Faults.{fault_number, kind_number};

/// Why a call is not performed. Nothing changes then.
#[derive(Clone, Copy, Debug, PartialEq, Eq)]
pub enum Fault {
    /// Less is left than the call costs.
    Full = 1,
    /// A feed or a move down past the last line.
    Bottom = 2,
    /// A run whose text is not taken, or has a newline.
    Text = 3,
    /// A run that is wider than what is left of its line.
    Wide = 4,
    /// A size that the terminal cannot have.
    Size = 5,
}

impl Fault {
    pub fn number(&self) -> u8
        ensures { result ≡ fault_number self.now }
    {
        let fault = *self;
        fault as u8
    }
}

/// The calls of a terminal that can fault, by their functions.
#[derive(Clone, Copy, Debug, PartialEq, Eq)]
pub enum CallKind {
    WriteStyled = 1,
    CarriageReturn = 2,
    LineFeed = 3,
    ClearLine = 4,
    ClearUntilNewLine = 5,
    CursorHide = 6,
    CursorShow = 7,
    CursorUp = 8,
    CursorDown = 9,
    CursorLeft = 10,
    CursorRight = 11,
    Flush = 12,
}

impl CallKind {
    /// Its number, from 1 to 12.
    pub fn number(&self) -> u8
        ensures { result ≡ kind_number self.now }
    {
        let kind = *self;
        kind as u8
    }
}
