// Why a drawing stops.
ghost use Rattle.std.specs.Prelude.{◌≡◌};

use terminal::{CallKind, Fault};

/// The first fault of a drawing: the call that faulted, and the row that it was made for, if it was for one.
#[derive(Clone, Copy, Debug, PartialEq)]
pub struct DrawError {
    pub fault: Fault,
    pub call: CallKind,
    pub row: Option<usize>,
}

impl DrawError {
    ghost use Rattle.drawing.specs.Tries.{drawn};

    // The answer of a call that is made for a row, or for none.
    pub(crate) fn check(
        answer: Result<(), Fault>,
        call: CallKind,
        row: Option<usize>,
    ) -> Result<(), DrawError>
        ensures { result ≡ drawn answer call row }
    {
        answer.map_err(|fault| DrawError { fault, call, row })
    }
}
