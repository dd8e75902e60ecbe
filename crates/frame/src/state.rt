// A frame of a terminal.
ghost use Rattle.std.specs.Prelude.{◌≡◌, true};
ghost use Rattle.layout.specs.Limits.{fits};
ghost use Rattle.frame.specs.Drafts.{frame_of, hashing};

use crate::draft::Draft;
use size::{Position, TerminalSize};
use std::marker::PhantomData;
use width::{RowHash, WidthRule};

mod marks;
mod reads;
mod resize;
mod writes;

/// The rows of a frame, by a width rule and a row hash. What it holds, finished now, keeps within 16,384 bytes, 1,024
/// runs and 256 rows.
#[derive(Drop)]
pub struct FrameState<C, R> {
    pub(crate) draft: Draft<R>,
    pub(crate) terminal_size: TerminalSize,
    pub(crate) expected_cursor_position: Option<Position>,
    pub(crate) rule: PhantomData<C>,
    ghost fitting: { fits (hashing 0 (λ h b. 0)) (frame_of draft) ≡ true },
}
