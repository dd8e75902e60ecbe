// The states of a renderer. They are types, so that calls out of order do not compile; that two of them have the same
// fields makes them no twins.
use crate::frames::Frames;
use size::Position;
use terminal::Terminal;
use width::RowHash;

/// A renderer between two frames.
pub struct Resting<T: Terminal, R: RowHash> {
    pub(crate) terminal: T,
    pub(crate) cursor_position: Position,
    pub(crate) frames: Frames<T::Width, R>,
}

/// A renderer with a frame that is being drawn.
pub struct Drawing<T: Terminal, R: RowHash> {
    pub(crate) terminal: T,
    pub(crate) cursor_position: Position,
    pub(crate) frames: Frames<T::Width, R>,
}

/// A renderer of which a drawing broke off: it no longer knows what the page shows.
pub struct Lost<T: Terminal, R: RowHash> {
    pub(crate) terminal: T,
    pub(crate) frames: Frames<T::Width, R>,
}

/// What opening hands out and closing takes back. Neither it nor a renderer can be let go, so a program that forgets to
/// close does not compile.
pub struct Receipt {}
