// The frames of a renderer.
use frame::FrameState;
use width::{RowHash, WidthRule};

mod sizes;

pub(crate) use sizes::{correct, taken_size};

// The frame that was finished last, the one that is being drawn, and a spare one for wrapping anew.
#[derive(Drop)]
pub(crate) struct Frames<C: WidthRule, R: RowHash> {
    pub(crate) last: FrameState<C, R>,
    pub(crate) current: FrameState<C, R>,
    pub(crate) spare: FrameState<C, R>,
}
