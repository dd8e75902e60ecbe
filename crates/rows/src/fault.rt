// Why a line of a script is not played.
use std::alloc::AllocError;
use std::num::ParseIntError;

#[derive(Clone, Copy)]
pub(crate) enum Fault {
    NotUnderstood,
    Memory(AllocError),
}

impl From<ParseIntError> for Fault {
    fn from(_error: ParseIntError) -> Fault {
        Fault::NotUnderstood
    }
}

impl From<AllocError> for Fault {
    fn from(error: AllocError) -> Fault {
        Fault::Memory(error)
    }
}
