//! What is known of a row besides its texts.

/// A finished row's number of runs, its width in cells and its hash.
#[derive(Clone, Copy, Debug, PartialEq, Eq)]
pub struct RowInfo {
    pub runs: usize,
    pub width: u16,
    pub hash: u64,
}
