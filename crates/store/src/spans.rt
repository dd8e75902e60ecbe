//! Parts of a store's lists, by indices: with a list of its own a run or a row would have to allocate, and all memory is
//! reserved at opening.

use style::StyleSheet;

/// A run: a part of the bytes, under one style.
#[derive(Clone, Copy)]
pub struct Span {
    pub from: usize,
    pub to: usize,
    pub style: StyleSheet,
}

/// A row: a part of the runs.
#[derive(Clone, Copy)]
pub struct RowSpan {
    pub from: usize,
    pub to: usize,
    pub width: u16,
    pub hash: u64,
}
