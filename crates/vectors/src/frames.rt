// The Rust's answers on the rows of a frame that holds one text.
use frame::FrameState;
use hexadecimal::decode;
use size::TerminalSize;
use std::alloc::{AllocError, Global};
use style::{Attributes, StyleSheet};
use width::{Fnv, Table};

type Frame = FrameState<Table, Fnv>;

// Whether row `i` is this word: the width and, behind a colon, the bytes in hex.
fn row_agrees(heap: Global, word: &str, frame: &Frame, i: usize) -> Result<bool, AllocError> {
    let mut parts = word.split(':');
    let (Some(width), Some(bytes)) = (parts.next(), parts.next()) else {
        return Ok(false);
    };
    let (Some(row), Some(text), Some(bytes)) = (
        frame.row(i),
        frame.row_text(i),
        decode(heap, bytes)?,
    ) else {
        return Ok(false);
    };
    Ok(width.parse::<u16>().ok() == Some(row.width) && bytes.as_slice() == text.as_bytes())
}

fn rows_agree(heap: Global, answer: &str, frame: &Frame) -> Result<bool, AllocError> {
    if answer == "-" {
        return Ok(frame.rows_len() == 0);
    }
    for (i, word) in answer.split(' ').enumerate() {
        if !row_agrees(heap, word, frame, i)? {
            return Ok(false);
        }
    }
    Ok(answer.split(' ').count() == frame.rows_len())
}

fn read_style(word: &str) -> StyleSheet {
    if word == "bold" {
        StyleSheet::empty().with_attr(Attributes::BOLD)
    } else {
        StyleSheet::empty()
    }
}

// Whether the text of a line, in hex, has these rows at so many columns.
pub(crate) fn agrees(heap: Global, line: &str) -> anyhow::Result<bool> {
    let mut fields = line.split('\t');
    let (Some(columns), Some(style)) = (fields.next(), fields.next()) else {
        return Ok(false);
    };
    let Some(size) = TerminalSize::new(columns.parse::<u16>()?, 24) else {
        return Ok(false);
    };
    let (Some(text), Some(rows)) = (fields.next(), fields.next()) else {
        return Ok(false);
    };
    let Some(text) = decode(heap, text)? else {
        return Ok(false);
    };
    let mut frame: Frame = FrameState::new(heap, size)?;
    if frame.write(text.as_slice(), read_style(style)).is_err() {
        return Ok(false);
    }
    frame.finish();
    Ok(rows_agree(heap, rows, &frame)?)
}
