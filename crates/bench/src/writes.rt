// Times the writing of a text to a frame.
use crate::rounds::{fastest, mixed, report};
use anyhow::anyhow;
use frame::FrameState;
use size::TerminalSize;
use style::StyleSheet;
use width::{Fnv, Table};

type Frame = FrameState<Table, Fnv>;

// The text is refused. With a FrameError in its place a round takes 3 in 100 more instructions.
#[derive(Clone, Copy, PartialEq)]
struct Refused;

// A frame of 80 columns is emptied, the text written, and the frame finished.
fn write(frame: &mut Frame, text: &str) -> Result<(), Refused> {
    frame.restart(TerminalSize::default());
    frame
        .write(text.as_bytes(), StyleSheet::empty())
        .map_err(|_| Refused)?;
    frame.finish();
    Ok(())
}

// The lengths of the rows, one after the other. A row's text in one piece is asked for by its number.
fn checksum(frame: &Frame) -> u64 {
    (0..frame.rows_len())
        .filter_map(|i| frame.row_text(i))
        .fold(0, |sum, text| mixed(sum, text.len() as u64))
}

pub(crate) fn measure(rt: &HostRuntime, text: &str, rounds: u32) -> anyhow::Result<()> {
    let mut frame: Frame = FrameState::new(rt.alloc(), TerminalSize::default())?;
    write(&mut frame, text).map_err(|_| anyhow!("the text is refused"))?;
    let sum = checksum(&frame);
    let least = fastest(rt, rounds, (), || {
        let _ = write(&mut frame, text);
    })?;
    report(rt, "write", sum, least)
}
