// What a frame would hold, counted before anything is stored. The steps are those of `Draft`, which stores: there on a frame,
// here on counts, and each has its own contract.
ghost use Rattle.std.specs.Prelude.{◌≡◌, ℕ, ◌+◌, ◌-◌, ◌^◌, ◌<◌, ◌≤◌, false, List, length, if◌then◌else◌, nat_lt};
ghost use Rattle.ansi.specs.Pieces.{bytes, pieces};
ghost use Rattle.ansi.specs.Reading.{part};
ghost use Rattle.layout.specs.Tally.{tally_closed, tally_carried, tally_put, tally_all, tally_ended, tally_fits};
ghost use Rattle.frame.specs.Counts.{counts_of, Room, Grows, counting};

use ansi::{AnsiAware, Piece};
use layout::{closing_adds, folds, within_limits};
use width::WidthRule;

// Finished rows, runs and bytes of a frame, whether its open row has runs and its current run bytes, and the open
// row's width. Whether the style is plain is no field: a text does not change it, which each step would have to promise.
// How much room a step needs is no ghost field: it differs from step to step.
#[derive(Clone, Copy)]
pub(crate) struct Counts {
    pub(crate) rows: usize,
    pub(crate) runs: usize,
    pub(crate) bytes: usize,
    pub(crate) begun: bool,
    pub(crate) text: bool,
    pub(crate) width: u16,
}

impl Counts {
    // The open row closed, under a style that is plain or not.
    pub(crate) fn close_row(self, bare: bool, always: bool) -> Counts
        requires { Room 1 self }
        ensures { counts_of result ≡ tally_closed bare always (counts_of self) }
    {
        let joins = self.text || !bare;
        Counts {
            rows: if closing_adds(always, self.begun, self.text, bare) {
                self.rows + 1
            } else {
                self.rows
            },
            runs: if joins { self.runs + 1 } else { self.runs },
            bytes: self.bytes,
            begun: false,
            text: false,
            width: 0,
        }
    }

    // Whether a frame with these counts, finished now, keeps within the limits.
    pub(crate) fn fits(self, bare: bool) -> bool
        requires { Room 1 self }
        ensures { result ≡ tally_fits bare (counts_of self) }
    {
        let end = self.close_row(bare, false);
        within_limits(self.bytes, end.runs, end.rows)
    }

    // The current run joins the open row if it has bytes.
    pub(crate) fn end_run(self) -> Counts
        requires { Room 1 self }
        ensures { counts_of result ≡ tally_ended (counts_of self) }
    {
        if self.text {
            Counts {
                runs: self.runs + 1,
                begun: true,
                text: false,
                ..self
            }
        } else {
            self
        }
    }

    // Bytes of some cells more in the current run.
    fn carry(self, len: usize, cells: u16) -> Counts
        requires room { Room len self }
        requires narrow { self.width + cells < 2 ^ 16 }
        requires some { 0 < len }
        ensures { (bs : List ℕ) → length bs ≡ len → counts_of result ≡ tally_carried bs cells (counts_of self) }
    {
        Counts {
            bytes: self.bytes + len,
            text: true,
            width: self.width + cells,
            ..self
        }
    }

    // The row that carries a character of some cells: a new one where the open one has no room for it.
    fn fold(self, columns: u16, bare: bool, cells: u16) -> Counts
        requires room { Room 1 self }
        requires cells_bound { cells ≤ 2 }
        ensures value { counts_of result ≡ (if nat_lt (columns - self.width) cells then tally_closed bare false (counts_of self) else counts_of self) }
        ensures grows { Grows 0 self result }
        ensures narrow { result.width + cells < 2 ^ 16 }
    {
        if folds(columns, self.width, cells) {
            self.close_row(bare, false)
        } else {
            self
        }
    }

    // One piece more.
    fn put<C: WidthRule>(self, columns: u16, bare: bool, piece: Piece) -> Counts
        requires room { Room (1 + length (bytes (part piece))) self }
        requires nonzero { 0 < length (bytes (part piece)) }
        ensures value { counts_of result ≡ tally_put (counting columns C.WidthRule.cells) bare (counts_of self) (part piece.entry) }
        ensures grows { Grows (length (bytes (part piece.entry))) self result }
    {
        match piece {
            Piece::Escape { text, .. } => self.carry(text.len(), 0),
            Piece::Char('\n') => self.close_row(bare, true),
            Piece::Char(c) => {
                let cells = C::width(c) as u16;
                self.fold(columns, bare, cells).carry(c.len_utf8(), cells)
            }
        }
    }
}

// The counts after a text.
pub(crate) fn measure<C: WidthRule>(start: Counts, columns: u16, bare: bool, text: &str) -> Counts
    requires { Room (1 + length text.now) start }
    ensures value { counts_of result ≡ tally_all (counting columns C.WidthRule.cells) bare (counts_of start) (pieces text.now) }
    ensures room { Room 1 result }
{
    let mut counts = start;
    for piece in text.ansi_aware_chars() {
        counts = counts.put::<C>(columns, bare, piece);
    }
    counts
}
