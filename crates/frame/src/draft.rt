// The rows of a frame while they are written.
ghost use Rattle.std.specs.Prelude.{◌≡◌, ℕ, ◌+◌, ◌-◌, ◌^◌, ◌<◌, ◌≤◌, true, false, not, ◌||◌, ltb, List, [], ◌∷◌, ◌++◌, length, if◌then◌else◌, nat_lt};
ghost use Rattle.std.proofs.Math.Utf8.{encode};
ghost use Rattle.ansi.specs.Pieces.{bytes, pieces};
ghost use Rattle.ansi.specs.Reading.{part};
ghost use Rattle.layout.specs.Tally.{Within, tally_of};
ghost use Rattle.layout.specs.Writing.{some, closed, carried, folding, newline, put, put_all, styled, ended, written, finished, fresh};
ghost use Rattle.store.specs.Piles.{runs_of};
ghost use Rattle.store.specs.Stores.{pile_of};
ghost use Rattle.style.specs.Styles.{is_plain};
ghost use Rattle.frame.specs.Drafts.{frame_of, joined_frame, added_frame, carried_to, hashing_by, rule_by};

use ansi::{AnsiAware, Piece};
use layout::{feed_piece, folds, open_hash};
use std::marker::PhantomData;
use store::Store;
use style::StyleSheet;
use width::{RowHash, WidthRule};

// What is stored, the style of the current run, and the open row's width and hash. A step asks that what it makes keeps
// within the limits, which no field can say: what that is differs from step to step. The columns are the terminal's, and
// kept once, in `FrameState`.
#[derive(Drop)]
pub(crate) struct Draft<R> {
    pub(crate) store: Store,
    pub(crate) style: StyleSheet,
    pub(crate) width: u16,
    pub(crate) hash: u64,
    pub(crate) hasher: PhantomData<R>,
}

impl<R: RowHash> Draft<R> {
    // Bytes join the current run, and make the open row so wide.
    fn carry(&mut self, text: &str, width: u16)
        requires { Within (tally_of (carried_to (hashing_by R.RowHash) text.now width (frame_of self.old))) }
        ensures { frame_of self.new ≡ carried_to (hashing_by R.RowHash) text.now width (frame_of self.old) }
    {
        self.hash = feed_piece::<R>(self.hash, text.as_bytes(), self.style);
        self.width = width;
        self.store.put(text).unwrap();
    }

    // The current run joins the open row if it has bytes or a style.
    fn join_run(&mut self)
        requires { some (frame_of self.old).text || not (is_plain self.old.style) ≡ true → runs_of (pile_of self.old.store) < 1024 }
        ensures { frame_of self.new ≡ joined_frame (frame_of self.old) }
    {
        if self.store.has_text() || !self.style.is_empty() {
            self.store.end_run(self.style).unwrap();
        }
    }

    // The open row's runs become a row.
    fn add_row(&mut self)
        requires { length (frame_of self.old).rows < 256 }
        ensures { frame_of self.new ≡ added_frame (frame_of self.old) }
    {
        self.store.end_row(self.width, self.hash).unwrap();
    }

    // The open row is closed; without runs it is added only if asked for.
    pub(crate) fn close_row(&mut self, always: bool)
        requires { Within (tally_of (closed (hashing_by R.RowHash) always (frame_of self.old))) }
        ensures { frame_of self.new ≡ closed (hashing_by R.RowHash) always (frame_of self.old) }
    {
        self.join_run();
        if always || self.store.has_runs() {
            self.add_row();
        }
        self.width = 0;
        self.hash = open_hash::<R>(self.style);
    }

    // The open row is closed where it has no room for so many cells.
    fn fold(&mut self, columns: u16, cells: u16)
        requires room { nat_lt (columns - self.old.width) cells ≡ true → Within (tally_of (closed (hashing_by R.RowHash) false (frame_of self.old))) }
        requires few { cells ≤ 2 }
        ensures value { frame_of self.new ≡ (if ltb (columns - self.old.width) cells then closed (hashing_by R.RowHash) false (frame_of self.old) else frame_of self.old) }
        ensures narrow { self.new.width + cells < 2 ^ 16 }
    {
        if folds(columns, self.width, cells) {
            self.close_row(false);
        }
    }

    // A character that is no newline goes to the row that has room for it.
    fn put_char<C: WidthRule>(&mut self, columns: u16, c: char)
        requires { Within (tally_of (carried (rule_by columns C.WidthRule R.RowHash) (encode c) (C.WidthRule.cells c) (folding (rule_by columns C.WidthRule R.RowHash) c (frame_of self.old)))) }
        ensures { frame_of self.new ≡ carried (rule_by columns C.WidthRule R.RowHash) (encode c) (C.WidthRule.cells c) (folding (rule_by columns C.WidthRule R.RowHash) c (frame_of self.old)) }
    {
        let cells = C::width(c) as u16;
        let mut buffer = [0; 4];
        let text = c.encode_utf8(&mut buffer);
        self.fold(columns, cells);
        self.carry(text, self.width + cells);
    }

    // A newline is fed to the row that it closes.
    fn put_newline(&mut self)
        requires { Within (tally_of (newline (hashing_by R.RowHash) (frame_of self.old))) }
        ensures { frame_of self.new ≡ newline (hashing_by R.RowHash) (frame_of self.old) }
    {
        self.hash = feed_piece::<R>(self.hash, b"\n", self.style);
        self.close_row(true);
    }

    // An escape sequence takes no cell.
    fn put_escape(&mut self, text: &str)
        requires { Within (tally_of (carried (hashing_by R.RowHash) text.now 0 (frame_of self.old))) }
        ensures { frame_of self.new ≡ carried (hashing_by R.RowHash) text.now 0 (frame_of self.old) }
    {
        self.carry(text, self.width);
    }

    fn put<C: WidthRule>(&mut self, columns: u16, piece: Piece)
        requires { Within (tally_of (put (rule_by columns C.WidthRule R.RowHash) (frame_of self.old) (part piece))) }
        ensures { frame_of self.new ≡ put (rule_by columns C.WidthRule R.RowHash) (frame_of self.old) (part piece.entry) }
    {
        match piece {
            Piece::Escape { text, .. } => self.put_escape(text),
            Piece::Char('\n') => self.put_newline(),
            Piece::Char(c) => self.put_char::<C>(columns, c),
        }
    }

    fn put_all<C: WidthRule>(&mut self, columns: u16, text: &str)
        requires { Within (tally_of (put_all (rule_by columns C.WidthRule R.RowHash) (frame_of self.old) (pieces text.now))) }
        ensures { frame_of self.new ≡ put_all (rule_by columns C.WidthRule R.RowHash) (frame_of self.old) (pieces text.now) }
    {
        for piece in text.ansi_aware_chars() {
            self.put::<C>(columns, piece);
        }
    }

    // A current run with bytes joins the open row.
    fn end_run(&mut self)
        requires { Within (tally_of (ended (frame_of self.old))) }
        ensures { frame_of self.new ≡ ended (frame_of self.old) }
    {
        if self.store.has_text() {
            self.store.end_run(self.style).unwrap();
            self.style = StyleSheet::empty();
        }
    }

    // A text is written under a style.
    pub(crate) fn write<C: WidthRule>(&mut self, columns: u16, text: &str, style: StyleSheet)
        requires { Within (tally_of (written (rule_by columns C.WidthRule R.RowHash) style text.now (frame_of self.old))) }
        ensures { frame_of self.new ≡ written (rule_by columns C.WidthRule R.RowHash) style text.now (frame_of self.old) }
    {
        self.style = style;
        self.put_all::<C>(columns, text);
        self.end_run();
    }

    // The open row is closed, and the style becomes plain.
    pub(crate) fn finish(&mut self)
        requires { Within (tally_of (closed (hashing_by R.RowHash) false (frame_of self.old))) }
        ensures { frame_of self.new ≡ finished (hashing_by R.RowHash) (frame_of self.old) }
    {
        self.close_row(false);
        self.style = StyleSheet::empty();
        self.hash = R::begin();
    }

    pub(crate) fn clear(&mut self)
        ensures { frame_of self.new ≡ fresh (hashing_by R.RowHash) [] }
    {
        self.store.clear();
        self.style = StyleSheet::empty();
        self.width = 0;
        self.hash = R::begin();
    }
}
