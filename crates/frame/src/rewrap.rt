// Wrapping a draft anew, for other columns.
ghost use Rattle.std.specs.Prelude.{◌≡◌, ◌+◌, true, [], ◌∷◌, length, fold};
ghost use Rattle.layout.specs.Frames.{Frame, Rule};
ghost use Rattle.layout.specs.Tally.{Within, tally_of};
ghost use Rattle.layout.specs.Writing.{run, closed, fresh, rewrite_run, rewrapped};
ghost use Rattle.store.specs.Walks.{runs_left};
ghost use Rattle.frame.specs.Counts.{counts_of, Room};
ghost use Rattle.frame.specs.Drafts.{frame_of, rule_by};
ghost use Rattle.frame.specs.Rewraps.{Tells, MeasuresRuns, Spread, runs_room};

use crate::draft::Draft;
use crate::tally::{Counts, measure};
use store::Runs;
use style::StyleSheet;
use width::{RowHash, WidthRule};

// Counting a frame anew and storing it go over the same rows, in functions of their own: one function over what is done
// with a run would have to carry the contracts of both.

// The counts of a frame, and whether its style is plain.
#[derive(Clone, Copy)]
pub(crate) struct Measured {
    pub(crate) counts: Counts,
    pub(crate) bare: bool,
}

impl Measured {
    fn fresh() -> Measured
        ensures { (k : Rule) → Tells result (fresh k []) }
    {
        Measured {
            counts: Counts {
                rows: 0,
                runs: 0,
                bytes: 0,
                begun: false,
                text: false,
                width: 0,
            },
            bare: true,
        }
    }

    // One run more.
    fn write<C: WidthRule>(self, columns: u16, text: &str, style: StyleSheet) -> Measured
        requires { Room (2 + length text.now) self.counts }
        ensures { MeasuresRuns columns C.WidthRule.cells (run text.now style ∷ []) self result }
    {
        let bare = style.is_empty();
        let end = measure::<C>(self.counts, columns, bare, text);
        Measured {
            counts: end.end_run(),
            bare: end.text || bare,
        }
    }

    // More runs.
    fn write_runs<C: WidthRule>(self, columns: u16, runs: Runs) -> Measured
        requires { Room (1 + runs_room (runs_left runs)) self.counts }
        ensures { MeasuresRuns columns C.WidthRule.cells (runs_left runs.entry) self result }
    {
        let mut end = self;
        for (text, style) in runs {
            end = end.write::<C>(columns, text, style);
        }
        end
    }

    // The open row closed.
    fn close_row(self) -> Measured
        requires { Room 1 self.counts }
        ensures value { (k : Rule) (f : Frame) → Tells self f → Tells result (closed k true f) }
        ensures spread { Spread 1 (counts_of self.counts) (counts_of result.counts) }
    {
        Measured {
            counts: self.counts.close_row(self.bare, true),
            bare: self.bare,
        }
    }
}

impl<R: RowHash> Draft<R> {
    // The counts of the draft wrapped anew.
    pub(crate) fn measure_rewrap<C: WidthRule>(&self, columns: u16) -> Counts
        ensures value { counts_of result ≡ tally_of (rewrapped (rule_by columns C.WidthRule R.RowHash) (frame_of self.now)) }
        ensures room { Room 1 result }
    {
        let mut end = Measured::fresh();
        for row in self.store.rows() {
            end = end.write_runs::<C>(columns, row.runs).close_row();
        }
        end.write_runs::<C>(columns, self.store.open_row()).counts
    }

    // More runs are written.
    fn write_runs<C: WidthRule>(&mut self, columns: u16, runs: Runs)
        requires { Within (tally_of (fold (rewrite_run (rule_by columns C.WidthRule R.RowHash)) (frame_of self.old) (runs_left runs))) }
        ensures { frame_of self.new ≡ fold (rewrite_run (rule_by columns C.WidthRule R.RowHash)) (frame_of self.old) (runs_left runs.entry) }
    {
        for (text, style) in runs {
            self.write::<C>(columns, text, style);
        }
    }

    // The draft becomes another one, wrapped anew.
    pub(crate) fn rewrite<C: WidthRule>(&mut self, columns: u16, from: &Draft<R>)
        requires { Within (tally_of (rewrapped (rule_by columns C.WidthRule R.RowHash) (frame_of from.now))) }
        ensures { frame_of self.new ≡ rewrapped (rule_by columns C.WidthRule R.RowHash) (frame_of from.now) }
    {
        self.clear();
        for row in from.store.rows() {
            self.write_runs::<C>(columns, row.runs);
            self.close_row(true);
        }
        self.write_runs::<C>(columns, from.store.open_row());
        self.style = from.style;
    }
}
