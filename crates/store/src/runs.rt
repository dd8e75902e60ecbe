//! The runs of a row.

ghost use Rattle.std.specs.Prelude.{◌≡◌, ◌<◌, length, Decides};
ghost use Rattle.std.specs.Iterator.{YieldsFirstBy, item_count};
ghost use Rattle.store.specs.Piles.{Finds, joined};
ghost use Rattle.store.specs.Spans.{RunsIn, Cuts, Joins};

use crate::spans::Span;
use style::StyleSheet;

/// The runs of a row that are still to come, each a text and its style.
#[derive(Clone, Copy)]
pub struct Runs<'a> {
    pub(crate) bytes: &'a str,
    pub(crate) spans: &'a [Span],
    ghost within: { RunsIn spans.now (length bytes.now) },
    ghost cuts: { Cuts bytes.now spans.now },
    ghost joins: { Joins spans.now },
}

impl<'a> Runs<'a> {
    ghost use Rattle.store.specs.Walks.{runs_left};

    /// How many there are.
    pub(crate) fn len(&self) -> usize
        ensures { result ≡ length (runs_left self.now) }
    {
        self.spans.len()
    }

    /// Run `k` of them.
    pub(crate) fn get(&self, k: usize) -> Option<(&'a str, StyleSheet)>
        ensures { Finds (runs_left self.now) k result }
    {
        let span = self.spans.get(k)?;
        Some((&self.bytes[span.from..span.to], span.style))
    }

    /// Their texts, joined.
    pub(crate) fn text(&self) -> &'a str
        ensures { result.now ≡ joined (runs_left self.now) }
    {
        let (Some(first), Some(last)) = (self.spans.first(), self.spans.last()) else {
            return "";
        };
        &self.bytes[first.from..last.to]
    }

    /// Whether they are those of `other`: in number, and each in text and style. A method and no `==`, whose laws nothing needs.
    pub(crate) fn same(&self, other: &Runs<'_>) -> bool
        ensures { Decides result (runs_left self.now ≡ runs_left other.now) }
    {
        let here = *self;
        here.eq(*other)
    }
}

impl<'a> Iterator for Runs<'a> {
    ghost use Rattle.store.specs.Walks.{run_of, runs_left};

    type Item = (&'a str, StyleSheet);

    ghost next_gives = { YieldsFirstBy run_of runs_left };

    ghost remaining = { item_count runs_left };

    fn next(&mut self) -> Option<(&'a str, StyleSheet)> {
        let (span, rest) = self.spans.split_first()?;
        self.spans = rest;
        Some((&self.bytes[span.from..span.to], span.style))
    }
}
