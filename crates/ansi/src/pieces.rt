// The pieces of a text, and the two iterators over them.
ghost use Rattle.std.specs.Prelude.{◌≡◌, ◌≤◌, ℕ, List, length, string_bytes, MatchResult};
ghost use Rattle.ansi.specs.Refusals.{NotText};
ghost use Rattle.std.specs.Iterator.{at_most};

use crate::matcher::{behind_sequence, first};
use crate::refusal::{Refusal, read_utf8};
use std::convert::AsStr;

/// An escape sequence, as the part of the text that it is and its place there, or a character.
#[derive(Clone, Copy)]
pub enum Piece<'a> {
    Escape { text: &'a str, place: usize },
    Char(char),
}

/// An iterator over the pieces of a text.
#[derive(Clone, Copy)]
pub struct AnsiAwareChars<'a> {
    // what is unread
    input: &'a str,
    // how long the whole text is
    len: usize,
    ghost within: { length input.now ≤ len },
}

impl<'a> AnsiAwareChars<'a> {
    ghost use Rattle.ansi.specs.Reading.{Reads, placed};

    fn of(input: &'a str) -> AnsiAwareChars<'a>
        ensures { Reads input.now result }
    {
        AnsiAwareChars {
            input,
            len: input.len(),
        }
    }

    /// The pieces of a text that comes as bytes; refused where they are not UTF-8.
    pub fn new(text: &'a [u8]) -> Result<AnsiAwareChars<'a>, Refusal>
        ensures { MatchResult result (Reads text.now) (NotText text.now) }
    {
        Ok(AnsiAwareChars::of(read_utf8(text)?))
    }

    /// The place in the text at which the next piece begins.
    pub fn place(&self) -> usize
        ensures { result ≡ placed self.now }
    {
        self.len - self.input.len()
    }
}

impl<'a> Iterator for AnsiAwareChars<'a> {
    ghost use Rattle.ansi.specs.Reading.{unread, AwareSteps};

    type Item = Piece<'a>;

    ghost can_next = { λ _. Unit {0} };

    ghost next_gives = { AwareSteps };

    ghost remaining = { λ s. at_most (length (unread s)) };

    #[inline]
    #[tactic(auto, using(crate::proofs::Takes::cut, crate::proofs::Takes::takes_escape, crate::proofs::Takes::takes_letter))]
    fn next(&mut self) -> Option<Piece<'a>> {
        let input = self.input;
        let (c, rest) = first(input)?;
        if c != '\x1B' {
            self.input = rest;
            return Some(Piece::Char(c));
        }
        let place = self.place();
        self.input = behind_sequence(input);
        let text = &input[..input.len() - self.input.len()];
        Some(Piece::Escape { text, place })
    }
}

/// An iterator over the characters of a text without its escape sequences.
#[derive(Clone, Copy)]
pub struct AnsiStrippedChars<'a> {
    // what is unread
    input: &'a str,
}

impl<'a> AnsiStrippedChars<'a> {
    ghost use Rattle.ansi.specs.Reading.{Strips};

    fn of(input: &'a str) -> AnsiStrippedChars<'a>
        ensures { Strips input.now result }
    {
        AnsiStrippedChars { input }
    }

    /// The characters of a text that comes as bytes; refused where they are not UTF-8.
    pub fn new(text: &'a [u8]) -> Result<AnsiStrippedChars<'a>, Refusal>
        ensures { MatchResult result (Strips text.now) (NotText text.now) }
    {
        Ok(AnsiStrippedChars::of(read_utf8(text)?))
    }
}

impl<'a> Iterator for AnsiStrippedChars<'a> {
    ghost use Rattle.ansi.specs.Reading.{StrippedSteps};

    type Item = char;

    ghost can_next = { λ _. Unit {0} };

    ghost next_gives = { StrippedSteps };

    ghost remaining = { λ s. at_most (length s.input.now) };

    #[tactic(auto, using(crate::proofs::Takes::letters_behind, crate::proofs::Takes::letters_next))]
    fn next(&mut self) -> Option<char> {
        while let Some((c, rest)) = first(self.input) {
            if c != '\x1B' {
                self.input = rest;
                return Some(c);
            }
            self.input = behind_sequence(self.input);
        }
        None
    }
}

/// Constructs an iterator over the characters of a text, its escape sequences left out.
pub trait AnsiStrippable {
    ghost use Rattle.ansi.specs.Reading.{Strips};

    ghost stripped: { Self → List ℕ };

    fn ansi_stripped_chars(&self) -> AnsiStrippedChars<'_>
        ensures { Strips (stripped self.now) result };
}

impl<T: AsStr> AnsiStrippable for T {
    ghost stripped = { T.text };

    fn ansi_stripped_chars(&self) -> AnsiStrippedChars<'_> {
        AnsiStrippedChars::of(self.as_str())
    }
}

/// Constructs an iterator over the pieces of a text.
pub trait AnsiAware {
    ghost use Rattle.ansi.specs.Reading.{Reads};

    ghost text: { Self → List ℕ };

    fn ansi_aware_chars(&self) -> AnsiAwareChars<'_>
        ensures { Reads (text self.now) result };
}

impl<T: AsStr> AnsiAware for T {
    ghost text = { T.text };

    fn ansi_aware_chars(&self) -> AnsiAwareChars<'_> {
        AnsiAwareChars::of(self.as_str())
    }
}
