// Texts in hex, one a line, each answered by a line.
ghost use Rattle.std.specs.Iterator.{IsFinite};

use ansi::{Piece, Refusal};
use hexadecimal::{Hex, decode};
use std::alloc::Global;
use std::fmt;
use std::fmt::Write;

// A piece as a word: `E:` and its bytes in hex, or `C:` and its code point.
#[derive(Clone, Copy)]
pub(crate) struct Word<'a>(Piece<'a>);

impl<'a> From<Piece<'a>> for Word<'a> {
    fn from(piece: Piece<'a>) -> Word<'a> {
        Word(piece)
    }
}

impl From<char> for Word<'_> {
    fn from(c: char) -> Self {
        Word(Piece::Char(c))
    }
}

impl fmt::Display for Word<'_> {
    fn fmt<W: fmt::Write>(&self, f: &mut fmt::Formatter<W>) -> fmt::Result {
        match self.0 {
            Piece::Escape { text, .. } => write!(f, "E:{}", Hex(text.as_bytes())),
            Piece::Char(c) => write!(f, "C:{:x}", u32::from(c)),
        }
    }
}

// The words with a space between two, `-` where there is none.
fn push_words<'a, T: Into<Word<'a>>, I: Iterator<Item = T> + Drop>(
    out: &mut String,
    mut pieces: I,
) -> fmt::Result
    requires can { (s : I) → I.can_next s }
    requires ends { (s : I) → IsFinite (I.remaining s) }
{
    let Some(first) = pieces.next() else {
        return out.write_str("-");
    };
    write!(out, "{}", first.into())?;
    for piece in pieces {
        write!(out, " {}", piece.into())?;
    }
    Ok(())
}

// What a text is answered by: its pieces, or why it is refused.
pub(crate) fn push_answer<'a, T: Into<Word<'a>>, I: Iterator<Item = T> + Drop>(
    out: &mut String,
    pieces: Result<I, Refusal>,
) -> fmt::Result
    requires can { (s : I) → I.can_next s }
    requires ends { (s : I) → IsFinite (I.remaining s) }
{
    match pieces {
        Ok(pieces) => push_words(out, pieces),
        Err(refusal) => {
            // not as the refusal prints itself: a stored answer has no ` at `
            write!(out, "refused {} {}", refusal.number(), refusal.place())?;
            Ok(())
        }
    }
}

// A line for each line of the input.
pub(crate) fn answers<F: Fn(&mut String, &[u8]) -> fmt::Result>(
    heap: Global,
    input: &str,
    answer: F,
) -> anyhow::Result<String>
    requires { F.IsAlwaysCallable answer }
{
    let mut out = String::new(heap);
    for (number, line) in input.lines().enumerate() {
        match decode(heap, line)? {
            Some(text) => answer(&mut out, text.as_slice())?,
            None => write!(out, "line {} not understood", number.saturating_add(1))?,
        }
        out.push('\n')?;
    }
    Ok(out)
}
