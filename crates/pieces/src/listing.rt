// The listing of one text.
use ansi::{AnsiAware, AnsiAwareChars, AnsiStrippable, Piece, read_utf8};
use hexadecimal::Hex;
use pen::colour_parameters;
use std::alloc::Global;
use std::fmt;
use std::fmt::Write;

// The pieces of a text, each with its place.
#[derive(Clone, Copy)]
struct Placed<'a>(AnsiAwareChars<'a>);

impl<'a> Iterator for Placed<'a> {
    type Item = (usize, Piece<'a>);

    ghost can_next = { λ _. Unit {0} };

    ghost remaining = { λ s. ⟦<AnsiAwareChars<'a> as Iterator>⟧.remaining s.0 };

    fn next(&mut self) -> Option<(usize, Piece<'a>)> {
        let place = self.0.place();
        Some((place, self.0.next()?))
    }
}

// What was read.
#[derive(Clone, Copy, Default)]
struct Counts {
    bytes: usize,
    escapes: usize,
    colours: usize,
    chars: usize,
}

impl fmt::Display for Counts {
    fn fmt<W: fmt::Write>(&self, f: &mut fmt::Formatter<W>) -> fmt::Result {
        let Counts {
            bytes,
            escapes,
            colours,
            chars,
        } = *self;
        let pieces = escapes.saturating_add(chars);
        write!(
            f,
            "read {bytes} bytes: {pieces} pieces, {escapes} escapes, {colours} colour sequences, {chars} characters"
        )
    }
}

// A line for each piece.
fn push_pieces(out: &mut String, text: &str) -> Result<Counts, fmt::Error> {
    let mut counts = Counts {
        bytes: text.len(),
        ..Counts::default()
    };
    for (place, piece) in Placed(text.ansi_aware_chars()) {
        match piece {
            Piece::Escape { text, .. } => {
                write!(out, "{place} escape {}", Hex(text.as_bytes()))?;
                if colour_parameters(text.as_bytes()).is_some() {
                    out.write_str(" colour")?;
                    counts.colours = counts.colours.saturating_add(1);
                }
                counts.escapes = counts.escapes.saturating_add(1);
            }
            Piece::Char(c) => {
                write!(out, "{place} char U+{:04X}", u32::from(c))?;
                counts.chars = counts.chars.saturating_add(1);
            }
        }
        out.write_str("\n")?;
    }
    Ok(counts)
}

// The text without its escapes. Controls are shown by their code points, so that the listing steers no terminal.
fn push_stripped(out: &mut String, text: &str) -> fmt::Result {
    out.write_str("text: ")?;
    for c in text.ansi_stripped_chars() {
        if c.is_control() && c != '\n' {
            write!(out, "<U+{:04X}>", u32::from(c))?;
        } else {
            write!(out, "{c}")?;
        }
    }
    out.write_str("\n")
}

fn push_text(out: &mut String, text: &str) -> fmt::Result {
    let counts = push_pieces(out, text)?;
    if text.is_empty() {
        out.write_str("empty text\n")?;
    } else {
        push_stripped(out, text)?;
    }
    writeln!(out, "{counts}")?;
    Ok(())
}

pub(crate) fn listing(heap: Global, text: &[u8]) -> Result<String, fmt::Error> {
    let mut out = String::new(heap);
    match read_utf8(text) {
        Ok(text) => push_text(&mut out, text)?,
        Err(refusal) => writeln!(out, "refused {refusal}")?,
    }
    Ok(out)
}
