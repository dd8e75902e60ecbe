// Styles as words: `-`, or `fg=X`, `bg=X`, `bold` and `italic` joined by commas.
use crate::fault::Fault;
use std::fmt;
use std::str::FromStr;
use style::{Attributes, Color, StyleSheet};

// The colours that have a name.
const NAMES: [(&str, Color); 16] = [
    ("Black", Color::Black),
    ("LightRed", Color::LightRed),
    ("DarkRed", Color::DarkRed),
    ("LightGreen", Color::LightGreen),
    ("DarkGreen", Color::DarkGreen),
    ("LightYellow", Color::LightYellow),
    ("DarkYellow", Color::DarkYellow),
    ("LightBlue", Color::LightBlue),
    ("DarkBlue", Color::DarkBlue),
    ("LightMagenta", Color::LightMagenta),
    ("DarkMagenta", Color::DarkMagenta),
    ("LightCyan", Color::LightCyan),
    ("DarkCyan", Color::DarkCyan),
    ("White", Color::White),
    ("Grey", Color::Grey),
    ("DarkGrey", Color::DarkGrey),
];

// A colour as a word: a name, `n:N` or `rgb:R:G:B`.
#[derive(Clone, Copy)]
struct Shade(Color);

impl FromStr for Shade {
    type Err = Fault;

    fn from_str(word: &str) -> Result<Shade, Fault> {
        if let Some(n) = word.strip_prefix("n:") {
            return Ok(Shade(Color::AnsiValue(n.parse()?)));
        }
        if let Some(parts) = word.strip_prefix("rgb:") {
            let mut parts = parts.split(':');
            return match (parts.next(), parts.next(), parts.next(), parts.next()) {
                (Some(r), Some(g), Some(b), None) => {
                    Ok(Shade(Color::rgb(r.parse()?, g.parse()?, b.parse()?)))
                }
                _ => Err(Fault::NotUnderstood),
            };
        }
        NAMES
            .iter()
            .find(|(name, _)| *name == word)
            .map(|(_, color)| Shade(*color))
            .ok_or(Fault::NotUnderstood)
    }
}

impl fmt::Display for Shade {
    fn fmt<W: fmt::Write>(&self, f: &mut fmt::Formatter<W>) -> fmt::Result {
        match self.0 {
            Color::Rgb { r, g, b } => write!(f, "rgb:{r}:{g}:{b}"),
            Color::AnsiValue(n) => write!(f, "n:{n}"),
            named => write!(f, "{named:?}"),
        }
    }
}

// A word of a style.
#[derive(Clone, Copy)]
enum Word {
    Fg(Shade),
    Bg(Shade),
    Bold,
    Italic,
}

impl FromStr for Word {
    type Err = Fault;

    fn from_str(word: &str) -> Result<Word, Fault> {
        match (word.split_once('='), word) {
            (Some(("fg", color)), _) => Ok(Word::Fg(color.parse()?)),
            (Some(("bg", color)), _) => Ok(Word::Bg(color.parse()?)),
            (_, "bold") => Ok(Word::Bold),
            (_, "italic") => Ok(Word::Italic),
            _ => Err(Fault::NotUnderstood),
        }
    }
}

impl fmt::Display for Word {
    fn fmt<W: fmt::Write>(&self, f: &mut fmt::Formatter<W>) -> fmt::Result {
        match self {
            Word::Fg(color) => write!(f, "fg={color}"),
            Word::Bg(color) => write!(f, "bg={color}"),
            Word::Bold => f.write_str("bold"),
            Word::Italic => f.write_str("italic"),
        }
    }
}

impl Word {
    // The style with this word more.
    fn added_to(self, style: StyleSheet) -> StyleSheet {
        match self {
            Word::Fg(Shade(color)) => style.with_fg(color),
            Word::Bg(Shade(color)) => style.with_bg(color),
            Word::Bold => style.with_attr(style.att | Attributes::BOLD),
            Word::Italic => style.with_attr(style.att | Attributes::ITALIC),
        }
    }
}

// A style as words.
#[derive(Clone, Copy)]
pub(crate) struct Words(pub(crate) StyleSheet);

impl FromStr for Words {
    type Err = Fault;

    fn from_str(words: &str) -> Result<Words, Fault> {
        let mut style = StyleSheet::empty();
        if words != "-" {
            for word in words.split(',') {
                style = word.parse::<Word>()?.added_to(style);
            }
        }
        Ok(Words(style))
    }
}

impl fmt::Display for Words {
    fn fmt<W: fmt::Write>(&self, f: &mut fmt::Formatter<W>) -> fmt::Result {
        let StyleSheet { fg, bg, att } = self.0;
        let words = [
            fg.map(|color| Word::Fg(Shade(color))),
            bg.map(|color| Word::Bg(Shade(color))),
            att.contains(Attributes::BOLD).then_some(Word::Bold),
            att.contains(Attributes::ITALIC).then_some(Word::Italic),
        ];
        let mut words = words.into_iter().flatten();
        let Some(first) = words.next() else {
            return f.write_str("-");
        };
        write!(f, "{first}")?;
        for word in words {
            write!(f, ",{word}")?;
        }
        Ok(())
    }
}
