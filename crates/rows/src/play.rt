// A script, call by call.
use crate::fault::Fault;
use crate::styles::Words;
use frame::{FrameError, FrameState, Row};
use hexadecimal::{Hex, decode};
use size::{Position, TerminalSize};
use std::alloc::{AllocError, Global};
use std::fmt;
use std::fmt::Write;
use style::StyleSheet;
use width::{Fnv, Table};

type Frame = FrameState<Table, Fnv>;

// One line of a script.
#[derive(Drop)]
enum Call<'a> {
    Script(&'a str),
    Size(u16, u16),
    Write(StyleSheet, Vec<u8>),
    Mark(isize),
    Finish,
}

impl<'a> Call<'a> {
    fn read(heap: Global, line: &'a str) -> Result<Call<'a>, Fault> {
        let mut words = line.split(' ');
        match (words.next(), words.next(), words.next(), words.next()) {
            (Some("script"), Some(name), None, _) => Ok(Call::Script(name)),
            (Some("size"), Some(w), Some(h), None) => Ok(Call::Size(w.parse()?, h.parse()?)),
            (Some("write"), Some(style), Some(text), None) => {
                let Words(style) = style.parse()?;
                let text = decode(heap, text)?.ok_or(Fault::NotUnderstood)?;
                Ok(Call::Write(style, text))
            }
            (Some("mark"), Some(offset), None, _) => Ok(Call::Mark(offset.parse()?)),
            (Some("finish"), None, _, _) => Ok(Call::Finish),
            _ => Err(Fault::NotUnderstood),
        }
    }
}

// Why a call is refused.
#[derive(Clone, Copy)]
enum Refused {
    NoSize,
    Frame(FrameError),
}

impl From<FrameError> for Refused {
    fn from(error: FrameError) -> Refused {
        Refused::Frame(error)
    }
}

impl fmt::Display for Refused {
    fn fmt<W: fmt::Write>(&self, f: &mut fmt::Formatter<W>) -> fmt::Result {
        match self {
            Refused::NoSize => f.write_str("fault 5"),
            Refused::Frame(error) => write!(f, "refused {error}"),
        }
    }
}

// Finished row `i` of a frame, as a line.
#[derive(Clone, Copy)]
struct Line<'a>(usize, Row<'a>);

impl fmt::Display for Line<'_> {
    fn fmt<W: fmt::Write>(&self, f: &mut fmt::Formatter<W>) -> fmt::Result {
        let Line(i, row) = *self;
        write!(f, "row {i} width {} hash {:016x}", row.width, row.hash)?;
        for (text, style) in row.runs {
            write!(f, " run {} {}", Words(style), Hex(text.as_bytes()))?;
        }
        f.write_str("\n")
    }
}

#[derive(Drop)]
struct Session {
    frame: Frame,
    spare: Frame,
    out: String,
    calls: usize,
    refused: usize,
}

impl Session {
    fn open(heap: Global) -> Result<Session, AllocError> {
        Ok(Session {
            frame: FrameState::new(heap, TerminalSize::default())?,
            spare: FrameState::new(heap, TerminalSize::default())?,
            out: String::new(heap),
            calls: 0,
            refused: 0,
        })
    }

    fn refuse(&mut self, name: &str, refused: Refused) -> fmt::Result {
        self.refused = self.refused.saturating_add(1);
        writeln!(self.out, "{name} {refused}")?;
        Ok(())
    }

    fn resize(&mut self, w: u16, h: u16) -> Result<(), Refused> {
        let size = TerminalSize::new(w, h).ok_or(Refused::NoSize)?;
        self.frame.resize_if_needed(size, &mut self.spare)?;
        Ok(())
    }

    fn finish(&mut self) -> fmt::Result {
        self.frame.finish();
        self.out.write_str("finish 0\n")?;
        for (i, row) in self.frame.rows().enumerate() {
            write!(self.out, "{}", Line(i, row))?;
        }
        let size = self.frame.terminal_size();
        self.frame.restart(size);
        Ok(())
    }

    fn play(&mut self, call: Call) -> fmt::Result {
        self.calls = self.calls.saturating_add(1);
        match call {
            Call::Script(name) => {
                self.frame.restart(TerminalSize::default());
                writeln!(self.out, "script {name}")?;
            }
            Call::Size(w, h) => match self.resize(w, h) {
                Ok(()) => self.out.write_str("size 0\n")?,
                Err(refused) => self.refuse("size", refused)?,
            },
            Call::Write(style, text) => match self.frame.write(text.as_slice(), style) {
                Ok(()) => self.out.write_str("write 0\n")?,
                Err(error) => self.refuse("write", error.into())?,
            },
            Call::Mark(offset) => match self.frame.mark_cursor_position(offset) {
                Ok(Position { row, col }) => writeln!(self.out, "mark 0 {row} {col}")?,
                Err(error) => self.refuse("mark", error.into())?,
            },
            Call::Finish => self.finish()?,
        }
        Ok(())
    }
}

// The answers to a script, and a line that counts what was done.
pub(crate) fn answers(heap: Global, script: &str) -> anyhow::Result<String> {
    let mut session = Session::open(heap)?;
    // counted here, since to go over the script once more takes a twentieth more instructions
    let mut lines: usize = 0;
    for line in script.lines() {
        lines = lines.saturating_add(1);
        match Call::read(heap, line) {
            Ok(call) => session.play(call)?,
            Err(Fault::NotUnderstood) => writeln!(session.out, "line {lines} not understood")?,
            Err(Fault::Memory(error)) => return Err(error.into()),
        }
    }
    let Session {
        frame: _,
        spare: _,
        mut out,
        calls,
        refused,
    } = session;
    writeln!(
        out,
        "played {calls} calls of {lines} lines, {refused} refused"
    )?;
    Ok(out)
}
