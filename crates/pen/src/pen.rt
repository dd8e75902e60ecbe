// The pen that colour sequences steer.
ghost use Rattle.std.specs.Prelude.{◌≡◌, true, Some};
ghost use Rattle.pen.specs.Pens.{painted, coded, pen, told, after, numbers, steered, NumbersSteer};
ghost use Rattle.pen.specs.Sequences.{parameters};
ghost use Rattle.pen.specs.declared.pen.Expect.TheVariants.{Code};

use crate::sequence::colour_parameters;
use style::{Attributes, Color, StyleSheet};

// The two sides of a cell.
#[derive(Clone, Copy)]
pub(crate) enum Side {
    Fore,
    Back,
}

// What the next number of a colour sequence is.
#[derive(Clone, Copy)]
pub(crate) enum Expect {
    Code,
    Form(Side),
    Index(Side),
    Red(Side),
    Green(Side, u8),
    Blue(Side, u8, u8),
    Dropped,
}

// A style, and what the next number of a colour sequence does to it.
#[derive(Clone, Copy)]
pub(crate) struct Pen {
    style: StyleSheet,
    expect: Expect,
}

// The style with another colour on one side.
fn paint(style: StyleSheet, side: Side, color: Option<Color>) -> StyleSheet
    ensures { result ≡ painted side color style }
{
    match side {
        Side::Fore => StyleSheet { fg: color, ..style },
        Side::Back => StyleSheet { bg: color, ..style },
    }
}

// What a number alone does. Each arm is a line of ECMA-48's table; arms that are joined would have to be told apart
// again by their numbers.
fn set_code(style: StyleSheet, n: u16) -> StyleSheet
    ensures { result ≡ coded style n }
{
    match n {
        0 => StyleSheet::empty(),
        1 => style.with_attr(style.att | Attributes::BOLD),
        22 => style.with_attr(style.att.difference(Attributes::BOLD)),
        3 => style.with_attr(style.att | Attributes::ITALIC),
        23 => style.with_attr(style.att.difference(Attributes::ITALIC)),
        30..=37 => paint(style, Side::Fore, Color::from_code((n - 30) as u8)),
        90..=97 => paint(style, Side::Fore, Color::from_code((n - 82) as u8)),
        40..=47 => paint(style, Side::Back, Color::from_code((n - 40) as u8)),
        100..=107 => paint(style, Side::Back, Color::from_code((n - 92) as u8)),
        39 => paint(style, Side::Fore, None),
        49 => paint(style, Side::Back, None),
        _ => style,
    }
}

impl Pen {
    // The pen after one number.
    fn tell(self, n: u16) -> Pen
        ensures { result ≡ told self n }
    {
        match (self.expect, u8::try_from(n)) {
            (Expect::Code, _) => match n {
                38 => self.expecting(Expect::Form(Side::Fore)),
                48 => self.expecting(Expect::Form(Side::Back)),
                _ => Pen {
                    style: set_code(self.style, n),
                    ..self
                },
            },
            (Expect::Form(side), _) => match n {
                5 => self.expecting(Expect::Index(side)),
                2 => self.expecting(Expect::Red(side)),
                _ => self.expecting(Expect::Dropped),
            },
            (Expect::Index(side), Ok(n)) => self.painted(side, Color::AnsiValue(n)),
            (Expect::Red(side), Ok(n)) => self.expecting(Expect::Green(side, n)),
            (Expect::Green(side, r), Ok(n)) => self.expecting(Expect::Blue(side, r, n)),
            (Expect::Blue(side, r, g), Ok(n)) => self.painted(side, Color::rgb(r, g, n)),
            _ => self.expecting(Expect::Dropped),
        }
    }

    fn expecting(self, expect: Expect) -> Pen
        ensures { result ≡ pen self.style expect }
    {
        Pen { expect, ..self }
    }

    // The pen after a colour was read.
    fn painted(self, side: Side, color: Color) -> Pen
        ensures { result ≡ pen (painted side (Some color) self.style) Code }
    {
        Pen {
            style: paint(self.style, side, Some(color)),
            expect: Expect::Code,
        }
    }
}

// The style after the parameters of a colour sequence. A number above 65,535 does what 65,535 does.
fn read(style: StyleSheet, bytes: &[u8]) -> StyleSheet
    requires { parameters bytes.now ≡ true }
    ensures { result ≡ after style (numbers bytes.now) }
{
    let mut pen = Pen {
        style,
        expect: Expect::Code,
    };
    let mut n: u16 = 0;
    for &b in bytes {
        if b == b';' {
            pen = pen.tell(n);
            n = 0;
        } else {
            n = n.saturating_mul(10).saturating_add(u16::from(b - b'0'));
        }
    }
    pen.tell(n).style
}

/// The style after an escape sequence: a colour sequence steers it, any other bytes leave it.
#[tactic(auto, using(crate::proofs::Steers::numbers_steer))]
pub fn steer(style: StyleSheet, sequence: &[u8]) -> StyleSheet
    ensures value { result ≡ steered style sequence.now }
    ensures law { NumbersSteer }
{
    match colour_parameters(sequence) {
        Some(parameters) => read(style, parameters),
        None => style,
    }
}
