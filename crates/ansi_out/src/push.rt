// Bytes at the end of a Vec, within its capacity. A struct around the Vec would state the same room and the same bytes.
ghost use Rattle.std.specs.Prelude.{◌≡◌, ◌+◌, ◌<◌, ◌≤◌, [], ◌∷◌, vec_len, vec_capacity, decimal};
ghost use Rattle.layout.specs.Writing.{run};
ghost use Rattle.terminal.specs.Calls.{write};
ghost use Rattle.stream.specs.Bytes.{others, colouring, short, coloured, flagged, styling, moving, sent};
ghost use Rattle.ansi_out.specs.Adds.{Room, Adds};

use style::{Attributes, Color, StyleSheet};

pub(crate) fn push(out: &mut Vec<u8>, b: u8)
    requires { Room out.old (b ∷ []) }
    ensures { Adds out.old out.new (b ∷ []) }
{
    out.push_reserved(b);
}

// Not extend_from_slice, which does not say that the capacity stays.
pub(crate) fn push_all(out: &mut Vec<u8>, bytes: &[u8])
    requires { Room out.old bytes.now }
    ensures { Adds out.old out.new bytes.now }
{
    for b in bytes {
        push(out, *b);
    }
}

// Not by write!, which does not say that the capacity stays. The last digit is found first, so the digits before it are pushed
// by a call.
fn push_decimal(out: &mut Vec<u8>, n: u16)
    requires { Room out.old (decimal n) }
    ensures { Adds out.old out.new (decimal n) }
{
    if n < 10 {
        push(out, b'0' + n as u8);
        return;
    }
    push_decimal(out, n / 10);
    push(out, b'0' + (n % 10) as u8);
}

// Each number behind a semicolon.
fn push_others(out: &mut Vec<u8>, ns: &[u8])
    requires { Room out.old (others ns.now) }
    ensures { Adds out.old out.new (others ns.now) }
{
    for n in ns {
        push(out, b';');
        push_decimal(out, *n as u16);
    }
}

// The colour sequence of these numbers.
fn push_colouring(out: &mut Vec<u8>, first: u8, ns: &[u8])
    requires { Room out.old (colouring (first ∷ ns.now)) }
    ensures { Adds out.old out.new (colouring (first ∷ ns.now)) }
{
    push_all(out, b"\x1B[");
    push_decimal(out, first as u16);
    push_others(out, ns);
    push(out, b'm');
}

// The number that sets the named colour of a code.
fn short_code(base: u8, code: u8) -> u8
    requires { (base ≤ 40) × (code < 16) }
    ensures { result ≡ short base code }
{
    if code < 8 {
        base + code
    } else {
        base + 52 + code
    }
}

// The sequence that sets a colour; none for none.
fn push_color(out: &mut Vec<u8>, base: u8, color: Option<Color>)
    requires base { base ≤ 40 }
    requires room { Room out.old (coloured base color) }
    ensures { Adds out.old out.new (coloured base color) }
{
    match color {
        None => {}
        Some(Color::Rgb { r, g, b }) => push_colouring(out, base + 8, &[2, r, g, b]),
        Some(Color::AnsiValue(n)) => push_colouring(out, base + 8, &[5, n]),
        Some(name) => push_colouring(out, short_code(base, name.code().unwrap()), &[]),
    }
}

// The sequence of a number, or none. With an `if` at each call in its place each would have to prove both ways.
fn push_flag(out: &mut Vec<u8>, n: u8, on: bool)
    requires { Room out.old (flagged n on) }
    ensures { Adds out.old out.new (flagged n on) }
{
    if on {
        push_colouring(out, n, &[]);
    }
}

fn push_style(out: &mut Vec<u8>, style: StyleSheet)
    requires { Room out.old (styling style) }
    ensures { Adds out.old out.new (styling style) }
{
    push_color(out, 30, style.fg);
    push_color(out, 40, style.bg);
    push_flag(out, 1, style.att.contains(Attributes::BOLD));
    push_flag(out, 3, style.att.contains(Attributes::ITALIC));
}

// A run: its style, its text, and a plain pen again.
pub(crate) fn push_run(out: &mut Vec<u8>, text: &[u8], style: StyleSheet)
    requires { Room out.old (sent (write (run text.now style))) }
    ensures { Adds out.old out.new (sent (write (run text.now style))) }
{
    push_style(out, style);
    push_all(out, text);
    push_colouring(out, 0, &[]);
}

// The sequence that moves the cursor by a count; none for 0.
pub(crate) fn push_move(out: &mut Vec<u8>, cnt: u16, last: u8)
    requires { vec_len out.old + 8 ≤ vec_capacity out.old }
    ensures { Adds out.old out.new (moving cnt last) }
{
    if cnt == 0 {
        return;
    }
    push_all(out, b"\x1B[");
    push_decimal(out, cnt);
    push(out, last);
}
