// Where an escape sequence ends.
ghost use Rattle.std.specs.Prelude.{◌≡◌, MatchOption};
ghost use Rattle.ansi.specs.Machine.{InEscape, InCsi, InIntermediate, InString, move};
ghost use Rattle.ansi.specs.Places.{Ended, Begins, behind};
ghost use Rattle.ansi.specs.States.{state_of, move_of};

// The first character of a text, and the text behind it.
pub(crate) fn first(text: &str) -> Option<(char, &str)>
    ensures { MatchOption result (Ended text.now 0) (λ p. Begins text.now p.0 p.1.now) }
{
    let mut chars = text.chars();
    let c = chars.next()?;
    Some((c, chars.as_str()))
}

// What is being read of an escape sequence. It is an enum, since a function for the next state may not be handed out.
#[derive(Clone, Copy)]
pub(crate) enum AnsiMatcher {
    Escape,
    CsiEntry,
    EscapeIntermediate,
    String,
}

impl AnsiMatcher {
    // The state behind a character; none where the sequence ends with it.
    fn next(self, c: char) -> Option<AnsiMatcher>
        ensures { move_of result ≡ move (state_of self) c }
    {
        match self {
            AnsiMatcher::Escape => AnsiMatcher::escape(c),
            AnsiMatcher::CsiEntry => AnsiMatcher::csi_entry(c),
            AnsiMatcher::EscapeIntermediate => AnsiMatcher::escape_intermediate(c),
            AnsiMatcher::String => AnsiMatcher::string(c),
        }
    }

    fn escape(c: char) -> Option<AnsiMatcher>
        ensures { move_of result ≡ move InEscape c }
    {
        match c {
            '\x18' | '\x1A' => None,
            '[' => Some(AnsiMatcher::CsiEntry),
            'P' | 'X' | ']' | '^' | '_' => Some(AnsiMatcher::String),
            '\x20'..='\x2F' => Some(AnsiMatcher::EscapeIntermediate),
            '\x30'..='\x7E' => None,
            _ => Some(AnsiMatcher::Escape),
        }
    }

    fn csi_entry(c: char) -> Option<AnsiMatcher>
        ensures { move_of result ≡ move InCsi c }
    {
        match c {
            '\x18' | '\x1A' | '\x40'..='\x7E' => None,
            '\x1B' => Some(AnsiMatcher::Escape),
            _ => Some(AnsiMatcher::CsiEntry),
        }
    }

    fn escape_intermediate(c: char) -> Option<AnsiMatcher>
        ensures { move_of result ≡ move InIntermediate c }
    {
        match c {
            '\x18' | '\x1A' | '\x30'..='\x7E' => None,
            '\x1B' => Some(AnsiMatcher::Escape),
            _ => Some(AnsiMatcher::EscapeIntermediate),
        }
    }

    // DCS, SOS, OSC, PM and APC strings.
    fn string(c: char) -> Option<AnsiMatcher>
        ensures { move_of result ≡ move InString c }
    {
        match c {
            '\x07' | '\x18' | '\x1A' | '\u{9C}' => None,
            '\x1B' => Some(AnsiMatcher::Escape),
            _ => Some(AnsiMatcher::String),
        }
    }
}

// What stands behind the escape sequence that a text begins with. The state behind ESC is that before it, so it is read from
// its ESC on. It stays a call, so that what hands out a character is short and can stand in its caller.
#[inline(never)]
pub(crate) fn behind_sequence(text: &str) -> &str
    ensures { result.now ≡ behind InEscape text.now }
{
    let mut unread = text;
    let mut state = AnsiMatcher::Escape;
    while let Some((c, rest)) = first(unread) {
        unread = rest;
        let Some(next) = state.next(c) else {
            break;
        };
        state = next;
    }
    unread
}
