// The Rust's answers on the pieces of a text.
use ansi::{AnsiAwareChars, AnsiStrippedChars, Piece, Refusal};
use hexadecimal::decode;
use std::alloc::{AllocError, Global};

// What a word of an answer stands for.
trait Answered: Drop {
    fn agrees(&self, heap: Global, word: &str) -> Result<bool, AllocError>;
}

// `C:` and the code point in hex
impl Answered for char {
    fn agrees(&self, _heap: Global, word: &str) -> Result<bool, AllocError> {
        let code = word
            .strip_prefix("C:")
            .and_then(|code| u32::from_str_radix(code, 16).ok());
        Ok(code == Some(u32::from(*self)))
    }
}

// of an escape sequence `E:` and the bytes in hex
impl Answered for Piece<'_> {
    fn agrees(&self, heap: Global, word: &str) -> Result<bool, AllocError> {
        match self {
            Piece::Escape { text, .. } => {
                let Some(bytes) = word.strip_prefix("E:") else {
                    return Ok(false);
                };
                Ok(decode(heap, bytes)?.is_some_and(|bytes| bytes.as_slice() == text.as_bytes()))
            }
            Piece::Char(c) => c.agrees(heap, word),
        }
    }
}

// A word for each, or `-` for none.
fn words_agree<T: Answered, I: Iterator<Item = T> + Drop>(
    heap: Global,
    answer: &str,
    mut read: I,
) -> Result<bool, AllocError>
    requires { (s : I) → I.can_next s }
{
    if answer == "-" {
        return Ok(read.next().is_none());
    }
    for word in answer.split(' ') {
        let Some(piece) = read.next() else {
            return Ok(false);
        };
        if !piece.agrees(heap, word)? {
            return Ok(false);
        }
    }
    Ok(read.next().is_none())
}

// `refused`, the number and the place
fn refusal_agrees(answer: &str, refusal: Refusal) -> bool {
    let mut words = answer.split(' ');
    let (word, number, place) = (words.next(), words.next(), words.next());
    word == Some("refused")
        && number.and_then(|number| number.parse::<u8>().ok()) == Some(refusal.number())
        && place.and_then(|place| place.parse::<usize>().ok()) == Some(refusal.place())
}

fn answer_agrees<T: Answered, I: Iterator<Item = T> + Drop>(
    heap: Global,
    answer: &str,
    read: Result<I, Refusal>,
) -> Result<bool, AllocError>
    requires { (s : I) → I.can_next s }
{
    match read {
        Ok(read) => words_agree(heap, answer, read),
        Err(refusal) => Ok(refusal_agrees(answer, refusal)),
    }
}

// Whether the text of a line, in hex, has these pieces and these characters.
pub(crate) fn agrees(heap: Global, line: &str) -> anyhow::Result<bool> {
    let mut fields = line.split('\t');
    let (Some(text), Some(pieces), Some(stripped)) = (fields.next(), fields.next(), fields.next())
    else {
        return Ok(false);
    };
    let Some(text) = decode(heap, text)? else {
        return Ok(false);
    };
    let text = text.as_slice();
    Ok(
        answer_agrees(heap, pieces, AnsiAwareChars::new(text))?
            && answer_agrees(heap, stripped, AnsiStrippedChars::new(text))?,
    )
}
