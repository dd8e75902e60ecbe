//! Bytes as text in lowercase hex, where `-` stands for no bytes.

#![tactic(auto)]

ghost use Rattle.std.specs.Prelude.{◌≡◌, ℕ, ◌/◌, ◌%◌, ◌<◌, List, IfOk, Some, MatchOption, ◌≢◌};
ghost use Rattle.hexadecimal.specs.Hex.{digit_of, digits_of, hex_of, Bytes, Reads, OneAnswer, ReadsBack};
ghost use Rattle.std.specs.Option.{option_map};

use std::alloc::{AllocError, Global};
use std::fmt;

/// Bytes that are shown in hex.
#[derive(Clone, Copy)]
pub struct Hex<'a>(pub &'a [u8]);

impl fmt::Display for Hex<'_> {
    ghost output = { λ h. Some (hex_of h.0.now) };

    fn fmt<W: fmt::Write>(&self, f: &mut fmt::Formatter<W>) -> fmt::Result {
        if self.0.is_empty() {
            return f.write_str("-");
        }
        for &byte in self.0 {
            f.write_char(to_digit(byte / 16))?;
            f.write_char(to_digit(byte % 16))?;
        }
        Ok(())
    }
}

/// The bytes that a text is the hex of, or `None` where it is no hex. The empty text stands for no
/// bytes, as `-` does.
pub fn decode(heap: Global, text: &str) -> Result<Option<Vec<u8>>, AllocError>
    ensures value { IfOk result (λ o. Reads text.now (option_map (λ v. v.items) o)) }
    ensures law { OneAnswer × ReadsBack }
{
    if text == "-" {
        Ok(Some(Vec::new(heap)))
    } else {
        decode_digits(heap, text.as_bytes())
    }
}

// The bytes with these digits.
fn decode_digits(heap: Global, digits: &[u8]) -> Result<Option<Vec<u8>>, AllocError>
    ensures { IfOk result (λ o. MatchOption o ((bs : List ℕ) → Bytes bs → digits_of bs ≢ digits.now) (λ v. Bytes v.items × (digits_of v.items ≡ digits.now))) }
{
    let pairs = digits.chunks_exact(2);
    if !pairs.remainder().is_empty() {
        return Ok(None);
    }
    let mut bytes = Vec::with_capacity(heap, digits.len() / 2)?;
    for pair in pairs {
        let Some(byte) = from_digits(pair[0], pair[1]) else {
            return Ok(None);
        };
        bytes.push(byte)?;
    }
    Ok(Some(bytes))
}

// The hex digit of a number. A byte is not written by `{:02x}`, with which scripts of many rows take a tenth longer.
fn to_digit(number: u8) -> char
    requires { number < 16 }
    ensures { result ≡ digit_of number }
{
    char::from_digit(u32::from(number), 16).unwrap()
}

// The byte with these two hex digits.
fn from_digits(upper: u8, lower: u8) -> Option<u8>
    ensures { MatchOption result ((b : ℕ) → b < 256 → digit_of (b / 16) ≡ upper → digit_of (b % 16) ≢ lower) (λ b. (b < 256) × (digit_of (b / 16) ≡ upper) × (digit_of (b % 16) ≡ lower)) }
{
    Some(from_digit(upper)? * 16 + from_digit(lower)?)
}

// The number of a hex digit. `char::to_digit` would take uppercase digits too.
fn from_digit(character: u8) -> Option<u8>
    ensures { MatchOption result ((n : ℕ) → n < 16 → digit_of n ≢ character) (λ n. (n < 16) × (digit_of n ≡ character)) }
{
    match character {
        b'0'..=b'9' => Some(character - b'0'),
        b'a'..=b'f' => Some(character - b'a' + 10),
        _ => None,
    }
}

#[cfg(test)]
mod tests {
    use super::*;
    use std::test::Fail;

    #[test]
    fn written_and_read(rt: HostRuntime) -> Result<(), Fail> {
        let heap = rt.alloc();
        let text = format!(in heap; "{} {}", Hex(b"\x00\x7f\xff"), Hex(b""))?;
        assert_eq!(rt; text.as_str(), "007fff -");
        let bytes = decode(heap, "007fff")?.ok_or("no hex")?;
        assert_eq!(rt; bytes.as_slice(), b"\x00\x7f\xff".as_slice());
        assert!(rt; decode(heap, "-")?.is_some());
        assert!(rt; decode(heap, "7F")?.is_none());
        assert!(rt; decode(heap, "7")?.is_none());
        Ok(())
    }
}
