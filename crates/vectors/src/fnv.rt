// Published vectors of 64-bit FNV-1a.
use hexadecimal::decode;
use std::alloc::Global;
use width::fnv1a;

// Whether the text of a line, in hex, has the hash behind it, in hex.
pub(crate) fn agrees(heap: Global, line: &str) -> anyhow::Result<bool> {
    let mut fields = line.split('\t');
    let (Some(text), Some(answer)) = (fields.next(), fields.next()) else {
        return Ok(false);
    };
    let Some(text) = decode(heap, text)? else {
        return Ok(false);
    };
    Ok(u64::from_str_radix(answer, 16)? == fnv1a(text.as_slice()))
}
