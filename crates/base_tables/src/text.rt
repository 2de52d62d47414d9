//! Texts of cases. `\t`, `\n`, `\r` and `\s` are a tab, an LF, a CR and a space, `\x` with two hex digits is any
//! byte, and `{3:TEXT}` is a text three times.

use crate::case::{CaseFault, number};
use std::alloc::Global;
use std::fmt;

/// The bytes of a text longer than this are not all shown.
const MOST_SHOWN: usize = 600;

/// The bytes that a text means.
pub fn read_text(alloc: Global, text: &str) -> Result<Vec<u8>, CaseFault> {
    let mut bytes = Vec::new(alloc);
    for (place, part) in text.split('{').enumerate() {
        if place == 0 {
            put_escaped(&mut bytes, part)?;
        } else {
            put_repeated(&mut bytes, part)?;
        }
    }
    Ok(bytes)
}

/// Puts `TIMES:PIECE}`, and what stands after it.
fn put_repeated(bytes: &mut Vec<u8>, part: &str) -> Result<(), CaseFault> {
    let (times, part) = part.split_once(':').ok_or(CaseFault::BadCase)?;
    let (piece, after) = part.split_once('}').ok_or(CaseFault::BadCase)?;
    for _ in 0..number(times)? {
        put_escaped(bytes, piece)?;
    }
    put_escaped(bytes, after)
}

fn put_escaped(bytes: &mut Vec<u8>, part: &str) -> Result<(), CaseFault> {
    for (place, part) in part.split('\\').enumerate() {
        if place == 0 {
            bytes.extend_from_slice(part.as_bytes())?;
        } else {
            put_escape(bytes, part.as_bytes())?;
        }
    }
    Ok(())
}

/// Puts the byte that stands after a `\`, and what stands after that.
fn put_escape(bytes: &mut Vec<u8>, part: &[u8]) -> Result<(), CaseFault> {
    let (byte, after) = match part {
        [b't', after @ ..] => (b'\t', after),
        [b'n', after @ ..] => (b'\n', after),
        [b'r', after @ ..] => (b'\r', after),
        [b's', after @ ..] => (b' ', after),
        [b'x', high, low, after @ ..] => (
            hex(*high)?.wrapping_mul(16).wrapping_add(hex(*low)?),
            after,
        ),
        _ => return Err(CaseFault::BadCase),
    };
    bytes.push(byte)?;
    bytes.extend_from_slice(after)?;
    Ok(())
}

fn hex(digit: u8) -> Result<u8, CaseFault> {
    match digit {
        b'0'..=b'9' => Ok(digit - b'0'),
        b'a'..=b'f' => Ok(digit - b'a' + 10),
        _ => Err(CaseFault::BadCase),
    }
}

/// Bytes as a text of a case. Of many the number and the last ones are told.
#[derive(Drop)]
pub struct Shown<'a>(pub &'a [u8]);

impl fmt::Display for Shown<'_> {
    fn fmt<W: fmt::Write>(&self, f: &mut fmt::Formatter<W>) -> fmt::Result {
        let bytes = self.0;
        let count = bytes.len();
        if count <= MOST_SHOWN {
            return show(f, bytes);
        }
        write!(f, "({count} bytes) ..")?;
        show(f, &bytes[count - 8..])
    }
}

fn show<W: fmt::Write>(f: &mut fmt::Formatter<W>, bytes: &[u8]) -> fmt::Result {
    for b in bytes {
        match *b {
            b'\t' => f.write_str("\\t")?,
            b'\n' => f.write_str("\\n")?,
            b'\r' => f.write_str("\\r")?,
            b'\\' | 0..=31 | 127..=255 => write!(f, "\\x{:02x}", *b)?,
            shown => f.write_char(char::from(shown))?,
        }
    }
    Ok(())
}
