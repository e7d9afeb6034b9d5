// Bytes as case files spell them.
use crate::fault::LineFault;
use crate::numbers::copies_in;
use std::alloc::{AllocError, Global};

/// The most copies of bytes that one line may ask for.
const COPIES: u64 = 2_000_000;

/// The bytes that `"TEXT"` and `"TEXT" times N` stand for. In the text `\r`, `\n` and `\xHH` are one
/// byte. It goes on to the last quotation mark, so one inside stands for itself.
pub fn read_quoted(alloc: Global, text: &str) -> Result<Vec<u8>, LineFault> {
    let Some(rest) = text.strip_prefix('"') else {
        return Err(LineFault::Wrong("no quotation mark in front"));
    };
    let Some((inner, behind)) = rest.rsplit_once('"') else {
        return Err(LineFault::Wrong("no quotation mark behind"));
    };
    let one = read_escapes(alloc, inner)?;
    let mut bytes = Vec::new(alloc);
    for _ in 0..copies_of(behind)? {
        bytes.extend_from_slice(&one)?;
    }
    Ok(bytes)
}

fn copies_of(behind: &str) -> Result<u64, LineFault> {
    if behind.is_empty() {
        return Ok(1);
    }
    match behind.strip_prefix(" times ") {
        Some(copies) => copies_in(copies, COPIES),
        None => Err(LineFault::Wrong("no ' times ' behind the quotation marks")),
    }
}

fn read_escapes(alloc: Global, text: &str) -> Result<Vec<u8>, LineFault> {
    let mut bytes = Vec::new(alloc);
    let mut is_first = true;
    for piece in text.split('\\') {
        if is_first {
            is_first = false;
            bytes.extend_from_slice(piece.as_bytes())?;
        } else {
            push_escape(&mut bytes, piece.as_bytes())?;
        }
    }
    Ok(bytes)
}

// Appends the byte of an escape, without its backslash, and what stands behind it.
fn push_escape(bytes: &mut Vec<u8>, piece: &[u8]) -> Result<(), LineFault> {
    let (byte, rest) = match piece {
        [b'r', rest @ ..] => (b'\r', rest),
        [b'n', rest @ ..] => (b'\n', rest),
        [b'x', high, low, rest @ ..] => (read_hex(*high, *low)?, rest),
        _ => return Err(LineFault::Wrong("no such escape")),
    };
    bytes.push(byte)?;
    bytes.extend_from_slice(rest)?;
    Ok(())
}

fn read_hex(high: u8, low: u8) -> Result<u8, LineFault> {
    match (digit_of(high), digit_of(low)) {
        (Some(high), Some(low)) => Ok(high.wrapping_mul(16).wrapping_add(low)),
        _ => Err(LineFault::Wrong("no two digits of base 16")),
    }
}

fn digit_of(byte: u8) -> Option<u8> {
    match byte {
        b'0'..=b'9' => Some(byte - b'0'),
        b'a'..=b'f' => Some(byte - b'a' + 10),
        _ => None,
    }
}

/// The bytes in quotation marks, with the escapes of `read_quoted`.
pub fn quoted(alloc: Global, bytes: &[u8]) -> Result<String, AllocError> {
    let mut text = String::from_str(alloc, "\"")?;
    push_shown(alloc, &mut text, bytes)?;
    text.push_str("\"")?;
    Ok(text)
}

/// Appends the bytes with the escapes of `read_quoted`.
pub fn push_shown(alloc: Global, text: &mut String, bytes: &[u8]) -> Result<(), AllocError> {
    for byte in bytes {
        match *byte {
            b'\r' => text.push_str("\\r")?,
            b'\n' => text.push_str("\\n")?,
            b' '..=b'[' | b']'..=b'~' => text.push(char::from(*byte))?,
            other => text.push_str(format!(in alloc; "\\x{other:02x}")?.as_str())?,
        }
    }
    Ok(())
}
