//! Escapes of bytes that a line of text can't show.

use crate::faults::{BAD_ESCAPE, CaseFault};
use crate::numbering::{push_numbered, repetition};
use std::alloc::{AllocError, Global};

/// Appends what the next byte of escaped text makes whole. The bytes of an escape that has begun are kept in `escape`,
/// which is empty outside escapes. One that is invalid never ends.
pub(crate) fn push_escaped(
    alloc: Global,
    bytes: &mut Vec<u8>,
    escape: &mut Vec<u8>,
    byte: u8,
) -> Result<(), AllocError> {
    if escape.is_empty() && byte != b'\\' {
        return Ok(bytes.push(byte)?);
    }
    escape.push(byte)?;
    if let Some(byte) = byte_of(escape.as_slice()) {
        escape.clear();
        return Ok(bytes.push(byte)?);
    }
    if let Some((count, text)) = repeated(escape.as_slice()) {
        push_numbered(alloc, bytes, text, count)?;
        escape.clear();
    }
    Ok(())
}

/// The byte that an escape denotes, if it is one of a byte, and whole.
fn byte_of(escape: &[u8]) -> Option<u8> {
    match escape {
        [_, byte] => escaped(*byte),
        [_, b'x', first, second] => Some(digit(*first)? << 4 | digit(*second)?),
        _ => None,
    }
}

/// The byte that a backslash and this byte denote.
fn escaped(byte: u8) -> Option<u8> {
    match byte {
        b'n' => Some(b'\n'),
        b'r' => Some(b'\r'),
        b't' => Some(b'\t'),
        b'0' => Some(0),
        b'\\' | b'"' => Some(byte),
        _ => None,
    }
}

/// The value of a hexadecimal digit.
fn digit(byte: u8) -> Option<u8> {
    match byte {
        b'0'..=b'9' => Some(byte - b'0'),
        b'a'..=b'f' => Some(byte - b'a' + 10),
        b'A'..=b'F' => Some(byte - b'A' + 10),
        _ => None,
    }
}

/// How often an escape repeats a text, and the text, if it is such an escape, and whole. Several characters are in
/// parentheses.
fn repeated(escape: &[u8]) -> Option<(usize, &str)> {
    let (count, text) = repetition(escape, "\\*")?;
    match text.strip_prefix('(') {
        Some(group) => Some((count, group.strip_suffix(')')?)),
        None if text.is_empty() => None,
        None => Some((count, text)),
    }
}

/// Appends the bytes that escaped text in the line of this number denotes.
pub(crate) fn push_unescaped(
    alloc: Global,
    bytes: &mut Vec<u8>,
    number: usize,
    text: &str,
) -> Result<(), CaseFault> {
    let mut escape = Vec::new(alloc);
    for byte in text.as_bytes() {
        push_escaped(alloc, bytes, &mut escape, *byte)?;
    }
    if escape.is_empty() {
        Ok(())
    } else {
        Err(CaseFault::Line(number, BAD_ESCAPE))
    }
}
