//! Texts that are repeated with a number in them.

use std::alloc::{AllocError, Global};
use std::str;

/// The placeholder of the number in a text that is repeated.
pub(crate) const NUMBER: &str = "{n}";

/// How often a text may be repeated, and how long a file may be made.
pub(crate) const MOST: usize = 16_777_217;

/// A number of lines or bytes.
pub(crate) fn count_of(text: &str) -> Option<usize> {
    match text.parse::<usize>() {
        Ok(count @ 1..=MOST) => Some(count),
        _ => None,
    }
}

/// The number before a mark in a text, and what follows the mark.
pub(crate) fn count_before(text: &str, mark: char) -> Option<(usize, &str)> {
    let (count, rest) = text.split_once(mark)?;
    Some((count_of(count)?, rest))
}

/// How often bytes say that a text is repeated, and the text: this mark, a number, a `*`, and the text.
pub(crate) fn repetition<'a>(bytes: &'a [u8], mark: &str) -> Option<(usize, &'a str)> {
    let text = str::from_utf8(bytes).ok()?;
    count_before(text.strip_prefix(mark)?, '*')
}

/// How many digits a number has.
fn digit_count(number: usize) -> u32 {
    number.checked_ilog10().unwrap_or(0).saturating_add(1)
}

/// A text with a number at each of these places, with leading zeros, as long as the greatest one.
pub(crate) fn numbered(
    alloc: Global,
    text: &str,
    place: &str,
    number: usize,
    greatest: usize,
) -> Result<String, AllocError> {
    let width = digit_count(greatest) as usize;
    let digits = format!(in alloc; "{number:0width$}")?;
    text.replace(alloc, place, digits.as_str())
}

/// The parts of a text between the places of its number.
fn parts_of(alloc: Global, text: &str) -> Result<Vec<&str>, AllocError> {
    text.split(NUMBER).collect(alloc)
}

/// Appends parts with digits between them.
fn push_parts(bytes: &mut Vec<u8>, parts: &[&str], digits: &[u8]) -> Result<(), AllocError> {
    for (index, part) in parts.iter().enumerate() {
        if index > 0 {
            bytes.extend_from_slice(digits)?;
        }
        bytes.extend_from_slice(part.as_bytes())?;
    }
    Ok(())
}

/// Adds one to the number that decimal digits are.
fn add_one(digits: &mut [u8]) {
    for digit in digits.iter_mut().rev() {
        if *digit < b'9' {
            *digit += 1;
            return;
        }
        *digit = b'0';
    }
}

/// Appends a text this many times, each with its number.
pub(crate) fn push_numbered(
    alloc: Global,
    bytes: &mut Vec<u8>,
    text: &str,
    count: usize,
) -> Result<(), AllocError> {
    let parts = parts_of(alloc, text)?;
    let mut digits = Vec::new(alloc);
    digits.resize(digit_count(count) as usize, b'0')?;
    for _ in 0..count {
        add_one(digits.as_mut_slice());
        push_parts(bytes, parts.as_slice(), digits.as_slice())?;
    }
    Ok(())
}
