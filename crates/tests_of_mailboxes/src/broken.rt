//! Texts of which one byte is changed, and their lines.

use std::alloc::Global;

/// What replaces another byte: a NUL, a quote, a bracket, and a byte that is not ASCII.
pub const BYTES: [u8; 4] = [0x00, 0x22, 0x28, 0x80];

/// A text with a byte in the place of another.
pub fn changed(alloc: Global, text: &[u8], place: usize, byte: u8) -> Option<Vec<u8>> {
    let mut text = Vec::from_slice(alloc, text).ok()?;
    *text.get_mut(place)? = byte;
    Some(text)
}

// How often a text has a byte.
fn count(text: &[u8], byte: u8) -> usize {
    text.iter().filter(|b| **b == byte).count()
}

// Whether a place of a text without comments is in a string, between its quotes.
fn is_in_string(text: &[u8], place: usize) -> bool {
    match text.get(..place) {
        Some(before) => count(before, b'"') % 2 == 1 && text.get(place) != Some(&b'"'),
        None => false,
    }
}

/// Whether one of `BYTES` at a place breaks the line there. It does unless it is there already, or is a bracket
/// in a string. No token has a NUL or a byte that is not ASCII, and in a line quotes and brackets come in pairs.
pub fn breaks(text: &[u8], place: usize, byte: u8) -> bool {
    text.get(place) != Some(&byte) && !(byte == b'(' && is_in_string(text, place))
}

/// The number of the line at a place, from 1. A line feed is of the line that it ends.
pub fn line_at(text: &[u8], place: usize) -> usize {
    match text.get(..place) {
        Some(before) => count(before, b'\n').wrapping_add(1),
        None => 0,
    }
}

/// Where the line at a place begins.
pub fn line_start(text: &[u8], place: usize) -> usize {
    let mut start = 0usize;
    for (i, byte) in text.iter().enumerate() {
        if i < place && *byte == b'\n' {
            start = i.wrapping_add(1);
        }
    }
    start
}

/// Whether a prefix of a text ends with a line of it, or is empty.
pub fn ends_line(text: &[u8], length: usize) -> bool {
    line_start(text, length) == length
}
