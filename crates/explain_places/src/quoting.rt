//! A line of a text, and a caret under one of its bytes.

use memchr::{memchr, memrchr};
use sml_text::Sink;
use sml_writer::Out;

// How many bytes are shown in front of the caret, and how many from it on.
const SHOWN: usize = 100;

// The bytes behind the last line feed.
fn last_line(text: &[u8]) -> &[u8] {
    match memrchr(b'\n', text) {
        Some(at) => text.split_at(at).1.split_at(1).1,
        None => text,
    }
}

// The bytes before the first line feed.
fn first_line(text: &[u8]) -> &[u8] {
    match memchr(b'\n', text) {
        Some(at) => text.split_at(at).0,
        None => text,
    }
}

// What is shown in front of the caret: the end of what is before it.
fn shown_before(line: &[u8]) -> &[u8] {
    line.split_at(line.len().saturating_sub(SHOWN)).1
}

// What is shown from the caret on: the front of what is from there on.
fn shown_behind(line: &[u8]) -> &[u8] {
    line.split_at(line.len().min(SHOWN)).0
}

// The bytes without a carriage return at their end.
fn without_return(line: &[u8]) -> &[u8] {
    match line.split_last() {
        Some((b'\r', front)) => front,
        _ => line,
    }
}

// Writes bytes so that they take one column each: what no terminal shows is a question mark.
fn tell_shown<W: Sink>(out: &mut Out<'_, W>, bytes: &[u8]) {
    for b in bytes {
        let shown = match *b {
            b'\t' | 0x20..=0x7E => *b,
            _ => b'?',
        };
        out.say(&[shown]);
    }
}

// Writes blanks that are as wide as the bytes: tabs stay.
fn tell_blanks<W: Sink>(out: &mut Out<'_, W>, bytes: &[u8]) {
    for b in bytes {
        let blank = if *b == b'\t' { b'\t' } else { b' ' };
        out.say(&[blank]);
    }
}

/// Writes the line of a text that has the byte at an offset, and below it a caret under that byte: two lines. Of
/// a long line the hundred bytes before the place and the hundred from it on are shown.
///
/// The offset counts from 0; behind the text it is the place of its end. The cost is the length of the line.
pub fn tell_quoted<W: Sink>(out: &mut Out<'_, W>, text: &[u8], offset: usize) {
    let (before, behind) = text.split_at(offset.min(text.len()));
    let before = shown_before(last_line(before));
    tell_shown(out, before);
    tell_shown(out, shown_behind(without_return(first_line(behind))));
    out.say(b"\n");
    tell_blanks(out, before);
    out.say(b"^\n");
}
