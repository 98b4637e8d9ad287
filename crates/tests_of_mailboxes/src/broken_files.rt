//! Texts of domains, cut at every place and with a byte changed at every place.

use crate::broken::{BYTES, breaks, changed, line_start};
use crate::domains::TEXTS;
use sml_print::print;
use sml_read::{ReadError, ReadErrorKind, read};
use sml_tree::SmlFile;
use std::alloc::Global;
use std::test::*;

// Whether a text is read as this file.
fn is_read_as(alloc: Global, text: &[u8], file: &SmlFile<Global>) -> bool {
    let other = read(alloc, text);
    let same = match &other {
        Ok(other) => other.same(file),
        Err(_) => false,
    };
    drop(other);
    same
}

// Whether the canonical text of a file is read as the file.
fn is_read_back(alloc: Global, file: &SmlFile<Global>) -> bool {
    match print(alloc, file) {
        Ok(text) => is_read_as(alloc, &text, file),
        Err(_) => false,
    }
}

// Whether the file of a text, printed, is read back as the same; or why the text has no file.
fn read_back(alloc: Global, text: &[u8]) -> Result<bool, ReadError> {
    let file = read(alloc, text)?;
    let is_same = is_read_back(alloc, &file);
    drop(file);
    Ok(is_same)
}

// Whether a refusal is of a token that is in this line or behind it.
fn is_behind(error: ReadError, start: usize, length: usize) -> bool {
    let is_of_token = matches!(
        error.kind,
        ReadErrorKind::BadToken | ReadErrorKind::Unexpected
    );
    is_of_token && start <= error.offset && error.offset <= length
}

// Whether a prefix of a text is read, or refused in its last line; all of it is read.
fn is_right_cut(alloc: Global, text: &[u8], length: usize) -> bool {
    let Some(front) = text.get(..length) else {
        return false;
    };
    match read_back(alloc, front) {
        Ok(is_same) => is_same,
        Err(error) => length < text.len() && is_behind(error, line_start(text, length), length),
    }
}

// Whether a text whose line is broken by a byte is refused so.
fn is_right_refusal(text: &[u8], place: usize, byte: u8, error: ReadError) -> bool {
    let start = line_start(text, place);
    match byte {
        0x80 => error.kind == ReadErrorKind::NotAscii && error.offset == place,
        0x00 => error.kind == ReadErrorKind::BadToken && is_behind(error, start, place),
        0x22 => error.kind == ReadErrorKind::BadToken && is_behind(error, start, text.len()),
        _ => is_behind(error, start, text.len()),
    }
}

// Whether a text with another byte at a place is refused where that breaks its line, and else read.
fn is_right_byte(alloc: Global, text: &[u8], place: usize, byte: u8) -> bool {
    let Some(other) = changed(alloc, text, place, byte) else {
        return false;
    };
    match read_back(alloc, &other) {
        Ok(is_same) => is_same && !breaks(text, place, byte),
        Err(error) => breaks(text, place, byte) && is_right_refusal(text, place, byte, error),
    }
}

// Whether all is right at a place.
fn is_right_at(alloc: Global, text: &[u8], place: usize) -> bool {
    is_right_cut(alloc, text, place)
        && BYTES
            .iter()
            .all(|byte| is_right_byte(alloc, text, place, *byte))
}

// Whether a file is printed as this text.
fn is_printed_as(alloc: Global, text: &[u8], canonical: &[u8]) -> bool {
    let file = read(alloc, text);
    let is_so = match &file {
        Ok(file) => matches!(print(alloc, file), Ok(told) if told.as_slice() == canonical),
        Err(_) => false,
    };
    drop(file);
    is_so
}

// The first place of a text where something is wrong.
fn wrong_place(alloc: Global, text: &[u8]) -> Option<usize> {
    for place in 0..text.len() {
        if !is_right_at(alloc, text, place) {
            return Some(place);
        }
    }
    if is_right_cut(alloc, text, text.len()) {
        None
    } else {
        Some(text.len())
    }
}

#[test]
fn broken_files_are_refused_where_they_break(rt: HostRuntime) {
    for (name, text, canonical) in &TEXTS {
        let wrong = match wrong_place(rt.alloc(), text) {
            None if is_printed_as(rt.alloc(), text, canonical) => None,
            None => Some(usize::MAX),
            wrong => wrong,
        };
        assert!(rt; wrong == None, "{name}, at {wrong:?}");
    }
}
