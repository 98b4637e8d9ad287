//! The longest text. (The other limits, at each end, are rows of `tests_by_scripts`.)

use crate::texts::{has_file, refused, repeated};
use sml_read::MAX_TEXT;
use std::alloc::Global;

const BLANKS: &[u8] = &[b' '; 1024];

// Whether `lines` lines of blanks, the most that a text may have, are the empty file.
fn is_empty_file(alloc: Global, lines: usize) -> bool {
    match repeated(alloc, b"", BLANKS, lines, b"") {
        Ok(text) => text.len() == MAX_TEXT && has_file(alloc, &text, |file| file.items.is_empty()),
        Err(_) => false,
    }
}

// How `lines` lines of blanks and a byte that is not ASCII are refused.
fn refused_behind_blanks(alloc: Global, lines: usize) -> Option<(u8, usize)> {
    match repeated(alloc, b"", BLANKS, lines, b"\xff") {
        Ok(text) => refused(alloc, &text),
        Err(_) => None,
    }
}

#[test]
fn blanks_are_the_empty_file(rt: HostRuntime) {
    assert!(rt; is_empty_file(rt.alloc(), 1024));
    assert!(rt; refused_behind_blanks(rt.alloc(), 1024) == Some((1, 1_048_576)));
}
