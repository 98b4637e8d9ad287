//! Journals of which some lines are changed.

use crate::judged::{Said, is_said, joined};
use crate::settings::Setting;
use std::alloc::Global;

/// How a journal is changed. Lines count from 1, and the first one is the header.
#[derive(Clone, Copy)]
pub enum Change {
    /// It stays as it is.
    Nothing,
    /// A line is replaced by this.
    Line(usize, &'static [u8]),
    /// Lines are replaced by these.
    Lines(&'static [(usize, &'static [u8])]),
    /// Two lines are exchanged.
    Exchange(usize, usize),
    /// It ends behind this number of lines.
    First(usize),
}

// The line of a number, or no bytes if there is no such line.
fn line_of(lines: &[&'static [u8]], number: usize) -> &'static [u8] {
    for (i, line) in lines.iter().enumerate() {
        if i + 1 == number {
            return *line;
        }
    }
    b""
}

// What replaces the line of a number, if that is one of the lines that are changed.
fn line_among(
    lines: &[&'static [u8]],
    changes: &[(usize, &'static [u8])],
    number: usize,
) -> &'static [u8] {
    for (n, line) in changes {
        if *n == number {
            return *line;
        }
    }
    line_of(lines, number)
}

// The line of a number, after the change.
fn changed(lines: &[&'static [u8]], change: Change, number: usize) -> &'static [u8] {
    match change {
        Change::Nothing => line_of(lines, number),
        Change::Line(n, line) => {
            if number == n {
                line
            } else {
                line_of(lines, number)
            }
        }
        Change::Lines(changes) => line_among(lines, changes, number),
        Change::Exchange(a, b) => {
            if number == a {
                line_of(lines, b)
            } else if number == b {
                line_of(lines, a)
            } else {
                line_of(lines, number)
            }
        }
        Change::First(count) => {
            if number <= count {
                line_of(lines, number)
            } else {
                b""
            }
        }
    }
}

fn text_of(alloc: Global, lines: &[&'static [u8]], change: Change) -> Option<Vec<u8>> {
    let mut text = Vec::new(alloc);
    for i in 0..lines.len() {
        text.extend_from_slice(changed(lines, change, i + 1)).ok()?;
    }
    Some(text)
}

/// The first line of a journal of the first format.
pub const FIRST: &[u8] = b"smi-journal 1\n";

/// The first line of a journal of the second format.
pub const SECOND: &[u8] = b"smi-journal 2\n";

// The text under another first line, as it is long enough to have one.
fn with_header(alloc: Global, header: &[u8], text: &[u8]) -> Option<Vec<u8>> {
    let (_, rest) = text.split_at_checked(header.len())?;
    joined(alloc, header, rest)
}

/// A row: its name, how a journal is changed, and what is then said about it.
pub type ChangeRow = (&'static str, Change, Said);

/// Whether the judge says this of the lines of a journal, after a change.
pub fn is_said_changed(
    alloc: Global,
    setting: Setting,
    lines: &[&'static [u8]],
    change: Change,
    said: Said,
) -> bool {
    match text_of(alloc, lines, change) {
        Some(text) => is_said(alloc, setting, &text, said),
        None => false,
    }
}

/// Whether the judge says this of the lines of a journal, after a change, under the first line of the second format.
pub fn is_said_in_second(
    alloc: Global,
    setting: Setting,
    lines: &[&'static [u8]],
    change: Change,
    said: Said,
) -> bool {
    let Some(text) = text_of(alloc, lines, change) else {
        return false;
    };
    match with_header(alloc, SECOND, &text) {
        Some(text) => is_said(alloc, setting, &text, said),
        None => false,
    }
}

/// A row: its name, how a journal is changed, and what is then said about it in the first format and in the second.
pub type FormatRow = (&'static str, Change, Said, Said);

/// Whether the judge says this of the lines of a journal, after a change, in the first format and in the second.
pub fn is_said_in_both(
    alloc: Global,
    setting: Setting,
    lines: &[&'static [u8]],
    change: Change,
    first: Said,
    second: Said,
) -> bool {
    is_said_changed(alloc, setting, lines, change, first)
        && is_said_in_second(alloc, setting, lines, change, second)
}
