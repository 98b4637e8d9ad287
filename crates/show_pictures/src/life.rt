//! The picture of a run: a line of life for each object and session, and a row for each entry of a journal.

use crate::bars::tell_bars;
use crate::labels::tell_label;
use crate::marks::{class_of_label, label_x, tell_mark};
use crate::names::{tell_lives, tell_names};
use crate::page::{LABEL, NAMES, Page};
use crate::style::STYLE;
use crate::svg::{Point, TEXT_END, tell_escaped, tell_number, tell_text, tell_text_front};
use crate::waits::{Waits, find_whom, follow, waits_of};
use show_names::tell_lines;
use smi_journal::Entry;
use sml_domain::{Domain, ObjId};
use sml_text::Sink;
use sml_writer::Out;
use std::alloc::{AllocError, Global};
use std::slice;

/// The names of the files of a run, as its picture shows them.
#[derive(Clone, Copy)]
pub struct RunFiles<'a> {
    /// The file of the domain.
    pub domain: &'a [u8],
    /// The file of the journal.
    pub journal: &'a [u8],
}

/// Which entries of a journal are shown.
#[derive(Clone, Copy)]
pub struct Window {
    /// The first that is shown, counted from 1. 0 is taken as 1.
    pub from: usize,
    /// How many are shown at most.
    pub count: usize,
}

// What is what in a picture.
const LEGEND: &[u8] =
    b"bar: action; line: state by colour, broken: dead; ring: waits; dots: reads; red: refused, killed";

/// Writes the picture of a run as an SVG. Above it are the names of its files, which of how many entries are shown, and
/// what is what. Below is a column for each session that they name and for each object of the domain, and a row for
/// each entry. Nothing is written behind a write that failed.
///
/// Objects that nobody commands come first, then those to which they send, and so on; devices come last, and all of one
/// kind in the order of the text.
///
/// A post and a session's request or kill is an arrow. An action is a bar from its start to its end, with its call at
/// the start and its state at the end; between actions an object has a band in the colour of its state, which is grey
/// and broken in the state of killed objects. A wait is a ring, with those for whom it is; what is read is a dotted
/// line with dots, a kill a cross. What was refused is red. What began before the entries that are shown, or does not
/// end in them, goes to the edge. A row shows the line of its journal where a browser points at it. The journal need
/// not be legal.
///
/// The time grows with the count of entries, with the length of what is written, which is some 200 to 500 bytes an
/// entry, and for each wait to the end of the journal with the length of its action. A line of the journal is held in
/// memory, two words for each entry that is shown, and some for each object and each class. An error means out of
/// memory.
pub fn tell_life<W: Sink>(
    alloc: Global,
    out: &mut Out<'_, W>,
    domain: &Domain,
    files: &RunFiles<'_>,
    entries: &[Entry],
    window: Window,
) -> Result<(), AllocError> {
    let first = window.from.saturating_sub(1).min(entries.len());
    let end = first.saturating_add(window.count).min(entries.len());
    let letters = files.domain.len().saturating_add(files.journal.len());
    let page = Page::of(alloc, domain, first, &entries[first..end], letters)?;
    tell_head(out, domain, &page, files, entries.len());
    tell_bars(alloc, out, domain, &page, &entries[..end])?;
    tell_rows(alloc, out, domain, &page, entries)?;
    tell_names(out, domain, &page, page.bottom());
    out.say(b"</svg>\n");
    Ok(())
}

// The beginning of a picture, with its names and the lines of life of sessions.
fn tell_head<W: Sink>(
    out: &mut Out<'_, W>,
    domain: &Domain,
    page: &Page,
    files: &RunFiles<'_>,
    entries: usize,
) {
    tell_front(out, page);
    out.say(b"<title>");
    tell_files(out, files);
    out.say(b"</title>\n");
    out.say(STYLE);
    out.say(b"<rect class=\"page\" width=\"100%\" height=\"100%\"/>\n");
    tell_text_front(out, b"heading", Point { x: 12, y: 18 });
    tell_files(out, files);
    tell_counts(out, page, entries);
    out.say(TEXT_END);
    tell_text_front(out, b"note", Point { x: 12, y: 36 });
    out.say(LEGEND);
    out.say(TEXT_END);
    tell_lives(out, page);
    tell_names(out, domain, page, NAMES);
}

// The first line of a picture.
fn tell_front<W: Sink>(out: &mut Out<'_, W>, page: &Page) {
    let (width, height) = (page.full_width(), page.full_height());
    out.say(b"<svg xmlns=\"http://www.w3.org/2000/svg\" viewBox=\"0 0 ");
    out.number(width);
    out.say(b" ");
    out.number(height);
    out.say(b"\"");
    tell_number(out, b"width", width);
    tell_number(out, b"height", height);
    out.say(b">\n");
}

// The names of the files of a run.
fn tell_files<W: Sink>(out: &mut Out<'_, W>, files: &RunFiles<'_>) {
    tell_escaped(out, files.domain);
    out.say(b", ");
    tell_escaped(out, files.journal);
}

// Which of how many entries are shown.
fn tell_counts<W: Sink>(out: &mut Out<'_, W>, page: &Page, entries: usize) {
    if page.first < page.end {
        out.say(b": entries ");
        out.number((page.first as u64).saturating_add(1));
        out.say(b" to ");
        out.number(page.end as u64);
        out.say(b" of ");
    } else {
        out.say(b": no entry of ");
    }
    out.number(entries as u64);
}

// The rows of entries.
fn tell_rows<W: Sink>(
    alloc: Global,
    out: &mut Out<'_, W>,
    domain: &Domain,
    page: &Page,
    entries: &[Entry],
) -> Result<(), AllocError> {
    let mut waits = waits_of(alloc, domain, entries, page.first, page.end)?;
    let mut text = Vec::new(alloc);
    let mut whom = Vec::new(alloc);
    for (place, entry) in entries.iter().enumerate().take(page.end) {
        if place >= page.first {
            find_waited(&waits, entries, entry, place, &mut whom)?;
            tell_entry(out, domain, page, place, entry, &whom, &mut text)?;
        }
        follow(&mut waits, entry, place);
    }
    Ok(())
}

// Finds for whom an entry waits, if it is a wait.
fn find_waited(
    waits: &Waits,
    entries: &[Entry],
    entry: &Entry,
    place: usize,
    whom: &mut Vec<ObjId>,
) -> Result<(), AllocError> {
    match entry {
        Entry::Wait { object } => find_whom(waits, entries, *object, place, whom),
        _ => Ok(()),
    }
}

// An entry: its line, and its row.
fn tell_entry<W: Sink>(
    out: &mut Out<'_, W>,
    domain: &Domain,
    page: &Page,
    place: usize,
    entry: &Entry,
    whom: &[ObjId],
    text: &mut Vec<u8>,
) -> Result<(), AllocError> {
    out.say(b"<g><title>");
    spell_line(text, domain, slice::from_ref(entry))?;
    tell_escaped(out, text);
    out.say(b"</title>\n");
    spell_label(text, domain, entry, whom)?;
    tell_row(out, domain, page, place, entry, text);
    out.say(b"</g>\n");
    Ok(())
}

// Writes the line of an entry into a buffer, in place of what it holds, without the end of the line.
fn spell_line(text: &mut Vec<u8>, domain: &Domain, entry: &[Entry]) -> Result<(), AllocError> {
    text.clear();
    let mut out = Out::new(&mut *text);
    tell_lines(&mut out, domain, entry);
    let failed = out.failed;
    let _ = text.pop();
    if failed { Err(AllocError) } else { Ok(()) }
}

// Writes what is beside an entry into a buffer, in place of what it holds.
fn spell_label(
    text: &mut Vec<u8>,
    domain: &Domain,
    entry: &Entry,
    whom: &[ObjId],
) -> Result<(), AllocError> {
    text.clear();
    let mut out = Out::new(text);
    tell_label(&mut out, domain, entry, whom);
    if out.failed { Err(AllocError) } else { Ok(()) }
}

// A row: the number of its entry, what is drawn, and what is written beside that.
fn tell_row<W: Sink>(
    out: &mut Out<'_, W>,
    domain: &Domain,
    page: &Page,
    place: usize,
    entry: &Entry,
    label: &[u8],
) {
    let y = page.line_of(place);
    let number = Point {
        x: page.numbers(),
        y: y.saturating_add(4),
    };
    tell_text_front(out, b"place", number);
    out.number((place as u64).saturating_add(1));
    out.say(TEXT_END);
    tell_mark(out, domain, page, entry, y);
    let at = Point {
        x: label_x(page, entry),
        y: y.saturating_sub(6),
    };
    let words = label.strip_prefix(b" ").unwrap_or(label);
    tell_text(out, class_of_label(domain, entry), at, words, LABEL);
}
