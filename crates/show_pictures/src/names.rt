//! The columns of a picture: the names of sessions and objects, and the lines of life of sessions.

use crate::page::{NAME_HEIGHT, Page, SESSIONS};
use crate::svg::{Point, TEXT_END, tell_box, tell_line, tell_text_front};
use smi_journal::SessionId;
use sml_domain::{Domain, ObjId};
use sml_text::Sink;
use sml_writer::Out;

/// Writes the names of sessions and objects in boxes, `y` below the upper edge.
pub(crate) fn tell_names<W: Sink>(out: &mut Out<'_, W>, domain: &Domain, page: &Page, y: u64) {
    tell_sessions(out, page, y);
    tell_objects(out, domain, page, y);
}

/// Writes the lines of life of sessions.
pub(crate) fn tell_lives<W: Sink>(out: &mut Out<'_, W>, page: &Page) {
    for number in 1..=SESSIONS as u8 {
        if let Some(session) = shown_session(page, number) {
            tell_life_line(out, page, page.session_x(session));
        }
    }
}

// The names of sessions.
fn tell_sessions<W: Sink>(out: &mut Out<'_, W>, page: &Page, y: u64) {
    for number in 1..=SESSIONS as u8 {
        if let Some(session) = shown_session(page, number) {
            let word = [b'@', b'0' + session.get()];
            tell_name(out, page, page.session_x(session), y, &word);
        }
    }
}

// The names of objects.
fn tell_objects<W: Sink>(out: &mut Out<'_, W>, domain: &Domain, page: &Page, y: u64) {
    for number in 0..domain.objects() {
        let o = ObjId::new(number);
        if let Some(name) = domain.object_name(o) {
            tell_name(out, page, page.object_x(o), y, name.as_bytes());
        }
    }
}

// The session of a number, if it has a column.
fn shown_session(page: &Page, number: u8) -> Option<SessionId> {
    match SessionId::new(number) {
        Some(session) if page.has_session(session) => Some(session),
        _ => None,
    }
}

// A line of life.
fn tell_life_line<W: Sink>(out: &mut Out<'_, W>, page: &Page, x: u64) {
    let from = Point { x, y: page.top() };
    let to = Point {
        x,
        y: page.bottom(),
    };
    tell_line(out, b"life", from, to);
}

// A name in a box.
fn tell_name<W: Sink>(out: &mut Out<'_, W>, page: &Page, x: u64, y: u64, name: &[u8]) {
    let corner = page.corner(x, y);
    tell_box(out, b"box", corner, page.box_width(), NAME_HEIGHT);
    let at = Point {
        x,
        y: y.saturating_add(15),
    };
    tell_text_front(out, b"name", at);
    out.say(name);
    out.say(TEXT_END);
}
