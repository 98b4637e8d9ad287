//! What is drawn of an entry beside its bar.

use crate::hues::class_of_state;
use crate::page::Page;
use crate::svg::{Point, tell_circle, tell_line, tell_text};
use smi_journal::{ActionEnd, Cause, Entry, Reading, Sender, SessionId, Verdict};
use sml_domain::{Domain, ObjId};
use sml_text::Sink;
use sml_writer::Out;

/// Draws an entry in its line.
pub(crate) fn tell_mark<W: Sink>(
    out: &mut Out<'_, W>,
    domain: &Domain,
    page: &Page,
    entry: &Entry,
    y: u64,
) {
    match entry {
        Entry::Start {
            object,
            sender: Sender::Operator(session),
            ..
        } => tell_request(out, page, b"sent", *session, *object, y),
        Entry::Post {
            sender,
            target,
            verdict,
            ..
        } => tell_post(out, page, *sender, *target, *verdict, y),
        Entry::Wait { object } => {
            let middle = Point {
                x: page.object_x(*object),
                y,
            };
            tell_circle(out, b"wait", middle, 5);
        }
        Entry::Seen { object, readings } => {
            tell_readings(out, domain, page, *object, readings.list(), y);
        }
        Entry::Kill { object, cause } => tell_kill(out, page, *object, *cause, y),
        Entry::Start { .. }
        | Entry::End { .. }
        | Entry::Insert { .. }
        | Entry::Remove { .. }
        | Entry::NoMember { .. } => {}
    }
}

// An arrow from one column to the edge of another.
fn tell_arrow<W: Sink>(out: &mut Out<'_, W>, class: &[u8], from: u64, to: u64, y: u64) {
    let (near, far) = if from < to {
        (from.saturating_add(5), to.saturating_sub(6))
    } else {
        (from.saturating_sub(5), to.saturating_add(6))
    };
    tell_line(out, class, Point { x: near, y }, Point { x: far, y });
}

// What a session asks for, or does to an object.
fn tell_request<W: Sink>(
    out: &mut Out<'_, W>,
    page: &Page,
    class: &[u8],
    session: SessionId,
    o: ObjId,
    y: u64,
) {
    tell_arrow(out, class, page.session_x(session), page.object_x(o), y);
}

// A post, which is an arrow, and a small loop where an object posts to itself.
fn tell_post<W: Sink>(
    out: &mut Out<'_, W>,
    page: &Page,
    sender: ObjId,
    target: ObjId,
    verdict: Verdict,
    y: u64,
) {
    let class: &[u8] = match verdict {
        Verdict::Accepted(_) => b"sent",
        Verdict::Full | Verdict::Dead => b"bad",
    };
    let x = page.object_x(sender);
    if sender.get() == target.get() {
        let side = x.saturating_add(30);
        let lower = y.saturating_add(6);
        tell_line(out, b"loop", Point { x, y }, Point { x: side, y });
        tell_line(
            out,
            b"loop",
            Point { x: side, y },
            Point { x: side, y: lower },
        );
        tell_arrow(out, class, side, x, lower);
    } else {
        tell_arrow(out, class, x, page.object_x(target), y);
    }
}

// A dotted line over the columns of the objects that were read, and the state of each.
fn tell_readings<W: Sink>(
    out: &mut Out<'_, W>,
    domain: &Domain,
    page: &Page,
    o: ObjId,
    readings: &[Reading],
    y: u64,
) {
    let (least, most) = reach(page, o, readings);
    tell_line(out, b"read", Point { x: least, y }, Point { x: most, y });
    for reading in readings {
        tell_reading(out, domain, page, reading, y);
    }
}

// The outermost columns among that of an object and those of the objects that it read.
fn reach(page: &Page, o: ObjId, readings: &[Reading]) -> (u64, u64) {
    let mut least = page.object_x(o);
    let mut most = least;
    for reading in readings {
        let x = page.object_x(reading.object);
        least = least.min(x);
        most = most.max(x);
    }
    (least, most)
}

// A dot in the column of an object that was read, with its state.
fn tell_reading<W: Sink>(
    out: &mut Out<'_, W>,
    domain: &Domain,
    page: &Page,
    reading: &Reading,
    y: u64,
) {
    let x = page.object_x(reading.object);
    tell_circle(out, b"dot", Point { x, y }, 3);
    if let Some(name) = domain.state_name(reading.state) {
        let at = Point {
            x: x.saturating_add(9),
            y: y.saturating_sub(6),
        };
        let class = class_of_state(domain, reading.object, reading.state);
        tell_text(out, class, at, name.as_bytes(), page.letters());
    }
}

// A cross, and an arrow from the session that kills.
fn tell_kill<W: Sink>(out: &mut Out<'_, W>, page: &Page, o: ObjId, cause: Cause, y: u64) {
    if let Cause::By(session) = cause {
        tell_request(out, page, b"bad", session, o, y);
    }
    let x = page.object_x(o);
    let left = x.saturating_sub(6);
    let right = x.saturating_add(6);
    let upper = y.saturating_sub(6);
    let lower = y.saturating_add(6);
    tell_line(
        out,
        b"cross",
        Point { x: left, y: upper },
        Point { x: right, y: lower },
    );
    tell_line(
        out,
        b"cross",
        Point { x: left, y: lower },
        Point { x: right, y: upper },
    );
}

/// The class of what is written beside an entry.
pub(crate) fn class_of_label(domain: &Domain, entry: &Entry) -> &'static [u8] {
    match entry {
        Entry::Start { .. } => b"begun",
        Entry::Post {
            verdict: Verdict::Accepted(_),
            ..
        } => b"post",
        Entry::End {
            object,
            result: ActionEnd::State(state),
        } => class_of_state(domain, *object, *state),
        Entry::Post { .. } | Entry::Kill { .. } => b"fault",
        Entry::Wait { .. }
        | Entry::Seen { .. }
        | Entry::End { .. }
        | Entry::Insert { .. }
        | Entry::Remove { .. }
        | Entry::NoMember { .. } => b"note",
    }
}

/// Where what is written beside an entry begins.
pub(crate) fn label_x(page: &Page, entry: &Entry) -> u64 {
    let left = match entry {
        Entry::Start { object, .. }
        | Entry::Wait { object }
        | Entry::Seen { object, .. }
        | Entry::End { object, .. }
        | Entry::Kill { object, .. }
        | Entry::Insert { object, .. }
        | Entry::Remove { object, .. }
        | Entry::NoMember { object, .. } => page.object_x(*object),
        Entry::Post { sender, target, .. } => { page.object_x(*sender).min(page.object_x(*target)) }
    };
    left.saturating_add(9)
}
