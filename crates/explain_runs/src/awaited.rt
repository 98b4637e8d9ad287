//! Whom an open action waits for.

use show_names::tell_object;
use smi_audit::{Expected, Past};
use smi_interp::objects_of;
use sml_domain::{ObjId, Subject};
use sml_text::Sink;
use sml_writer::Out;

// Whether names stand for an object now.
fn are_for(past: &Past, names: &[Subject], o: ObjId) -> bool {
    let books = past.books();
    names.iter().any(|name| objects_of(books.domain(), books.sets(), name).contains(&o))
}

// Whether an object waits for another that a name of its action stands for.
fn is_busy(past: &Past, o: ObjId, other: ObjId) -> bool {
    let books = past.books();
    let domain = books.domain();
    domain.has(o) && domain.has(other) && !books.is_clear(o, other)
}

// Writes those of the objects for which a name stands that are not clear for an object, and for which no earlier name
// stands. The word is written before the first of all.
fn tell_busy_of<W: Sink>(
    out: &mut Out<'_, W>,
    past: &Past,
    word: &[u8],
    o: ObjId,
    before: &[Subject],
    name: &Subject,
    is_first: bool,
) -> bool {
    let books = past.books();
    let mut is_first = is_first;
    for busy in objects_of(books.domain(), books.sets(), name) {
        if is_busy(past, o, *busy) && !are_for(past, before, *busy) {
            if is_first {
                out.say(word);
                is_first = false;
            }
            tell_object(out, books.domain(), *busy);
        }
    }
    is_first
}

// The objects for which the open action of an object waits, each once, by the members that sets have now.
fn tell_busy<W: Sink>(out: &mut Out<'_, W>, past: &Past, word: &[u8], o: ObjId, names: &[Subject]) {
    let mut is_first = true;
    for (place, name) in names.iter().enumerate() {
        let before = &names[..place];
        is_first = tell_busy_of(out, past, word, o, before, name, is_first);
    }
}

/// Writes a word and then the objects for which the open action of an object waits, each once with a blank in front;
/// nothing where it waits for none.
pub fn tell_awaited<W: Sink>(out: &mut Out<'_, W>, past: &Past, word: &[u8], o: ObjId) {
    if past.books().domain().has(o) {
        if let Some(Expected::Read(names)) = past.next(o) {
            tell_busy(out, past, word, o, names.list());
        }
    }
}

// The first of the objects for which a name stands that another has to wait for.
fn first_busy(past: &Past, o: ObjId, name: &Subject) -> Option<ObjId> {
    let books = past.books();
    for other in objects_of(books.domain(), books.sets(), name) {
        if is_busy(past, o, *other) {
            return Some(*other);
        }
    }
    None
}

/// The first object for which the open action of an object waits, if it waits.
pub fn first_awaited(past: &Past, o: ObjId) -> Option<ObjId> {
    if !past.books().domain().has(o) {
        return None;
    }
    let Some(Expected::Read(names)) = past.next(o) else {
        return None;
    };
    for name in names.list() {
        if let Some(busy) = first_busy(past, o, name) {
            return Some(busy);
        }
    }
    None
}
