//! Objects that wait for others, and those that wait for one another.

use crate::awaited::{first_awaited, tell_awaited};
use crate::reasons::{MOST_TOLD, tell_action, tell_bare, tell_line, tell_more};
use crate::walk::Walk;
use show_names::tell_object;
use smi_audit::Past;
use smi_journal::{Entry, write_journal};
use sml_domain::{Domain, ObjId};
use sml_text::Sink;
use sml_writer::Out;
use std::alloc::{AllocError, Global};
use std::sync::Arc;

// Behind all entries.
fn walk_all(alloc: Global, domain: &Domain, entries: &[Entry]) -> Result<Walk, AllocError> {
    let mut walk = Walk::new(alloc, domain)?;
    for (place, entry) in entries.iter().enumerate() {
        walk.enter(entry, place);
    }
    Ok(walk)
}

// Whether an action is open that no device performs.
fn is_any_open(domain: &Domain, walk: &Walk) -> bool {
    for o in 0..domain.objects() {
        let o = ObjId::new(o);
        if walk.opened(o).is_some() && !domain.associated(o) {
            return true;
        }
    }
    false
}

// That an object waits, and for whom.
fn tell_wait<W: Sink>(out: &mut Out<'_, W>, past: &Past, entries: &[Entry], walk: &Walk, o: ObjId) {
    let Some(opened) = walk.opened(o) else {
        return;
    };
    let domain = past.books().domain();
    tell_bare(out, domain.object_name(o));
    out.say(b" waits in");
    tell_action(out, domain, entries.get(opened));
    tell_line(out, opened);
    tell_awaited(out, past, b" for", o);
    out.say(b"\n");
}

// Whether objects wait for one another in a circle, of which this one is the first by its declaration.
fn heads_circle(past: &Past, o: ObjId) -> bool {
    let mut at = o;
    for _ in 0..past.books().domain().objects() {
        let Some(next) = first_awaited(past, at) else {
            return false;
        };
        if next.get() <= o.get() {
            return next.get() == o.get();
        }
        at = next;
    }
    false
}

// That the objects of a circle wait for one another.
fn tell_circle<W: Sink>(out: &mut Out<'_, W>, past: &Past, head: ObjId) {
    let domain = past.books().domain();
    tell_bare(out, domain.object_name(head));
    let mut at = head;
    for _ in 0..domain.objects() {
        let Some(next) = first_awaited(past, at) else {
            break;
        };
        out.say(b" waits for");
        tell_object(out, domain, next);
        if next.get() == head.get() {
            break;
        }
        out.say(b", which");
        at = next;
    }
    out.say(b": they wait for one another\n");
}

// All objects that wait, and then all circles.
fn tell_all<W: Sink>(out: &mut Out<'_, W>, past: &Past, entries: &[Entry], walk: &Walk) {
    let objects = past.books().domain().objects();
    let mut count: u64 = 0;
    for o in 0..objects {
        let o = ObjId::new(o);
        if first_awaited(past, o).is_some() {
            if count < MOST_TOLD {
                tell_wait(out, past, entries, walk, o);
            }
            count = count.saturating_add(1);
        }
    }
    tell_more(out, count, b"objects wait");
    for o in 0..objects {
        if heads_circle(past, ObjId::new(o)) {
            tell_circle(out, past, ObjId::new(o));
        }
    }
}

/// Writes which objects wait at the end of a journal, and for whom, and which of them wait for one another.
pub(crate) fn tell_waits<W: Sink>(
    alloc: Global,
    domain: &Arc<Domain>,
    entries: &[Entry],
    out: &mut Out<'_, W>,
) -> Result<(), AllocError> {
    let walk = walk_all(alloc, domain, entries)?;
    if !is_any_open(domain, &walk) {
        return Ok(());
    }
    let mut text = Vec::new(alloc);
    if write_journal(domain, entries, &mut text).is_err() {
        return Err(AllocError);
    }
    match Past::of_text(alloc, domain, text.as_slice()) {
        Some(past) => tell_all(out, &past, entries, &walk),
        None => return Err(AllocError),
    }
    Ok(())
}
