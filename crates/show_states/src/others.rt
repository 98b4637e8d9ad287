//! The lines of how all stands of which only tests speak: requests that wait, members of sets, and what is next.

use crate::lines::tell_spaced;
use crate::stands::Standing;
use explain_journals::{Next, next_of};
use show_names::{tell_call, tell_object, tell_set};
use smi_audit::Past;
use smi_interp::Post;
use smi_journal::Sender;
use sml_domain::{Group, ObjId, SetId};
use sml_text::Sink;
use sml_writer::Out;
use std::alloc::{AllocError, Global};

// How many requests wait at an object, where any do.
pub(crate) fn tell_waiting<S: Standing, W: Sink>(
    out: &mut Out<'_, W>,
    standing: &S,
    o: ObjId,
    count: usize,
) {
    if count > 0 {
        out.say(b"waiting");
        tell_object(out, standing.domain(), o);
        out.say(b" ");
        out.number(count as u64);
        out.say(b"\n");
    }
}

// The members of a set, where they are not the declared ones in their order.
pub(crate) fn tell_members<S: Standing, W: Sink>(
    out: &mut Out<'_, W>,
    standing: &S,
    set: SetId,
    group: &Group,
) {
    let members = standing.members(set);
    if members == group.members.as_slice() {
        return;
    }
    out.say(b"member");
    tell_spaced(out, Some(group.name));
    for member in members {
        tell_object(out, standing.domain(), *member);
    }
    out.say(b"\n");
}

// How many requests of objects wait at an object: they were accepted and not started.
pub(crate) fn waiting_at(past: &Past, o: ObjId) -> usize {
    let books = past.books();
    let mut count = 0usize;
    for a in 0..books.domain().objects() {
        let a = ObjId::new(a);
        if books.domain().has(o) {
            let posted = books.posted(a, o);
            let started = books.started(&Sender::Object(a), o);
            count = count.saturating_add(posted.saturating_sub(started));
        }
    }
    count
}

// A post that an object makes next, with the verdict that it has if the mailbox of its target is not full.
fn tell_post<W: Sink>(out: &mut Out<'_, W>, past: &Past, o: ObjId, post: &Post) {
    let books = past.books();
    let domain = books.domain();
    out.say(b" post");
    tell_object(out, domain, post.target);
    if domain.has(o) && domain.has(post.target) {
        if books.killed(post.target).is_some() {
            out.say(b" refused dead");
        } else {
            out.say(b" ");
            out.number(books.posted(o, post.target) as u64);
        }
    }
    tell_call(out, domain, post.target, post.action, post.args.values());
}

// What an object reads next: the states of these objects, or that it waits where one of them is busy.
fn tell_read<W: Sink>(out: &mut Out<'_, W>, past: &Past, o: ObjId, objects: &[ObjId]) {
    let books = past.books();
    let domain = books.domain();
    if objects.iter().any(|x| domain.has(o) && domain.has(*x) && !books.is_clear(o, *x)) {
        out.say(b" wait");
        return;
    }
    out.say(b" seen");
    for object in objects {
        if domain.has(*object) {
            tell_object(out, domain, *object);
            out.say(b"=");
            if let Some(name) = domain.state_name(books.state(*object)) {
                out.say(name.as_bytes());
            }
        }
    }
}

// The entry that comes next, from its verb on and without the object whose it is.
fn tell_entry<W: Sink>(out: &mut Out<'_, W>, past: &Past, o: ObjId, next: &Next) {
    let domain = past.books().domain();
    match next {
        Next::Post(post) => tell_post(out, past, o, post),
        Next::Nobody(set) => {
            out.say(b" empty");
            tell_set(out, domain, *set);
        }
        Next::Read(objects) => tell_read(out, past, o, objects.as_slice()),
        Next::Change { add, member, set } => {
            out.say(if *add { b" insert" } else { b" remove" });
            tell_object(out, domain, *member);
            tell_set(out, domain, *set);
        }
        Next::End(state) => {
            out.say(b" end");
            tell_spaced(out, domain.state_name(*state));
        }
    }
}

// What the open action of an object does next, if one is open there. A device ends its action in any state.
pub(crate) fn tell_next<W: Sink>(
    alloc: Global,
    past: &Past,
    o: ObjId,
    out: &mut Out<'_, W>,
) -> Result<(), AllocError> {
    let books = past.books();
    let domain = books.domain();
    if !domain.has(o) || !books.is_open(o) {
        return Ok(());
    }
    let next = next_of(alloc, past, o)?;
    out.say(b"next");
    tell_object(out, domain, o);
    match &next {
        None => out.say(b" end skipped"),
        Some(_) if domain.associated(o) => out.say(b" end"),
        Some(next) => tell_entry(out, past, o, next),
    }
    out.say(b"\n");
    Ok(())
}
