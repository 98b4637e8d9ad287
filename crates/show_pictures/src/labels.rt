//! What is written beside an entry.

use show_names::{tell_call, tell_object, tell_session, tell_set};
use smi_journal::{ActionEnd, Cause, Entry, Sender, Verdict};
use sml_domain::{Domain, ObjId, SetId, StateId};
use sml_text::Sink;
use sml_writer::Out;

// The name of a state, where it has one.
fn tell_state<W: Sink>(out: &mut Out<'_, W>, domain: &Domain, state: StateId) {
    if let Some(name) = domain.state_name(state) {
        out.say(name.as_bytes());
    }
}

// Who sent what is started.
fn tell_sender<W: Sink>(out: &mut Out<'_, W>, domain: &Domain, sender: &Sender) {
    out.say(b" from");
    match sender {
        Sender::Operator(session) => tell_session(out, *session),
        Sender::Object(o) => tell_object(out, domain, *o),
    }
}

// Why a post was refused.
fn tell_verdict<W: Sink>(out: &mut Out<'_, W>, verdict: Verdict) {
    match verdict {
        Verdict::Accepted(_) => {}
        Verdict::Full => out.say(b" refused full:"),
        Verdict::Dead => out.say(b" refused dead:"),
    }
}

// How an action ended.
fn tell_end<W: Sink>(out: &mut Out<'_, W>, domain: &Domain, end: ActionEnd) {
    match end {
        ActionEnd::State(state) => {
            out.say(b" ");
            tell_state(out, domain, state);
        }
        ActionEnd::Skipped => out.say(b" skipped"),
    }
}

// Why an object was killed.
fn tell_cause<W: Sink>(out: &mut Out<'_, W>, cause: Cause) {
    match cause {
        Cause::By(session) => {
            out.say(b" killed by");
            tell_session(out, session);
        }
        Cause::Fault => out.say(b" killed by a fault of its device"),
    }
}

// What a set gets, or loses.
fn tell_change<W: Sink>(
    out: &mut Out<'_, W>,
    domain: &Domain,
    word: &[u8],
    member: ObjId,
    set: SetId,
) {
    out.say(word);
    tell_object(out, domain, member);
    tell_set(out, domain, set);
}

// For whom an action waits, if that is known.
fn tell_wait<W: Sink>(out: &mut Out<'_, W>, domain: &Domain, whom: &[ObjId]) {
    out.say(b" waits");
    let mut before: &[u8] = b" for";
    for o in whom {
        out.say(before);
        tell_object(out, domain, *o);
        before = b",";
    }
}

/// Writes what is beside an entry, with a blank before it. The action of a `wait` waits for those of `whom`.
pub(crate) fn tell_label<W: Sink>(
    out: &mut Out<'_, W>,
    domain: &Domain,
    entry: &Entry,
    whom: &[ObjId],
) {
    match entry {
        Entry::Start {
            object,
            sender,
            action,
            args,
            ..
        } => {
            tell_call(out, domain, *object, *action, args.values());
            tell_sender(out, domain, sender);
        }
        Entry::Post {
            target,
            verdict,
            action,
            args,
            ..
        } => {
            tell_verdict(out, *verdict);
            tell_call(out, domain, *target, *action, args.values());
        }
        Entry::Wait { .. } => tell_wait(out, domain, whom),
        Entry::Seen { .. } => out.say(b" reads"),
        Entry::End { result: end, .. } => tell_end(out, domain, *end),
        Entry::Kill { cause, .. } => tell_cause(out, *cause),
        Entry::Insert { member, set, .. } => {
            tell_change(out, domain, b" insert", *member, *set);
        }
        Entry::Remove { member, set, .. } => {
            tell_change(out, domain, b" remove", *member, *set);
        }
        Entry::NoMember { set, .. } => {
            out.say(b" empty");
            tell_set(out, domain, *set);
        }
    }
}
