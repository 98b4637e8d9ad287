//! Devices that failed, requests that were skipped, and objects that wait.

use crate::waits::tell_waits;
use crate::walk::Walk;
use show_names::{tell_object, tell_session};
use smi_journal::{ActionEnd, Cause, Entry, Sender};
use sml_domain::{Domain, ObjId, State, StateId};
use sml_text::Sink;
use sml_tree::Name;
use sml_writer::Out;
use std::alloc::{AllocError, Global};
use std::sync::Arc;

/// How many lines of a kind are written at most.
pub(crate) const MOST_TOLD: u64 = 20;

// What is told about a run.
#[derive(Clone, Copy)]
enum Kind {
    // Devices that failed.
    Failed,
    // Requests that were skipped.
    Skipped,
}

// Whether an entry is one of a kind.
fn is_of(kind: Kind, entry: &Entry) -> bool {
    match (kind, entry) {
        (Kind::Failed, Entry::Kill { cause, .. }) => matches!(cause, Cause::Fault),
        (Kind::Skipped, Entry::End { result, .. }) => matches!(result, ActionEnd::Skipped),
        _ => false,
    }
}

// A name, if it is there.
pub(crate) fn tell_bare<W: Sink>(out: &mut Out<'_, W>, name: Option<Name>) {
    if let Some(name) = name {
        out.say(name.as_bytes());
    }
}

// The line of the journal that has the entry of a place.
pub(crate) fn tell_line<W: Sink>(out: &mut Out<'_, W>, place: usize) {
    out.say(b" (line ");
    out.number((place as u64).saturating_add(2));
    out.say(b" of the journal)");
}

// The action that the entry of a place starts.
pub(crate) fn tell_action<W: Sink>(out: &mut Out<'_, W>, domain: &Domain, start: Option<&Entry>) {
    if let Some(Entry::Start { action, .. }) = start {
        out.say(b" ");
        tell_bare(out, domain.action_name(*action));
    }
}

// Who sent what the entry of a place starts.
fn tell_sender<W: Sink>(out: &mut Out<'_, W>, domain: &Domain, start: Option<&Entry>) {
    if let Some(Entry::Start { sender, .. }) = start {
        out.say(b" of");
        match sender {
            Sender::Operator(session) => tell_session(out, *session),
            Sender::Object(object) => tell_object(out, domain, *object),
        }
    }
}

// That the device of an object failed at the action that a start opened.
fn tell_failed<W: Sink>(
    out: &mut Out<'_, W>,
    domain: &Domain,
    o: ObjId,
    start: Option<&Entry>,
    place: usize,
) {
    tell_bare(out, domain.object_name(o));
    out.say(b" was killed, since its device failed at");
    tell_action(out, domain, start);
    tell_sender(out, domain, start);
    tell_line(out, place);
    out.say(b": the script has no line `device");
    tell_object(out, domain, o);
    tell_action(out, domain, start);
    out.say(b" STATE`, or the last one names a state that");
    tell_object(out, domain, o);
    out.say(b" does not have\n");
}

// The row of a state of an object's class.
fn state_row(domain: &Domain, o: ObjId, state: StateId) -> Option<&State> {
    if !domain.has(o) {
        return None;
    }
    let class = domain.classes().get(domain.class_of(o).get())?;
    class.states.get(state.get())
}

// The actions that a state of an object declares.
fn tell_declared<W: Sink>(out: &mut Out<'_, W>, domain: &Domain, o: ObjId, state: StateId) {
    let Some(row) = state_row(domain, o, state) else {
        return;
    };
    out.say(b", which declares");
    let mut is_first = true;
    for action in row.actions.rows() {
        out.say(if is_first { b" " } else { b", " });
        tell_bare(out, domain.action_name(action.number));
        is_first = false;
    }
    if is_first {
        out.say(b" no action");
    }
}

// That an object skipped the action that a start opened, since its state does not declare it.
fn tell_skipped<W: Sink>(
    out: &mut Out<'_, W>,
    domain: &Domain,
    o: ObjId,
    state: Option<StateId>,
    start: Option<&Entry>,
) {
    tell_bare(out, domain.object_name(o));
    out.say(b" skipped");
    tell_action(out, domain, start);
    tell_sender(out, domain, start);
    if let Some(state) = state {
        out.say(b" in state ");
        tell_bare(out, domain.state_name(state));
        tell_declared(out, domain, o, state);
    }
}

// Writes what is told about the entry of a place, if it is of a kind.
fn tell_one<W: Sink>(
    out: &mut Out<'_, W>,
    domain: &Domain,
    walk: &Walk,
    entries: &[Entry],
    place: usize,
) {
    match entries.get(place) {
        Some(Entry::Kill { object, .. }) => {
            if let Some(opened) = walk.opened(*object) {
                tell_failed(out, domain, *object, entries.get(opened), place);
            }
        }
        Some(Entry::End { object, .. }) => {
            if let Some(opened) = walk.opened(*object) {
                let state = walk.state(*object);
                tell_skipped(out, domain, *object, state, entries.get(opened));
                tell_line(out, place);
                out.say(b"\n");
            }
        }
        _ => {}
    }
}

// How many more there are than are told.
pub(crate) fn tell_more<W: Sink>(out: &mut Out<'_, W>, count: u64, what: &[u8]) {
    if count > MOST_TOLD {
        out.say(b"and ");
        out.number(count.saturating_sub(MOST_TOLD));
        out.say(b" more ");
        out.say(what);
        out.say(b"\n");
    }
}

// Writes what is told about all entries of a kind.
fn tell_each<W: Sink>(
    alloc: Global,
    domain: &Domain,
    entries: &[Entry],
    kind: Kind,
    out: &mut Out<'_, W>,
) -> Result<u64, AllocError> {
    let mut walk = Walk::new(alloc, domain)?;
    let mut count: u64 = 0;
    for (place, entry) in entries.iter().enumerate() {
        if is_of(kind, entry) {
            if count < MOST_TOLD {
                tell_one(out, domain, &walk, entries, place);
            }
            count = count.saturating_add(1);
        }
        walk.enter(entry, place);
    }
    Ok(count)
}

/// Writes why a run went as it did, by its journal: which devices failed, and at what; which requests were skipped, in
/// which state; and which objects wait, and for whom. Of each kind at most twenty, and then how many more there are.
/// Nothing is written where no device failed, nothing was skipped and no object waits.
///
/// The time is that of the entries, twice; where an object waits the journal is judged once more, and takes the time
/// and the memory of that. The error is out of memory; then the first lines are written.
pub fn tell_reasons<W: Sink>(
    alloc: Global,
    domain: &Arc<Domain>,
    entries: &[Entry],
    out: &mut Out<'_, W>,
) -> Result<(), AllocError> {
    let devices = tell_each(alloc, domain, entries, Kind::Failed, out)?;
    tell_more(out, devices, b"devices failed");
    let requests = tell_each(alloc, domain, entries, Kind::Skipped, out)?;
    tell_more(out, requests, b"requests were skipped");
    tell_waits(alloc, domain, entries, out)
}
