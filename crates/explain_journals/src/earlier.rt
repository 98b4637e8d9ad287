//! The earlier entries that a line rests on, each by its place in the journal.

use smi_journal::{ActionEnd, Cause, Entry, Sender, Verdict};
use sml_domain::{Domain, ObjId};

/// The object whose entry it is.
pub(crate) fn owner(entry: &Entry) -> ObjId {
    match entry {
        Entry::Start { object, .. } | Entry::Wait { object } | Entry::Seen { object, .. } =>
            *object,
        Entry::Post { sender, .. } => *sender,
        Entry::End { object, .. } | Entry::Kill { object, .. } => *object,
        Entry::Insert { object, .. } | Entry::Remove { object, .. } => *object,
        Entry::NoMember { object, .. } => *object,
    }
}

/// Whether it is the fault of a device at an object that has none.
pub(crate) fn is_fault_without_device(domain: &Domain, entry: &Entry) -> bool {
    match entry {
        Entry::Kill {
            object,
            cause: Cause::Fault,
        } => domain.has(*object) && !domain.associated(*object),
        _ => false,
    }
}

/// An entry that a line may rest on.
#[derive(Clone, Copy)]
pub(crate) enum Earlier {
    /// The start of an action at an object.
    Start(ObjId),
    /// The start of a sender's request at an object.
    StartOf(Sender, ObjId),
    /// The kill of an object.
    Kill(ObjId),
    /// What closed an object: an end or a kill.
    Closed(ObjId),
    /// What gave an object its state: an end in a state, or a kill.
    State(ObjId),
    /// An accepted post of an object to another.
    Post(ObjId, ObjId),
}

fn is_start(entry: &Entry, o: ObjId) -> bool {
    match entry {
        Entry::Start { object, .. } => object.get() == o.get(),
        _ => false,
    }
}

fn is_sent_by(entry: &Entry, by: Sender) -> bool {
    match entry {
        Entry::Start { sender, .. } => sender.is(&by),
        _ => false,
    }
}

fn is_kill(entry: &Entry, o: ObjId) -> bool {
    match entry {
        Entry::Kill { object, .. } => object.get() == o.get(),
        _ => false,
    }
}

fn is_end(entry: &Entry, o: ObjId) -> bool {
    match entry {
        Entry::End { object, .. } => object.get() == o.get(),
        _ => false,
    }
}

fn is_skip(entry: &Entry) -> bool {
    match entry {
        Entry::End { result, .. } => matches!(result, ActionEnd::Skipped),
        _ => false,
    }
}

fn is_accepted_post(entry: &Entry, a: ObjId, b: ObjId) -> bool {
    match entry {
        Entry::Post {
            sender,
            target,
            verdict,
            ..
        } => {
            sender.get() == a.get()
                && target.get() == b.get()
                && matches!(verdict, Verdict::Accepted(_))
        }
        _ => false,
    }
}

fn is_that(entry: &Entry, earlier: Earlier) -> bool {
    match earlier {
        Earlier::Start(o) => is_start(entry, o),
        Earlier::StartOf(by, o) => is_start(entry, o) && is_sent_by(entry, by),
        Earlier::Kill(o) => is_kill(entry, o),
        Earlier::Closed(o) => is_end(entry, o) || is_kill(entry, o),
        Earlier::State(o) => (is_end(entry, o) && !is_skip(entry)) || is_kill(entry, o),
        Earlier::Post(a, b) => is_accepted_post(entry, a, b),
    }
}

/// The place of the last such entry.
pub(crate) fn last(entries: &[Entry], earlier: Earlier) -> Option<usize> {
    entries.iter().rposition(|entry| is_that(entry, earlier))
}

/// The accepted post of an object to another that has this number.
pub(crate) fn post_of(entries: &[Entry], a: ObjId, b: ObjId, number: u64) -> Option<usize> {
    let mut before = 0u64;
    for (place, entry) in entries.iter().enumerate() {
        if is_accepted_post(entry, a, b) {
            if before == number {
                return Some(place);
            }
            before = before.saturating_add(1);
        }
    }
    None
}
