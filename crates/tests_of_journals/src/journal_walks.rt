//! What a journal says, found by walks over all of its entries.
ghost use Rattle.std.specs.Prelude.{◌<◌, length};

use smi_journal::{ActionEnd, Entry, Sender, Verdict};
use sml_domain::{Domain, ObjId, SetId, StateId};

// The object that an entry is of.
fn object_of(entry: &Entry) -> ObjId {
    match entry {
        Entry::Start { object, .. } => *object,
        Entry::Post { sender, .. } => *sender,
        Entry::Wait { object } => *object,
        Entry::Seen { object, .. } => *object,
        Entry::End { object, .. } => *object,
        Entry::Kill { object, .. } => *object,
        Entry::Insert { object, .. } => *object,
        Entry::Remove { object, .. } => *object,
        Entry::NoMember { object, .. } => *object,
    }
}

// Whether an entry is the start of a request of a sender.
fn starts_from(entry: &Entry, by: &Sender) -> bool {
    match entry {
        Entry::Start { sender, .. } => sender == by,
        _ => false,
    }
}

// Whether an entry is an accepted post to an object.
fn is_accepted_by(entry: &Entry, o: ObjId) -> bool {
    match entry {
        Entry::Post {
            target,
            verdict,
            ..
        } => *target == o && matches!(verdict, Verdict::Accepted(_)),
        _ => false,
    }
}

/// The state of an object.
pub fn state(domain: &Domain, entries: &[Entry], o: ObjId) -> StateId
    requires { o < length domain.now.objects }
{
    let mut state = domain.initial(o);
    for entry in entries {
        if object_of(entry) == o {
            match entry {
                Entry::End {
                    result: ActionEnd::State(end),
                    ..
                } => state = *end,
                Entry::Kill { .. } => state = domain.dead(o),
                _ => {}
            }
        }
    }
    state
}

/// The place of the start whose action is open at an object.
pub fn opening(entries: &[Entry], o: ObjId) -> Option<usize> {
    let mut opening = None;
    for (place, entry) in entries.iter().enumerate() {
        if object_of(entry) == o {
            match entry {
                Entry::Start { .. } => opening = Some(place),
                Entry::End { .. } => opening = None,
                Entry::Kill { .. } => opening = None,
                _ => {}
            }
        }
    }
    opening
}

/// Whether the last entry of an object is a wait.
pub fn waits(entries: &[Entry], o: ObjId) -> bool {
    let mut waits = false;
    for entry in entries {
        if object_of(entry) == o {
            waits = matches!(entry, Entry::Wait { .. });
        }
    }
    waits
}

/// The place of the kill of an object.
pub fn killed(entries: &[Entry], o: ObjId) -> Option<usize> {
    for (place, entry) in entries.iter().enumerate() {
        if object_of(entry) == o && matches!(entry, Entry::Kill { .. }) {
            return Some(place);
        }
    }
    None
}

/// How many requests of a sender were started at an object.
pub fn started(entries: &[Entry], by: &Sender, o: ObjId) -> usize {
    let mut count = 0usize;
    for entry in entries {
        if object_of(entry) == o && starts_from(entry, by) {
            count = count.saturating_add(1);
        }
    }
    count
}

/// How many posts of one object to another were accepted.
pub fn posted(entries: &[Entry], a: ObjId, b: ObjId) -> usize {
    let mut count = 0usize;
    for entry in entries {
        if object_of(entry) == a && is_accepted_by(entry, b) {
            count = count.saturating_add(1);
        }
    }
    count
}

/// How many requests were started at all.
pub fn starts(entries: &[Entry]) -> usize {
    let mut count = 0usize;
    for entry in entries {
        if matches!(entry, Entry::Start { .. }) {
            count = count.saturating_add(1);
        }
    }
    count
}

/// Whether an object is a member of a set.
pub fn is_member(domain: &Domain, entries: &[Entry], set: SetId, o: ObjId) -> bool {
    let mut is_member = domain.members(set).contains(&o);
    for entry in entries {
        match entry {
            Entry::Insert {
                member,
                set: into,
                ..
            } if *member == o && *into == set => is_member = true,
            Entry::Remove {
                member,
                set: from,
                ..
            } if *member == o && *from == set => is_member = false,
            _ => {}
        }
    }
    is_member
}

/// Whether an object is clear for another.
pub fn is_clear(entries: &[Entry], a: ObjId, o: ObjId) -> bool {
    let is_started = posted(entries, a, o) == started(entries, &Sender::Object(a), o);
    killed(entries, o).is_some() || (opening(entries, o).is_none() && is_started)
}
