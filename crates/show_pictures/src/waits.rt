//! For whom actions wait.

use smi_journal::{Entry, Reading, Sender, Verdict};
use sml_domain::{Domain, ObjId};
use std::alloc::{AllocError, Global};

// How many of those for whom an action waits are named at most.
const MOST: usize = 24;

// How the wait of an action ends.
#[derive(Clone, Copy)]
enum Ending {
    // What was waited for is read by the entry of this place.
    Seen(usize),
    // With its action, or not in the journal.
    Unread,
    // With another wait, in a journal that is not legal.
    Again,
}

// What an object has to do.
#[derive(Clone, Copy)]
struct Load {
    // The place of the entry that started its open action.
    begun: Option<usize>,
    // How many requests of objects wait there.
    queued: u64,
}

/// What is known of waits while the entries of a journal are gone through.
#[derive(Drop)]
pub(crate) struct Waits {
    // The place from which on it is known how waits end.
    first: usize,
    // How they end, by the places behind the first; of other entries this says nothing.
    endings: Vec<Ending>,
    // What each object has to do.
    loads: Vec<Load>,
}

/// What is known before the first entry of a journal. The waits from one place to another will be asked for.
pub(crate) fn waits_of(
    alloc: Global,
    domain: &Domain,
    entries: &[Entry],
    first: usize,
    end: usize,
) -> Result<Waits, AllocError> {
    let mut waits = Waits {
        first,
        endings: no_endings(alloc, end.saturating_sub(first))?,
        loads: no_loads(alloc, domain.objects())?,
    };
    find_endings(alloc, domain, entries, &mut waits)?;
    Ok(waits)
}

// So many times nothing that was found of an ending.
fn no_endings(alloc: Global, count: usize) -> Result<Vec<Ending>, AllocError> {
    let mut endings = Vec::new(alloc);
    for _ in 0..count {
        endings.push(Ending::Unread)?;
    }
    Ok(endings)
}

// So many objects that have nothing to do.
fn no_loads(alloc: Global, count: usize) -> Result<Vec<Load>, AllocError> {
    let mut loads = Vec::new(alloc);
    for _ in 0..count {
        loads.push(Load {
            begun: None,
            queued: 0,
        })?;
    }
    Ok(loads)
}

// Finds how waits end, from the end of the journal on.
fn find_endings(
    alloc: Global,
    domain: &Domain,
    entries: &[Entry],
    waits: &mut Waits,
) -> Result<(), AllocError> {
    let mut next = no_endings(alloc, domain.objects())?;
    for (place, entry) in entries.iter().enumerate().rev() {
        let ending = step_back(&mut next, entry, place);
        if let Some(slot) = slot_of(waits, place) {
            *slot = ending;
        }
    }
    Ok(())
}

// Where it is kept how the wait of a place ends.
fn slot_of(waits: &mut Waits, place: usize) -> Option<&mut Ending> {
    waits.endings.get_mut(place.checked_sub(waits.first)?)
}

// How the wait of this entry ends, by what comes next of each object. The entry then is what comes next.
fn step_back(next: &mut Vec<Ending>, entry: &Entry, place: usize) -> Ending {
    let (o, now) = match entry {
        Entry::Seen { object, .. } => (*object, Ending::Seen(place)),
        Entry::Wait { object } => (*object, Ending::Again),
        Entry::Start { object, .. } | Entry::End { object, .. } | Entry::Kill { object, .. } => {
            (*object, Ending::Unread)
        }
        Entry::Post { .. } | Entry::Insert { .. } | Entry::Remove { .. } | Entry::NoMember { .. } =>
            return Ending::Unread,
    };
    match next.get_mut(o.get()) {
        Some(slot) => {
            let before = *slot;
            *slot = now;
            before
        }
        None => Ending::Unread,
    }
}

/// Goes on behind the entry of a place.
pub(crate) fn follow(waits: &mut Waits, entry: &Entry, place: usize) {
    let o = match entry {
        Entry::Start { object, .. } | Entry::End { object, .. } | Entry::Kill { object, .. } => {
            *object
        }
        Entry::Post { target, .. } => *target,
        Entry::Wait { .. }
        | Entry::Seen { .. }
        | Entry::Insert { .. }
        | Entry::Remove { .. }
        | Entry::NoMember { .. } => return,
    };
    if let Some(load) = waits.loads.get_mut(o.get()) {
        *load = load_behind(*load, entry, place);
    }
}

// What the object of an entry, or its target, has to do behind it.
fn load_behind(load: Load, entry: &Entry, place: usize) -> Load {
    let Load { begun, queued } = load;
    match entry {
        Entry::Start {
            sender: Sender::Object(_),
            ..
        } => Load {
            begun: Some(place),
            queued: queued.saturating_sub(1),
        },
        Entry::Start { .. } => Load {
            begun: Some(place),
            queued,
        },
        Entry::Post {
            verdict: Verdict::Accepted(_),
            ..
        } => Load {
            begun,
            queued: queued.saturating_add(1),
        },
        Entry::End { .. } => Load {
            begun: None,
            queued,
        },
        Entry::Kill { .. } => Load {
            begun: None,
            queued: 0,
        },
        _ => load,
    }
}

// Whether an object has something to do.
fn is_busy(waits: &Waits, o: ObjId) -> bool {
    match waits.loads.get(o.get()) {
        Some(load) => load.begun.is_some() || load.queued > 0,
        None => false,
    }
}

/// Finds for whom the action of an object waits at the entry of a place, in place of what `whom` holds: of those that
/// it then reads, the ones that have something to do, or all if none has; and if it reads nothing, those to which it
/// sent and that have something to do. At most some two dozen are found.
pub(crate) fn find_whom(
    waits: &Waits,
    entries: &[Entry],
    o: ObjId,
    place: usize,
    whom: &mut Vec<ObjId>,
) -> Result<(), AllocError> {
    whom.clear();
    match ending_of(waits, place) {
        Ending::Seen(behind) => {
            add_read(waits, entries, o, behind, whom)?;
            if whom.is_empty() {
                add_all_read(entries, behind, whom)?;
            }
            Ok(())
        }
        Ending::Unread => add_sent(waits, entries, o, place, whom),
        Ending::Again => Ok(()),
    }
}

// How the wait of a place ends.
fn ending_of(waits: &Waits, place: usize) -> Ending {
    match place.checked_sub(waits.first) {
        Some(row) => waits.endings.get(row).copied().unwrap_or(Ending::Again),
        None => Ending::Again,
    }
}

// Adds an object, unless it is there or there are enough.
fn add(whom: &mut Vec<ObjId>, o: ObjId) -> Result<(), AllocError> {
    if whom.len() < MOST && !whom.iter().any(|other| other.get() == o.get()) {
        whom.push(o)?;
    }
    Ok(())
}

// What an entry reads.
fn readings_of(entries: &[Entry], place: usize) -> &[Reading] {
    match entries.get(place) {
        Some(Entry::Seen { readings, .. }) => readings.list(),
        _ => &[],
    }
}

// Adds all that an entry reads.
fn add_all_read(entries: &[Entry], place: usize, whom: &mut Vec<ObjId>) -> Result<(), AllocError> {
    for reading in readings_of(entries, place) {
        add(whom, reading.object)?;
    }
    Ok(())
}

// Adds the others that an entry reads and that have something to do.
fn add_read(
    waits: &Waits,
    entries: &[Entry],
    o: ObjId,
    place: usize,
    whom: &mut Vec<ObjId>,
) -> Result<(), AllocError> {
    for reading in readings_of(entries, place) {
        if reading.object.get() != o.get() && is_busy(waits, reading.object) {
            add(whom, reading.object)?;
        }
    }
    Ok(())
}

// Adds the others to which the open action of an object sent before a place, and that have something to do.
fn add_sent(
    waits: &Waits,
    entries: &[Entry],
    o: ObjId,
    place: usize,
    whom: &mut Vec<ObjId>,
) -> Result<(), AllocError> {
    let begun = match waits.loads.get(o.get()) {
        Some(
            Load {
                begun: Some(begun),
                ..
            },
        ) => *begun,
        _ => return Ok(()),
    };
    for entry in entries.iter().take(place).skip(begun) {
        if let Entry::Post { sender, target, .. } = entry {
            let is_other = sender.get() == o.get() && target.get() != o.get();
            if is_other && is_busy(waits, *target) {
                add(whom, *target)?;
            }
        }
    }
    Ok(())
}
