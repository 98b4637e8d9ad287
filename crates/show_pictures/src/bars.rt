//! What stands along the lines of life: bars, from where an action was started to where it ended or was cut, and
//! between them bands in the colour of the state.

use crate::hues::class_of_state;
use crate::page::Page;
use crate::svg::{Point, tell_band, tell_box, tell_text};
use smi_journal::{ActionEnd, Entry};
use sml_domain::{Domain, ObjId, StateId};
use sml_text::Sink;
use sml_writer::Out;
use std::alloc::{AllocError, Global};

// How an object stands.
#[derive(Clone, Copy)]
struct Standing {
    // The state, if it is known.
    state: Option<StateId>,
    // Whether it was killed.
    is_killed: bool,
    // The place of the entry since which it has an open action or none. None if it began so.
    since: Option<usize>,
    // Whether it has an open action.
    is_open: bool,
}

/// Writes the bars and bands that lie among the entries which are shown. The entries are those of the journal up to the
/// last one that is shown.
pub(crate) fn tell_bars<W: Sink>(
    alloc: Global,
    out: &mut Out<'_, W>,
    domain: &Domain,
    page: &Page,
    entries: &[Entry],
) -> Result<(), AllocError> {
    let mut all = all_at_first(alloc, domain)?;
    for place in 0..entries.len() {
        follow(out, domain, page, entries, &mut all, place);
    }
    tell_last(out, domain, page, entries, &all);
    Ok(())
}

// All objects in the states in which they begin.
fn all_at_first(alloc: Global, domain: &Domain) -> Result<Vec<Standing>, AllocError> {
    let mut all = Vec::new(alloc);
    for number in 0..domain.objects() {
        all.push(Standing {
            state: first_state(domain, ObjId::new(number)),
            is_killed: false,
            since: None,
            is_open: false,
        })?;
    }
    Ok(all)
}

// The state in which an object begins.
fn first_state(domain: &Domain, o: ObjId) -> Option<StateId> {
    if domain.has(o) {
        Some(domain.initial(o))
    } else {
        None
    }
}

// Goes to the entry of a place, and writes what ends there.
fn follow<W: Sink>(
    out: &mut Out<'_, W>,
    domain: &Domain,
    page: &Page,
    entries: &[Entry],
    all: &mut Vec<Standing>,
    place: usize,
) {
    let Some(entry) = entries.get(place) else {
        return;
    };
    let Some(o) = turned_by(entry) else {
        return;
    };
    if let Some(standing) = all.get_mut(o.get()) {
        let before = *standing;
        *standing = behind(&before, entry, place);
        if place >= page.first {
            tell_standing(out, domain, page, entries, o, &before, place);
        }
    }
}

// Whose action an entry opens or ends.
fn turned_by(entry: &Entry) -> Option<ObjId> {
    match entry {
        Entry::Start { object, .. } | Entry::End { object, .. } | Entry::Kill { object, .. } => {
            Some(*object)
        }
        Entry::Post { .. }
        | Entry::Wait { .. }
        | Entry::Seen { .. }
        | Entry::Insert { .. }
        | Entry::Remove { .. }
        | Entry::NoMember { .. } => None,
    }
}

// How an object stands behind an entry that opens or ends its action.
fn behind(before: &Standing, entry: &Entry, place: usize) -> Standing {
    let state = match entry {
        Entry::End {
            result: ActionEnd::State(state),
            ..
        } => Some(*state),
        _ => before.state,
    };
    Standing {
        state,
        is_killed: before.is_killed || matches!(entry, Entry::Kill { .. }),
        since: Some(place),
        is_open: matches!(entry, Entry::Start { .. }),
    }
}

// Writes what goes down to the lower edge.
fn tell_last<W: Sink>(
    out: &mut Out<'_, W>,
    domain: &Domain,
    page: &Page,
    entries: &[Entry],
    all: &[Standing],
) {
    for (number, standing) in all.iter().enumerate() {
        let o = ObjId::new(number);
        tell_standing(out, domain, page, entries, o, standing, page.end);
    }
}

// Writes how an object stood up to the entry of a place: its bar, or its band.
fn tell_standing<W: Sink>(
    out: &mut Out<'_, W>,
    domain: &Domain,
    page: &Page,
    entries: &[Entry],
    o: ObjId,
    standing: &Standing,
    end: usize,
) {
    let lower = page.line_of(end);
    if standing.is_open {
        tell_bar(out, domain, page, entries, o, standing, lower);
    } else {
        tell_state(out, domain, page, o, standing, lower);
    }
}

// The line in which a bar or a band begins.
fn upper_of(page: &Page, standing: &Standing) -> u64 {
    match standing.since {
        Some(place) => page.line_of(place),
        None => page.top(),
    }
}

// Whether a bar or a band began before those entries that are shown.
fn is_older(page: &Page, standing: &Standing) -> bool {
    match standing.since {
        Some(place) => place < page.first,
        None => true,
    }
}

// Where the words beside such a one stand.
fn beside(page: &Page, o: ObjId) -> Point {
    Point {
        x: page.object_x(o).saturating_add(9),
        y: page.top().saturating_add(16),
    }
}

// Writes a bar. One that began before those entries that are shown has its action written at the upper edge.
fn tell_bar<W: Sink>(
    out: &mut Out<'_, W>,
    domain: &Domain,
    page: &Page,
    entries: &[Entry],
    o: ObjId,
    standing: &Standing,
    lower: u64,
) {
    let upper = upper_of(page, standing);
    let corner = Point {
        x: page.object_x(o).saturating_sub(5),
        y: upper,
    };
    tell_box(out, b"bar", corner, 10, lower.saturating_sub(upper));
    if let Some(start) = standing.since {
        if start < page.first {
            tell_action(out, domain, page, entries.get(start), beside(page, o));
        }
    }
}

// Writes the action that an entry starts.
fn tell_action<W: Sink>(
    out: &mut Out<'_, W>,
    domain: &Domain,
    page: &Page,
    entry: Option<&Entry>,
    at: Point,
) {
    if let Some(Entry::Start { action, .. }) = entry {
        if let Some(name) = domain.action_name(*action) {
            tell_text(out, b"begun", at, name.as_bytes(), page.letters());
        }
    }
}

// Writes the band of a state. One that began before those entries that are shown has its name written at the upper
// edge.
fn tell_state<W: Sink>(
    out: &mut Out<'_, W>,
    domain: &Domain,
    page: &Page,
    o: ObjId,
    standing: &Standing,
    lower: u64,
) {
    let Some(state) = shown_state(domain, o, standing) else {
        return;
    };
    let Some(name) = domain.state_name(state) else {
        return;
    };
    let class = class_of_state(domain, o, state);
    let x = page.object_x(o);
    let from = Point {
        x,
        y: upper_of(page, standing),
    };
    tell_band(out, class, from, Point { x, y: lower }, name.as_bytes());
    if is_older(page, standing) {
        let at = beside(page, o);
        tell_text(out, class, at, name.as_bytes(), page.letters());
    }
}

// The state in which an object is shown: a killed one in that of killed objects.
fn shown_state(domain: &Domain, o: ObjId, standing: &Standing) -> Option<StateId> {
    if standing.is_killed && domain.has(o) {
        Some(domain.dead(o))
    } else {
        standing.state
    }
}
