//! What a front says that was read.

use crate::found::{LINES, TEXT, add_lines};
use smi_carried::{CarriedCounts, CarriedOnce};
use smi_log_front::{Front, FrontKill, read_front};
use sml_load::domain_of;
use std::alloc::Global;

// How often each object started and ended.
const COUNTS: &[(u64, u64)] = &[(12, 11), (0, 1), (18_446_744_073_709_551_615, 0)];

// The number and the name of a last request, the numbers of its object and its state, the version, and what became of
// it. States are numbered as they are declared, and then DEAD.
type Once = (
    u64,
    &'static [u8],
    Option<(usize, usize, u64)>,
    &'static [u8],
);

const NAMES: &[Once] = &[
    (7, b"PANEL", Some((0, 1, 11)), b"ended"),
    (
        18_446_744_073_709_551_615,
        b"P_2",
        Some((1, 3, 0)),
        b"killed",
    ),
    (0, b"X", Some((2, 2, 4)), b"skipped"),
    (9, b"Y", None, b"refused UnknownObject"),
];

// Who is killed again, and by whom.
const KILLS: &[(usize, u8)] = &[(1, 1), (2, 8)];

fn are_counts(counts: &[CarriedCounts]) -> Option<bool> {
    for place in 0..COUNTS.len() {
        let these = counts.get(place)?;
        if (these.started, these.ended) != *COUNTS.get(place)? {
            return Some(false);
        }
    }
    Some(counts.len() == COUNTS.len())
}

fn is_once(once: &CarriedOnce, row: &Once) -> bool {
    let place = match once.place {
        Some(place) => Some((place.object.get(), place.state.get(), place.version)),
        None => None,
    };
    let is_name = once.number == row.0 && once.name.as_slice() == row.1;
    is_name && place == row.2 && once.what.as_slice() == row.3
}

fn are_names(names: &[CarriedOnce]) -> Option<bool> {
    for place in 0..NAMES.len() {
        if !is_once(names.get(place)?, NAMES.get(place)?) {
            return Some(false);
        }
    }
    Some(names.len() == NAMES.len())
}

fn are_kills(kills: &[FrontKill]) -> Option<bool> {
    for place in 0..KILLS.len() {
        let kill = kills.get(place)?;
        if (kill.object.get(), kill.session.get()) != *KILLS.get(place)? {
            return Some(false);
        }
    }
    Some(kills.len() == KILLS.len())
}

fn is_front(front: &Front) -> Option<bool> {
    let is_head = front.capacity == 16
        && front.domain_sum.as_slice() == b"0123456789abcdef0123456789abcdef01234567".as_slice();
    let is_end = front.log_sum.as_slice() == b"fedcba9876543210fedcba9876543210fedcba98".as_slice();
    let are_same = are_counts(&front.carried.counts)? && are_names(&front.carried.names)?;
    Some(is_head && is_end && are_same && are_kills(&front.kills)?)
}

fn is_read_so(alloc: Global) -> Option<bool> {
    let domain = domain_of(alloc, TEXT).ok()?;
    let mut text = Vec::new(alloc);
    add_lines(&mut text, 0, LINES.len())?;
    let (front, _) = read_front(alloc, &domain, &text).ok()?;
    is_front(&front)
}

#[test]
fn what_a_front_says(rt: HostRuntime) {
    assert!(rt; is_read_so(rt.alloc()) == Some(true));
}
