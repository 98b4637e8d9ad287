//! Instructions to which no action comes, and states in which no object is.

use smi_reach::{reach_of, unentered_of, unreached_of, ways_of};
use sml_domain::{ClassId, Domain};
use sml_load::domain_of;
use std::alloc::Global;
use std::test::*;

// A row: its name, the text of a domain, the names of the states of its first class in which no object is, and the
// places in their blocks of the instructions to which no action comes, block by block, those within an `if` before it.
type Row = (
    &'static str,
    &'static [u8],
    &'static [&'static str],
    &'static [usize],
);

const ROWS: &[Row] = &[
    (
        "all is come to",
        b"class: K state: A action: GO move_to B state: B",
        &[],
        &[],
    ),
    (
        "of several behind a move_to the first",
        b"class: K state: A action: GO move_to B move_to C move_to C state: B state: C",
        &["C"],
        &[1],
    ),
    (
        "behind an if of which both branches end",
        b"class: K state: A action: GO if (X in_state A) then move_to B else move_to B endif move_to C
          state: B state: C class: L state: A object: X is_of_class L",
        &["C"],
        &[1],
    ),
    (
        "behind an if of which one branch ends nothing is left out",
        b"class: K state: A action: GO if (X in_state A) then move_to B endif move_to C
          state: B state: C class: L state: A object: X is_of_class L",
        &[],
        &[],
    ),
    (
        "within a branch, and not behind the if",
        b"class: K state: A action: GO if (X in_state A) then move_to B move_to B endif move_to C
          state: B state: C class: L state: A object: X is_of_class L",
        &[],
        &[1],
    ),
    (
        "an if that is not come to is told, and not what is in it",
        b"class: K state: A action: GO move_to B if (X in_state A) then move_to C move_to C endif
          state: B state: C class: L state: A object: X is_of_class L",
        &["C"],
        &[1],
    ),
    (
        "a state that only a state without a way in leads to",
        b"class: K state: A action: GO state: B action: GO move_to C state: C",
        &["B", "C"],
        &[],
    ),
    (
        "neither the dead state nor the initial one",
        b"class: K state: A action: GO move_to A state: GONE /dead_state",
        &[],
        &[],
    ),
    (
        "none of a class whose actions devices do",
        b"class: K /associated state: A action: GO state: B",
        &[],
        &[],
    ),
];

// Whether these are the states and the instructions of a domain.
fn are_found(alloc: Global, domain: &Domain, names: &[&str], places: &[usize]) -> Option<bool> {
    let _objects = domain.objects();
    if domain.classes().is_empty() {
        return None;
    }
    let ways = ways_of(alloc, domain).ok()?;
    let states = unentered_of(alloc, domain, &ways, ClassId::new(0)).ok()?;
    let reach = reach_of(alloc, domain, &ways).ok()?;
    let unreached = unreached_of(alloc, domain, &reach).ok()?;
    if states.len() != names.len() || unreached.len() != places.len() {
        return Some(false);
    }
    for (state, name) in states.iter().zip(names) {
        if domain.state_name(*state)?.as_bytes() != name.as_bytes() {
            return Some(false);
        }
    }
    Some(
        unreached
            .iter()
            .zip(places)
            .all(|(found, place)| found.place == *place),
    )
}

// Whether those of a row are found.
fn is_as_told(alloc: Global, text: &[u8], names: &[&str], places: &[usize]) -> Option<bool> {
    let domain = domain_of(alloc, text).ok()?;
    are_found(alloc, &domain, names, places)
}

#[test]
fn what_nothing_comes_to_is_found(rt: HostRuntime) {
    for (name, text, states, places) in ROWS {
        assert!(rt;
            is_as_told(rt.alloc(), *text, *states, *places) == Some(true),
            "{name}"
        );
    }
}
