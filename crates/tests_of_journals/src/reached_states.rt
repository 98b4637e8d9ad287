//! States that no action brings an object to.

use smi_reach::{states_of, ways_of};
use sml_domain::{ClassId, Domain};
use sml_load::domain_of;
use std::alloc::Global;
use std::test::*;

// A row: its name, the text of a domain, and the names of the states in which an object of its first class may be, in
// the order in which they are found.
type Row = (&'static str, &'static [u8], &'static [&'static str]);

const ROWS: &[Row] = &[
    (
        "an action that runs off its end leaves the state",
        b"class: K state: A action: GO state: B action: GO",
        &["A"],
    ),
    (
        "a state behind another",
        b"class: K state: A action: GO move_to B state: C action: GO state: B action: GO move_to C",
        &["A", "B", "C"],
    ),
    (
        "a state that is left and never entered",
        b"class: K state: A action: GO move_to B state: B state: C action: GO move_to A",
        &["A", "B"],
    ),
    (
        "the initial state is the one that is marked",
        b"class: K state: A state: B /initial_state action: GO move_to C state: C",
        &["B", "C"],
    ),
    (
        "behind a move_to",
        b"class: K state: A action: GO move_to B move_to C state: B state: C",
        &["A", "B"],
    ),
    (
        "behind an if of which both branches end",
        b"class: K state: A action: GO if (X in_state A) then move_to B else terminate_action /state=A endif move_to C
          state: B state: C class: L state: A object: X is_of_class L",
        &["A", "B"],
    ),
    (
        "behind an if of which one branch ends",
        b"class: K state: A action: GO if (X in_state A) then move_to B endif move_to C
          state: B state: C class: L state: A object: X is_of_class L",
        &["A", "C", "B"],
    ),
    (
        "within an if within an if",
        b"class: K state: A action: GO if (X in_state A) then if (X in_state A) then move_to C endif move_to B endif
          state: B state: C class: L state: A object: X is_of_class L",
        &["A", "B", "C"],
    ),
    (
        "the dead state, by a move_to alone",
        b"class: K state: A action: GO move_to DEAD",
        &["A", "DEAD"],
    ),
];

// Whether these are the states in which an object of the first class may be.
fn are_found(alloc: Global, domain: &Domain, names: &[&str]) -> Option<bool> {
    let _objects = domain.objects();
    if domain.classes().is_empty() {
        return None;
    }
    let ways = ways_of(alloc, domain).ok()?;
    let states = states_of(alloc, domain, &ways, ClassId::new(0)).ok()?;
    if states.len() != names.len() {
        return Some(false);
    }
    for (state, name) in states.iter().zip(names) {
        if domain.state_name(*state)?.as_bytes() != name.as_bytes() {
            return Some(false);
        }
    }
    Some(true)
}

// Whether the states of a row are those that are found.
fn is_as_told(alloc: Global, text: &[u8], names: &[&str]) -> Option<bool> {
    let domain = domain_of(alloc, text).ok()?;
    are_found(alloc, &domain, names)
}

#[test]
fn states_in_which_objects_may_be_are_found(rt: HostRuntime) {
    for (name, text, states) in ROWS {
        assert!(rt;
            is_as_told(rt.alloc(), *text, *states) == Some(true),
            "{name}"
        );
    }
}
