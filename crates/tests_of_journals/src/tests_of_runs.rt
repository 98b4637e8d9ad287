//! Ledgers that are kept up entry by entry.

use crate::adding::adds;
use crate::facts::{Fact, is_so};
use crate::look_ups::is_as_walked;
use crate::runs::{ARGUMENTS, CHANGES, KILLED_SUPPLY, KILLS, Run, STANDARD};
use smi_ledger::Ledger;
use sml_load::domain_of;
use std::alloc::Global;

/// The ledger of a domain, to which nothing was added.
pub fn ledger_of(alloc: Global, text: &[u8]) -> Option<Ledger> {
    Ledger::new(alloc, domain_of(alloc, text).ok()?).ok()
}

// Whether each fact that is known of the first `count` entries is so.
fn are_so(ledger: &Ledger, facts: &[(usize, Fact)], count: usize) -> bool {
    for (entries, fact) in facts {
        if *entries == count && !is_so(ledger, *fact) {
            return false;
        }
    }
    true
}

// Whether after `count` entries all is as walks find it, and as it is known beforehand.
fn is_right(ledger: &Ledger, run: Run, count: usize) -> bool {
    ledger.journal().len() == count && is_as_walked(ledger) && are_so(ledger, run.facts, count)
}

// The place of the first entry of a run after which something is wrong.
fn wrong_place(alloc: Global, ledger: &mut Ledger, run: Run) -> Option<usize> {
    for (place, line) in run.lines.iter().enumerate() {
        if !is_right(ledger, run, place) || !adds(alloc, ledger, *line) {
            return Some(place);
        }
    }
    if is_right(ledger, run, run.lines.len()) {
        return None;
    }
    Some(run.lines.len())
}

// Whether the ledger of a run is right from its beginning to its end.
fn is_kept(alloc: Global, run: Run) -> bool {
    match ledger_of(alloc, run.text) {
        Some(ledger) => {
            let mut ledger = ledger;
            wrong_place(alloc, &mut ledger, run).is_none()
        }
        None => false,
    }
}

const RUNS: &[Run] = &[STANDARD, KILLS, KILLED_SUPPLY, ARGUMENTS, CHANGES];

#[test]
fn ledgers_say_what_journals_say(rt: HostRuntime) {
    for run in RUNS {
        assert!(rt; is_kept(rt.alloc(), *run), "{}", run.name);
    }
}
