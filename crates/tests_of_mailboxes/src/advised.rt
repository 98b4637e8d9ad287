//! Texts of domains with a letter changed at every place, and the faults that are explained of them.

use crate::broken::changed;
use crate::domains::TEXTS;
use explain_files::{Findings, faults_of_text};
use sml_check_faults::CheckError;
use sml_load::{TextFault, domain_of};
use std::alloc::Global;
use std::test::*;

// How many faults of a text are kept.
const MOST: usize = 1_000;

// Whether a fault is among those that were found.
fn has(findings: &Findings<MOST>, fault: CheckError) -> bool {
    findings.kept().iter().any(|finding| finding.kind == fault.kind && finding.name == fault.name)
}

// What the checker says of a text: its fault, if it has one, or None if it is refused by the reader.
fn checked(alloc: Global, text: &[u8]) -> Option<Option<CheckError>> {
    let domain = domain_of(alloc, text);
    let said = match &domain {
        Ok(_) => Some(None),
        Err(TextFault::Check(error)) => Some(Some(*error)),
        Err(TextFault::Read(_) | TextFault::Memory) => None,
    };
    drop(domain);
    said
}

// Whether faults are found exactly if the checker finds one, and its fault is among them.
fn is_found(alloc: Global, text: &[u8]) -> bool {
    let Ok(found) = faults_of_text::<MOST>(alloc, text) else {
        return false;
    };
    let is_so = match (checked(alloc, text), &found) {
        (None, None) => true,
        (Some(None), Some(findings)) => findings.count() == 0 && findings.told() == 0,
        (Some(Some(fault)), Some(findings)) => findings.count() > 0 && has(findings, fault),
        _ => false,
    };
    drop(found);
    is_so
}

// The first place of a text where a letter in the place of a byte makes a text of which something else is found.
fn wrong_place(alloc: Global, text: &[u8]) -> Option<usize> {
    for place in 0..text.len() {
        match changed(alloc, text, place, b'Q') {
            Some(other) if is_found(alloc, &other) => {}
            _ => return Some(place),
        }
    }
    None
}

#[test]
fn explained_faults_have_that_of_the_checker(rt: HostRuntime) {
    for (name, text, _) in &TEXTS {
        let wrong = wrong_place(rt.alloc(), text);
        assert!(rt; wrong == None, "{name}, at {wrong:?}");
    }
}
