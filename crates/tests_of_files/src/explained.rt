//! The explanations of illegal lines.

use crate::changed_journals::{FIRST, SECOND};
use crate::explained_ends::{ENDS, SETS};
use crate::explained_rows::{POSTS, READINGS, STARTS};
use crate::judged::joined;
use crate::settings::{Setting, text_of};
use explain_journals::explain;
use smi_audit::{Judgement, Rule, audit};
use smi_journal::read_journal;
use sml_load::domain_of;
use sml_writer::Out;
use std::alloc::Global;
use std::test::*;

// A place in a journal, and the rule that is said to be broken there.
type Place = (u64, Rule);

// What is said about a line of a journal.
fn told_of(alloc: Global, setting: Setting, text: &[u8], place: Place) -> Option<Vec<u8>> {
    let domain = domain_of(alloc, text_of(setting)).ok()?;
    let (format, journal) = read_journal(alloc, &domain, text).ok()?;
    let (line, rule) = place;
    let judgement = Judgement::Illegal { line, rule };
    let mut told = Vec::new(alloc);
    let mut out = Out::new(&mut told);
    explain(
        alloc,
        format,
        domain,
        None,
        journal.entries(),
        judgement,
        &mut out,
    )
    .ok()?;
    if out.failed { None } else { Some(told) }
}

// The first illegal line of a journal, and the first rule that it breaks.
fn first_broken(alloc: Global, setting: Setting, text: &[u8]) -> Option<Place> {
    let domain = domain_of(alloc, text_of(setting)).ok()?;
    match audit(alloc, domain, text).ok()? {
        Judgement::Illegal { line, rule } => Some((line, rule)),
        Judgement::Legal => None,
    }
}

// Whether this is said about the first illegal line of a journal.
fn is_explained(
    alloc: Global,
    header: &[u8],
    setting: Setting,
    lines: &[u8],
    said: &str,
) -> Option<bool> {
    let text = joined(alloc, header, lines)?;
    let place = first_broken(alloc, setting, &text)?;
    let told = told_of(alloc, setting, &text, place)?;
    Some(told.as_slice() == said.as_bytes())
}

#[test]
fn illegal_lines_are_explained(rt: HostRuntime) {
    for rows in [STARTS, POSTS, READINGS, ENDS] {
        for (name, setting, lines, said) in rows {
            assert!(rt;
                is_explained(rt.alloc(), FIRST, *setting, *lines, *said) == Some(true),
                "{name}"
            );
        }
    }
}

#[test]
fn illegal_lines_of_the_second_format_are_explained(rt: HostRuntime) {
    for (name, setting, lines, said) in SETS {
        assert!(rt;
            is_explained(rt.alloc(), SECOND, *setting, *lines, *said) == Some(true),
            "{name}"
        );
    }
}

// Lines that no judgement names: the header, those behind the last, and one behind an illegal line.
const OTHER_PLACES: &[(&str, &[u8], Place)] = &[
    (
        "the line before the first",
        b"smi-journal 1\nwait RUN\n",
        (0, Rule::NotOpen),
    ),
    (
        "the header",
        b"smi-journal 1\nwait RUN\n",
        (1, Rule::NotOpen),
    ),
    (
        "the line behind a header alone",
        b"smi-journal 1\n",
        (2, Rule::NotOpen),
    ),
    (
        "the line behind the last",
        b"smi-journal 1\nwait RUN\n",
        (3, Rule::NotOpen),
    ),
    (
        "the greatest number of a line",
        b"smi-journal 1\nwait RUN\n",
        (18446744073709551615, Rule::Clear),
    ),
    (
        "a line behind an illegal one",
        b"smi-journal 1\nwait RUN\nwait HV1\n",
        (3, Rule::NotOpen),
    ),
];

// Whether nothing is said about a line.
fn is_silent(alloc: Global, text: &[u8], place: Place) -> bool {
    match told_of(alloc, Setting::Supplies, text, place) {
        Some(told) => told.is_empty(),
        None => false,
    }
}

#[test]
fn other_lines_are_not_explained(rt: HostRuntime) {
    for (name, text, place) in OTHER_PLACES {
        assert!(rt; is_silent(rt.alloc(), *text, *place), "{name}");
    }
}
