//! Memory that is refused: nothing has changed, and the same call then returns its answer.
//!
//! `tools/refused-memory` runs this again and again, and each time another allocation is refused.

use crate::adding::adds;
use crate::completing::completes_at_last;
use crate::journal_texts::text_of;
use crate::look_ups::is_as_walked;
use crate::rows::Plain;
use crate::runs::{By, Line};
use smi_journal::{Entry, Journal, JournalError, Verdict, read_journal};
use smi_ledger::Ledger;
use sml_domain::{Domain, ObjId};
use sml_load::domain_of;
use std::alloc::Global;
use std::sync::Arc;
use std::test::*;

const SINK: &[u8] = b"class: SINK
  state: READY
    action: TAKE (int V, string W)
object: OUT is_of_class SINK
objectset: G { }
";

const GIVEN: &[Plain] = &[Plain::Int(5), Plain::Str(b"a")];

// An entry of each kind.
const LINES: &[Line] = &[
    Line::Start(0, By::Session(1), 0, 0, GIVEN),
    Line::Post(0, 0, Verdict::Accepted(0), 0, GIVEN),
    Line::Wait(0),
    Line::Seen(0, &[(0, 0)]),
    Line::Empty(0, 0),
    Line::Insert(0, 0, 0),
    Line::Remove(0, 0, 0),
    Line::End(0, 0),
    Line::Kill(0, 1),
];

// The text of these entries.
const TEXT: &[u8] = b"smi-journal 2
start OUT @1 0 TAKE (V = 5, W = \"a\")
post OUT OUT 0 TAKE (V = 5, W = \"a\")
wait OUT
seen OUT OUT=READY
empty OUT G
insert OUT OUT G
remove OUT OUT G
end OUT READY
kill OUT @1
";

/// The domain of a text, asked for a second time where it was refused.
pub fn domain_at_last(alloc: Global, text: &[u8]) -> Option<Arc<Domain>> {
    match domain_of(alloc, text) {
        Ok(domain) => Some(domain),
        Err(_) => domain_of(alloc, text).ok(),
    }
}

// A ledger, asked for a second time where it was refused.
fn ledger_at_last(alloc: Global) -> Option<Ledger> {
    match Ledger::new(alloc, domain_at_last(alloc, SINK)?) {
        Ok(ledger) => Some(ledger),
        Err(_) => Ledger::new(alloc, domain_at_last(alloc, SINK)?).ok(),
    }
}

// Whether an entry is added, at the second time at the latest, and a refusal leaves all as it was.
fn adds_at_last(alloc: Global, ledger: &mut Ledger, line: Line) -> bool {
    let entries = ledger.journal().len();
    adds(alloc, ledger, line)
        || (ledger.journal().len() == entries && is_as_walked(ledger) && adds(alloc, ledger, line))
}

// Whether all entries are added.
fn adds_all_at_last(alloc: Global, ledger: &mut Ledger) -> bool {
    for line in LINES {
        if !adds_at_last(alloc, ledger, *line) {
            return false;
        }
    }
    ledger.journal().len() == LINES.len() && is_as_walked(ledger)
}

// The journal of the text, asked for a second time where memory was refused.
fn journal_at_last(alloc: Global, domain: &Domain) -> Option<Journal> {
    match read_journal(alloc, domain, TEXT) {
        Ok((_, journal)) => Some(journal),
        Err(JournalError::Memory) => Some(read_journal(alloc, domain, TEXT).ok()?.1),
        Err(_) => None,
    }
}

// Whether entries are written as the text, at the second time at the latest.
fn writes_at_last(alloc: Global, domain: &Domain, entries: &[Entry]) -> bool {
    let text = match text_of(alloc, domain, entries) {
        Some(text) => Some(text),
        None => text_of(alloc, domain, entries),
    };
    match text {
        Some(text) => text.as_slice() == TEXT,
        None => false,
    }
}

// Whether the text is read as a journal that is written as the text.
fn reads_at_last(alloc: Global, domain: &Domain) -> bool {
    match journal_at_last(alloc, domain) {
        Some(journal) => writes_at_last(alloc, domain, journal.entries()),
        None => false,
    }
}

fn goes_on(alloc: Global) -> bool {
    match ledger_at_last(alloc) {
        Some(ledger) => {
            let mut ledger = ledger;
            completes_at_last(alloc, ledger.domain())
                && adds_all_at_last(alloc, &mut ledger)
                && writes_at_last(alloc, ledger.domain(), ledger.journal())
                && reads_at_last(alloc, ledger.domain())
        }
        None => false,
    }
}

#[test]
fn goes_on_after_a_refusal(rt: HostRuntime) {
    assert!(rt; goes_on(rt.alloc()));
}

// Whether room that no memory has is refused, and all is as it was.
fn refuses_too_much(ledger: &mut Ledger) -> bool {
    let o = ObjId::new(0);
    ledger.domain().has(o)
        && ledger.hold(usize::MAX).is_err()
        && ledger.hold_answers(o, usize::MAX).is_err()
        && is_as_walked(ledger)
}

fn holds_on(alloc: Global) -> bool {
    match ledger_at_last(alloc) {
        Some(ledger) => {
            let mut ledger = ledger;
            refuses_too_much(&mut ledger) && adds_all_at_last(alloc, &mut ledger)
        }
        None => false,
    }
}

#[test]
fn refuses_room_that_no_memory_has(rt: HostRuntime) {
    assert!(rt; holds_on(rt.alloc()));
}
