//! The texts of journals.

use crate::adding::adds_all;
use crate::rows::Plain;
use crate::runs::{ARGUMENTS, By, CHANGES, KILLED_SUPPLY, KILLS, Line, Run, STANDARD};
use crate::tests_of_runs::ledger_of;
use smi_journal::{Entry, write_journal};
use smi_ledger::Ledger;
use sml_domain::Domain;
use std::alloc::Global;
use test_domains::{COUNTER, SUPPLIES};

/// The text of a journal.
pub const STANDARD_TEXT: &[u8] = b"smi-journal 2
start RUN @1 0 CONFIGURE
post RUN HV1 0 SWITCH_ON
post RUN HV2 0 SWITCH_ON
wait RUN
start HV1 RUN 0 SWITCH_ON
end HV1 ON
start HV2 RUN 0 SWITCH_ON
end HV2 ON
seen RUN HV1=ON HV2=ON
end RUN READY
start RUN @1 1 CONFIGURE
end RUN skipped
";

/// The text of a journal.
pub const KILLS_TEXT: &[u8] = b"smi-journal 2
start RUN @1 0 CONFIGURE
start HV1 @2 0 SWITCH_ON
kill HV2 @1
post RUN HV1 refused full SWITCH_ON
post RUN HV2 refused dead SWITCH_ON
end HV1 ON
start HV1 @2 1 SWITCH_OFF
wait RUN
kill HV1 fault
seen RUN HV1=DEAD HV2=DEAD
end RUN ERROR
start RUN @1 1 CONFIGURE
kill RUN @8
";

/// The text of a journal.
pub const KILLED_SUPPLY_TEXT: &[u8] = b"smi-journal 2
start RUN @1 0 CONFIGURE
post RUN HV1 0 SWITCH_ON
post RUN HV2 0 SWITCH_ON
wait RUN
start HV1 RUN 0 SWITCH_ON
end HV1 ON
kill HV2 @1
seen RUN HV1=ON HV2=DEAD
end RUN ERROR
";

/// The text of a journal.
pub const ARGUMENTS_TEXT: &[u8] = b"smi-journal 2
start C @1 0 PUT (T = 5, M = \"a\")
post C OUT 0 TAKE (V = 5, W = \"a\")
end C IDLE
start OUT C 0 TAKE (V = 5, W = \"a\")
end OUT READY
";

/// The text of a journal.
pub const CHANGES_TEXT: &[u8] = b"smi-journal 2
start X @1 0 GO
post X A 0 LIGHT
empty X E
insert X A E
insert X X G
insert X A G
remove X A G
insert X A G
remove X X E
wait X
seen X A=OFF
remove X A E
kill X @1
start A X 0 LIGHT
insert A B E
end A ON
";

// A request with the least int and the empty string, and the greatest number that a request can have.
const ENDS_OF_RANGES: Run = Run {
    name: "the least int, the empty string, and the greatest number of a request",
    text: COUNTER,
    lines: &[
        Line::Start(
            1,
            By::Session(8),
            u64::MAX,
            1,
            &[Plain::Int(i64::MIN), Plain::Str(b"")],
        ),
        Line::Seen(1, &[]),
        Line::Kill(1, 1),
    ],
    facts: &[],
};

/// The text of a journal.
pub const ENDS_OF_RANGES_TEXT: &[u8] = b"smi-journal 2
start C @8 18446744073709551615 PUT (T = -9223372036854775808, M = \"\")
seen C
kill C @1
";

const NO_ENTRIES: Run = Run {
    name: "no entries",
    text: SUPPLIES,
    lines: &[],
    facts: &[],
};

/// The text of entries, or None if memory is refused.
pub fn text_of(alloc: Global, domain: &Domain, entries: &[Entry]) -> Option<Vec<u8>> {
    let mut text = Vec::new(alloc);
    write_journal(domain, entries, &mut text).ok()?;
    Some(text)
}

fn is_text_of(alloc: Global, ledger: &Ledger, expected: &[u8]) -> bool {
    match text_of(alloc, ledger.domain(), ledger.journal()) {
        Some(text) => text.as_slice() == expected,
        None => false,
    }
}

// Whether the journal of a run, whose lines can be added, is written so.
fn is_written_as(alloc: Global, run: Run, expected: &[u8]) -> bool {
    match ledger_of(alloc, run.text) {
        Some(ledger) => {
            let mut ledger = ledger;
            adds_all(alloc, &mut ledger, run.lines) && is_text_of(alloc, &ledger, expected)
        }
        None => false,
    }
}

const TEXTS: &[(Run, &[u8])] = &[
    (STANDARD, STANDARD_TEXT),
    (KILLS, KILLS_TEXT),
    (KILLED_SUPPLY, KILLED_SUPPLY_TEXT),
    (ARGUMENTS, ARGUMENTS_TEXT),
    (CHANGES, CHANGES_TEXT),
    (ENDS_OF_RANGES, ENDS_OF_RANGES_TEXT),
    (NO_ENTRIES, b"smi-journal 2\n"),
];

#[test]
fn journals_are_written(rt: HostRuntime) {
    for (run, text) in TEXTS {
        assert!(rt; is_written_as(rt.alloc(), *run, *text), "{}", run.name);
    }
}
