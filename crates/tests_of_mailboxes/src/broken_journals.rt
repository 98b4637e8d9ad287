//! Journals, cut at every place and with a byte changed at every place.

use crate::broken::{BYTES, breaks, changed, ends_line, line_at};
use crate::domains::WAITS;
use smi_audit::{JournalError, Judgement, audit};
use sml_domain::Domain;
use sml_load::domain_of;
use std::alloc::Global;
use std::sync::Arc;
use std::test::*;
use test_domains::{CHANGES, COUNTER, PAIR, SUPPLIES};

// A header, which is as long in either format.
const HEADER: &[u8] = b"smi-journal 1\n";

// Legal journals of both formats, each with its name and its domain.
const JOURNALS: [(&str, &[u8], &[u8]); 6] = [
    (
        "a full mailbox, a fault and a skip",
        SUPPLIES,
        b"smi-journal 1
start RUN @1 0 CONFIGURE
post RUN HV1 0 SWITCH_ON
post RUN HV2 refused full SWITCH_ON
wait RUN
start HV1 RUN 0 SWITCH_ON
kill HV1 fault
seen RUN HV1=DEAD HV2=OFF
end RUN ERROR
start RUN @1 1 CONFIGURE
end RUN skipped
",
    ),
    (
        "two that wait for one another",
        PAIR,
        b"smi-journal 1
start A @1 0 GO
start B @8 0 GO
wait A
wait B
kill B @1
seen A B=DEAD
end A S
",
    ),
    (
        "waits",
        WAITS,
        b"smi-journal 1
start B @1 0 GO
post B L 0 LIGHT
post B K 0 LIGHT
wait B
start L B 0 LIGHT
end L ON
kill K @1
seen B K=DEAD L=ON
seen B
end B DONE
",
    ),
    (
        "arguments",
        COUNTER,
        b"smi-journal 1
start C @1 0 PUT (T = 5, M = \"a\")
post C OUT 0 TAKE (V = 5, W = \"a\")
end C IDLE
start OUT C 0 TAKE (V = 5, W = \"a\")
end OUT READY
",
    ),
    (
        "a set that changes",
        CHANGES,
        b"smi-journal 2
start B @1 0 GO
insert B L G
post B L 0 LIGHT
remove B L G
empty B G
seen B
end B DONE
",
    ),
    (
        "waits, and a full mailbox, in the second format",
        WAITS,
        b"smi-journal 2
start B @1 0 GO
post B L 0 LIGHT
post B K refused full LIGHT
wait B
start L B 0 LIGHT
end L ON
seen B K=OFF L=ON
seen B
end B DONE
",
    ),
];

// What the judge says about a text.
fn said(alloc: Global, domain: &Arc<Domain>, text: &[u8]) -> Result<Judgement, JournalError> {
    match Arc::try_clone(domain) {
        Ok(domain) => audit(alloc, domain, text),
        Err(_) => Err(JournalError::Memory),
    }
}

// Whether a text whose line at a place is wrong is refused: the header is named, or this line.
fn is_bad_at(said: Result<Judgement, JournalError>, text: &[u8], place: usize) -> bool {
    match said {
        Err(JournalError::BadHeader) => place < HEADER.len(),
        Err(JournalError::BadLine(line)) => {
            place >= HEADER.len() && line == line_at(text, place) as u64
        }
        _ => false,
    }
}

// Whether a prefix that ends with a line is legal, and another is bad there.
fn is_right_cut(alloc: Global, domain: &Arc<Domain>, text: &[u8], length: usize) -> Option<bool> {
    let said = said(alloc, domain, text.get(..length)?);
    Some(if length > 0 && ends_line(text, length) {
        said == Ok(Judgement::Legal)
    } else {
        is_bad_at(said, text, length)
    })
}

// Whether the judgement of a text that is read is right: it is as it was, or another value does not fit from there on.
fn is_right_judgement(
    said: Result<Judgement, JournalError>,
    text: &[u8],
    place: usize,
    byte: u8,
) -> bool {
    match said {
        Ok(Judgement::Legal) => text.get(place) == Some(&byte),
        Ok(Judgement::Illegal { line, .. }) => {
            text.get(place) != Some(&byte) && line >= line_at(text, place) as u64
        }
        Err(_) => false,
    }
}

// Whether a journal with another byte at a place is bad at that line where this breaks it, and else judged.
fn is_right_byte(
    alloc: Global,
    domain: &Arc<Domain>,
    text: &[u8],
    place: usize,
    byte: u8,
) -> Option<bool> {
    let said = said(alloc, domain, &changed(alloc, text, place, byte)?);
    Some(if breaks(text, place, byte) {
        is_bad_at(said, text, place)
    } else {
        is_right_judgement(said, text, place, byte)
    })
}

// Whether all is right at a place.
fn is_right_at(alloc: Global, domain: &Arc<Domain>, text: &[u8], place: usize) -> bool {
    is_right_cut(alloc, domain, text, place) == Some(true)
        && BYTES.iter().all(|byte| is_right_byte(alloc, domain, text, place, *byte) == Some(true))
}

// Whether all is right at each place of a journal, and the whole of it.
fn is_right(alloc: Global, domain: &[u8], text: &[u8]) -> Option<bool> {
    let domain = domain_of(alloc, domain).ok()?;
    for place in 0..text.len() {
        if !is_right_at(alloc, &domain, text, place) {
            return Some(false);
        }
    }
    is_right_cut(alloc, &domain, text, text.len())
}

#[test]
fn broken_journals_are_bad_where_they_break(rt: HostRuntime) {
    for (name, domain, text) in &JOURNALS {
        assert!(rt; is_right(rt.alloc(), domain, text) == Some(true), "{name}");
    }
}
