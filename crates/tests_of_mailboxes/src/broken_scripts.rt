//! Scripts, cut at every place and with a byte changed at every place.

use crate::broken::{BYTES, breaks, changed, line_at};
use smi_run_plan::{ScriptError, read_script};
use sml_domain::Domain;
use sml_load::domain_of;
use std::alloc::Global;
use std::test::*;
use test_domains::{COUNTER, SUPPLIES};

// Scripts, each with its name and its domain.
const SCRIPTS: [(&str, &[u8], &[u8]); 3] = [
    (
        "devices and a request",
        SUPPLIES,
        b"device HV1 SWITCH_ON ON
device HV2 SWITCH_ON ON
request @1 RUN CONFIGURE
",
    ),
    (
        "kills and an empty line",
        SUPPLIES,
        b"request @2 HV1 SWITCH_ON
kill RUN @1

device HV1 SWITCH_ON READY
request @1 RUN CONFIGURE
kill HV1 @8
",
    ),
    (
        "arguments",
        COUNTER,
        b"device OUT TAKE READY
request @1 C PUT (M = \"a b\")
request @1 C PUT (M = \"\", T = -7)
kill C @3
",
    ),
];

// The first line of a text that is not a line of a script; 0 if there is no such line, and None if the text is refused
// for another cause.
fn bad_line(alloc: Global, domain: &Domain, text: &[u8]) -> Option<u64> {
    match read_script(alloc, domain, text) {
        Ok(_) => Some(0),
        Err(ScriptError::BadLine(number)) => Some(number),
        Err(_) => None,
    }
}

// Whether a prefix is read, or refused at its last line; all of it is read.
fn is_right_cut(alloc: Global, domain: &Domain, text: &[u8], length: usize) -> Option<bool> {
    let line = bad_line(alloc, domain, text.get(..length)?)?;
    Some(line == 0 || (length < text.len() && line == line_at(text, length) as u64))
}

// Whether a script with another byte at a place is refused at that line where this breaks it, and else read.
fn is_right_byte(
    alloc: Global,
    domain: &Domain,
    text: &[u8],
    place: usize,
    byte: u8,
) -> Option<bool> {
    let line = bad_line(alloc, domain, &changed(alloc, text, place, byte)?)?;
    Some(if breaks(text, place, byte) {
        line == line_at(text, place) as u64
    } else {
        line == 0
    })
}

// Whether all is right at a place.
fn is_right_at(alloc: Global, domain: &Domain, text: &[u8], place: usize) -> bool {
    is_right_cut(alloc, domain, text, place) == Some(true)
        && BYTES.iter().all(|byte| is_right_byte(alloc, domain, text, place, *byte) == Some(true))
}

// Whether all is right at each place of a script, and the whole of it.
fn is_right(alloc: Global, domain: &[u8], text: &[u8]) -> Option<bool> {
    let domain = domain_of(alloc, domain).ok()?;
    for place in 0..text.len() {
        if !is_right_at(alloc, &domain, text, place) {
            return Some(false);
        }
    }
    is_right_cut(alloc, &domain, text, text.len())
}

#[test]
fn broken_scripts_are_refused_where_they_break(rt: HostRuntime) {
    for (name, domain, text) in &SCRIPTS {
        assert!(rt; is_right(rt.alloc(), domain, text) == Some(true), "{name}");
    }
}

// Bytes that a line may have and may not: a NUL and an escape are only in comments, a carriage return is a blank,
// though not in a word or a string, and the last line needs no line feed. With each comes its name, and the first bad
// line, or 0.
const BYTES_OF_LINES: [(&str, &[u8], u64); 10] = [
    (
        "a NUL and an escape in a comment",
        b"kill RUN @1 !\x00\x1b\n",
        0,
    ),
    ("a NUL behind a line", b"kill RUN @1\x00\n", 1),
    ("a line of a NUL", b"kill RUN @1\n\x00\n", 2),
    ("a NUL in the last line", b"kill RUN @1\n\x00", 2),
    ("carriage returns for blanks", b"kill\rRUN\r@1\r\r\n", 0),
    ("a carriage return in a word", b"kill RU\rN @1\n", 1),
    (
        "a carriage return in a string",
        b"request @1 RUN CONFIGURE (M = \"a\r\")\n",
        1,
    ),
    (
        "a last line without a line feed",
        b"kill RUN @1\nkill RUN @1",
        0,
    ),
    (
        "a bad last line without a line feed",
        b"kill RUN @1\nkill RUN",
        2,
    ),
    ("a carriage return at the end", b"kill RUN @1\r", 0),
];

// The name of the first row of which something else is said.
fn wrong_row(alloc: Global, domain: &Domain) -> Option<&'static str> {
    for (name, text, line) in &BYTES_OF_LINES {
        if bad_line(alloc, domain, text) != Some(*line) {
            return Some(*name);
        }
    }
    None
}

#[test]
fn bytes_stand_where_they_may(rt: HostRuntime) {
    let domain = domain_of(rt.alloc(), SUPPLIES).ok();
    let wrong = match &domain {
        Some(domain) => wrong_row(rt.alloc(), domain),
        None => Some("the domain"),
    };
    assert!(rt; wrong.is_none(), "{wrong:?}");
}
