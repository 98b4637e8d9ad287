//! Texts that are no scripts.

use crate::scripts::RUN_BETWEEN_SUPPLIES;
use smi_run_plan::{ScriptError, read_script};
use sml_load::domain_of;
use std::alloc::Global;
use std::test::*;

// Whether a text is refused for this fault, or is a script where none is named.
fn has_fault(alloc: Global, text: &[u8], fault: Option<ScriptError>) -> bool {
    let Ok(domain) = domain_of(alloc, RUN_BETWEEN_SUPPLIES) else {
        return false;
    };
    read_script(alloc, &domain, text).err() == fault
}

// A name, a text, and the first line of it that is not a line of a script.
const BAD: &[(&str, &[u8], u64)] = &[
    ("a start", b"start RUN", 1),
    ("a start behind a kill", b"kill RUN @1\nstart RUN\n", 2),
    ("a go", b"go RUN", 1),
    ("an answer", b"answer HV1 ON", 1),
    ("a fault behind two empty lines", b"\n\nfault HV1", 3),
    (
        "a device that the domain does not have",
        b"device HV1 SWITCH_ON ON\ndevice HV3 SWITCH_ON ON",
        2,
    ),
    (
        "an action that the domain does not have",
        b"device HV1 SWITCH_UP ON",
        1,
    ),
    (
        "a state that the domain does not have",
        b"device HV1 SWITCH_ON UP",
        1,
    ),
    ("a device without its state", b"device HV1 SWITCH_ON", 1),
    ("a device with two states", b"device HV1 SWITCH_ON ON ON", 1),
    (
        "a session in place of a device",
        b"device @1 SWITCH_ON ON",
        1,
    ),
    ("a keyword in place of an action", b"device HV1 STATE ON", 1),
    (
        "a word that begins as `device`",
        b"devices HV1 SWITCH_ON ON",
        1,
    ),
    (
        "a string in place of a device",
        b"device \"HV1\" SWITCH_ON ON",
        1,
    ),
    ("a request without its session", b"request RUN CONFIGURE", 1),
    ("a ninth session", b"request @9 RUN CONFIGURE", 1),
    ("a list of no arguments", b"request @1 RUN CONFIGURE ()", 1),
    (
        "a kill without its session",
        b"request @1 RUN CONFIGURE\nkill RUN\nkill RUN @1",
        2,
    ),
    ("the session 0", b"kill RUN @0", 1),
    ("two sessions", b"kill RUN @1 @2", 1),
    ("an object alone", b"RUN", 1),
    ("a byte of no token", b"kill RUN @1 $\n", 1),
    ("a comment beyond ASCII", b"! r\xc3\xb6hre", 1),
    (
        "a number behind a carriage return",
        b"kill RUN @1\r\nkill RUN @1\n7",
        3,
    ),
];

#[test]
fn the_first_line_of_no_script_is_told(rt: HostRuntime) {
    for (name, text, number) in BAD {
        assert!(rt;
            has_fault(rt.alloc(), *text, Some(ScriptError::BadLine(*number))),
            "{name}"
        );
    }
}

// Whether a comment of this length is refused for this fault, or is a script where none is named.
fn comment_has_fault(alloc: Global, bytes: usize, fault: Option<ScriptError>) -> bool {
    match vec![in alloc; b'!'; bytes] {
        Ok(text) => has_fault(alloc, &text, fault),
        Err(_) => false,
    }
}

// A name, the length of a comment in one line, and for what it is refused.
const LONG: &[(&str, usize, Option<ScriptError>)] = &[
    ("the longest line", 8_192, None),
    ("a longer line", 8_193, Some(ScriptError::BadLine(1))),
    (
        "the longest text",
        16_777_216,
        Some(ScriptError::BadLine(1)),
    ),
    ("a longer text", 16_777_217, Some(ScriptError::TooLong)),
];

#[test]
fn what_is_longer_than_its_limit_is_refused(rt: HostRuntime) {
    for (name, bytes, fault) in LONG {
        assert!(rt; comment_has_fault(rt.alloc(), *bytes, *fault), "{name}");
    }
}
