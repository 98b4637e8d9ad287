//! Requests that are made once, of which a log before this one had some: what is told of them again.

use crate::managing::{Asked, Limits, manager_of};
use smi_live::{Machine, Made, Manager, Recalled};
use smi_request_fates::{Came, Stands};
use sml_domain::{ObjId, StateId};
use sml_writer::Out;
use std::alloc::{AllocError, Global};
use std::test::*;
use test_domains::SUPPLIES;

const LIMITS: Limits<'static> = Limits {
    domain: SUPPLIES,
    max_starts: 1_000_000,
    room: None,
};

// How the first object stood after the request of which the log before tells.
fn stands() -> Stands {
    Stands {
        state: StateId::new(0),
        ended: 3,
    }
}

// What a log before had of L: its request 7, at the first object.
fn had() -> Recalled<'static> {
    Recalled {
        name: b"L",
        number: 7,
        what: b"ended",
        place: Some((ObjId::new(0), stands())),
    }
}

// A line after that log, and what is told of it; whether it is kept.
const LINES: [(&str, &str, bool); 6] = [
    (
        "once L 7 request @3 HV1 SWITCH_ON",
        "once L 7 past ended\n",
        false,
    ),
    (
        "once L 6 request @3 HV1 SWITCH_ON",
        "once L 6 refused Old\n",
        false,
    ),
    ("once L 7 no request", "once L 7 past ended\n", false),
    (
        "once L 8 request @3 HV1 SWITCH_ON",
        "accept @3 HV1 0 SWITCH_ON\nonce L 8 accept @3 HV1 0 SWITCH_ON\n",
        true,
    ),
    (
        "once L 8 request @3 HV1 SWITCH_ON",
        "once L 8 accept @3 HV1 0 SWITCH_ON\n",
        false,
    ),
    (
        "once L 7 request @3 HV1 SWITCH_ON",
        "once L 7 refused Old\n",
        false,
    ),
];

// Whether a line is answered so, and kept or not.
fn is_taken(
    alloc: Global,
    manager: &mut Manager<Asked>,
    line: &str,
    text: &str,
    is_kept: bool,
) -> bool {
    let mut made = Made::new(alloc);
    let is_taken = manager.take(line.as_bytes(), &mut made).is_ok();
    let is_told = made.text.as_slice() == text.as_bytes();
    is_taken && is_told && made.kept.is_empty() != is_kept
}

#[test]
fn what_a_log_before_had(rt: HostRuntime) {
    let Some(mut manager) = manager_of(rt.alloc(), LIMITS) else {
        assert!(rt; false, "no manager");
        return;
    };
    assert!(rt; manager.recall(&had()).is_ok());
    let came = match manager.accounts().watched(0) {
        Some(watched) => Some(watched.came),
        None => None,
    };
    assert!(rt; came == Some(Came::Past(Some(stands()))), "watched");
    for (at, (line, text, is_kept)) in LINES.iter().enumerate() {
        assert!(rt;
            is_taken(rt.alloc(), &mut manager, line, text, *is_kept),
            "line {at}"
        );
    }
}

// The name of this number, with what the log before had of it.
fn recall_named(
    alloc: Global,
    manager: &mut Manager<Asked>,
    number: u64,
) -> Result<(), AllocError> {
    let mut name = Vec::new(alloc);
    let mut out = Out::new(&mut name);
    out.say(b"N");
    out.number(number);
    manager.recall(&Recalled {
        name: &name,
        number: 1,
        what: b"refused Full",
        place: None,
    })
}

// Recalls 64 names.
fn recall_all(alloc: Global, manager: &mut Manager<Asked>) -> Result<(), AllocError> {
    for number in 0..64 {
        recall_named(alloc, manager, number)?;
    }
    Ok(())
}

// A line after 64 names were recalled, and what is told of it; whether it is kept.
const NAMED: [(&str, &str, bool); 4] = [
    (
        "once N64 1 request @3 HV1 SWITCH_ON",
        "once N64 1 refused TooManyNames\n",
        false,
    ),
    (
        "once N0 1 request @3 HV1 SWITCH_ON",
        "once N0 1 past refused Full\n",
        false,
    ),
    (
        "once N63 1 request @3 HV1 SWITCH_ON",
        "once N63 1 past refused Full\n",
        false,
    ),
    (
        "once N63 2 request @3 HV1 SWITCH_ON",
        "accept @3 HV1 0 SWITCH_ON\nonce N63 2 accept @3 HV1 0 SWITCH_ON\n",
        true,
    ),
];

#[test]
fn as_many_names_as_there_may_be(rt: HostRuntime) {
    let Some(mut manager) = manager_of(rt.alloc(), LIMITS) else {
        assert!(rt; false, "no manager");
        return;
    };
    assert!(rt; recall_all(rt.alloc(), &mut manager) == Ok(()));
    for (at, (line, text, is_kept)) in NAMED.iter().enumerate() {
        assert!(rt;
            is_taken(rt.alloc(), &mut manager, line, text, *is_kept),
            "line {at}"
        );
    }
}
