//! Requests that are made once: what is logged of them, and what is told, also after a log.

use crate::feed::Come;
use crate::feed::Come::Waited;
use crate::managing::{Asked, Limits, goes_on, made_again, manage, manager_of};
use smi_live::{Machine, Made, Manager};
use smi_request_fates::{Came, Fate};
use sml_domain::ObjId;
use sml_writer::Out;
use std::alloc::{AllocError, Global};
use std::test::*;
use test_domains::SUPPLIES;

// A row: the lines that come, those of the log, and those that are written.
#[derive(Drop)]
struct Row {
    input: &'static [Come<'static>],
    log: &'static str,
    output: &'static str,
}

const LIMITS: Limits<'static> = Limits {
    domain: SUPPLIES,
    max_starts: 1_000_000,
    room: None,
};

const ONCE: Row = Row {
    input: &[Waited("once L 1 request @3 HV1 SWITCH_ON")],
    log: "request @3 HV1 SWITCH_ON ! once L 1
start HV1
",
    output: "accept @3 HV1 0 SWITCH_ON
once L 1 accept @3 HV1 0 SWITCH_ON
start HV1 @3 0 SWITCH_ON
",
};

const TWICE: Row = Row {
    input: &[
        Waited("once L 1 request @3 HV1 SWITCH_ON"),
        Waited("once L 1 request @3 HV1 SWITCH_ON"),
    ],
    log: "request @3 HV1 SWITCH_ON ! once L 1
start HV1
",
    output: "accept @3 HV1 0 SWITCH_ON
once L 1 accept @3 HV1 0 SWITCH_ON
start HV1 @3 0 SWITCH_ON
once L 1 accept @3 HV1 0 SWITCH_ON
",
};

const OLD: Row = Row {
    input: &[
        Waited("once L 1 request @3 HV1 SWITCH_ON"),
        Waited("once L 0 request @3 HV1 SWITCH_OFF"),
    ],
    log: "request @3 HV1 SWITCH_ON ! once L 1
start HV1
",
    output: "accept @3 HV1 0 SWITCH_ON
once L 1 accept @3 HV1 0 SWITCH_ON
start HV1 @3 0 SWITCH_ON
once L 0 refused Old
",
};

const REFUSED: Row = Row {
    input: &[
        Waited("once L 1 request @3 XX GO"),
        Waited("once L 1 request @3 XX GO"),
    ],
    log: "request @3 XX GO ! once L 1
",
    output: "refused UnknownObject
once L 1 refused UnknownObject
once L 1 refused UnknownObject
",
};

const NO_REQUEST: Row = Row {
    input: &[
        Waited("once L 1 kill HV1 @3"),
        Waited("once L 1 request @3 HV1 SWITCH_ON"),
    ],
    log: "refused BadLine
request @3 HV1 SWITCH_ON ! once L 1
start HV1
",
    output: "refused BadLine
accept @3 HV1 0 SWITCH_ON
once L 1 accept @3 HV1 0 SWITCH_ON
start HV1 @3 0 SWITCH_ON
",
};

const BAD_FORMS: Row = Row {
    input: &[
        Waited("once l 1 request @3 HV1 SWITCH_ON"),
        Waited("once L 01 request @3 HV1 SWITCH_ON"),
        Waited("once  L 1 request @3 HV1 SWITCH_ON"),
        Waited("ONCE L 1 request @3 HV1 SWITCH_ON"),
        Waited("once L 18446744073709551616 request @3 HV1 SWITCH_ON"),
        Waited("once L -1 request @3 HV1 SWITCH_ON"),
        Waited("once L 1"),
        Waited("once L x request @3 HV1 SWITCH_ON"),
    ],
    log: "refused BadLine
refused BadLine
refused BadLine
refused BadLine
refused BadLine
refused BadLine
refused BadLine
refused BadLine
",
    output: "refused BadLine
refused BadLine
refused BadLine
refused BadLine
refused BadLine
refused BadLine
refused BadLine
refused BadLine
",
};

const GREATEST: Row = Row {
    input: &[Waited("once L 18446744073709551615 request @3 HV1 SWITCH_ON")],
    log: "request @3 HV1 SWITCH_ON ! once L 18446744073709551615
start HV1
",
    output: "accept @3 HV1 0 SWITCH_ON
once L 18446744073709551615 accept @3 HV1 0 SWITCH_ON
start HV1 @3 0 SWITCH_ON
",
};

const MARKS_FROM_OUTSIDE: Row = Row {
    input: &[
        Waited("request @3 HV1 SWITCH_ON ! once L 1"),
        Waited("! once L 1"),
        Waited("! once L 1 was lost"),
        Waited("once L 1 request @3 HV1 SWITCH_ON"),
    ],
    log: "refused BadLine
! once L 1
! once L 1 was lost
request @3 HV1 SWITCH_ON ! once L 1
start HV1
",
    output: "refused BadLine
accept @3 HV1 0 SWITCH_ON
once L 1 accept @3 HV1 0 SWITCH_ON
start HV1 @3 0 SWITCH_ON
",
};

const A_REMARK_OF_ITS_OWN: Row = Row {
    input: &[Waited("once L 1 request @3 HV1 SWITCH_ON ! by hand")],
    log: "request @3 HV1 SWITCH_ON ! by hand ! once L 1
start HV1
",
    output: "accept @3 HV1 0 SWITCH_ON
once L 1 accept @3 HV1 0 SWITCH_ON
start HV1 @3 0 SWITCH_ON
",
};

const TWO_NAMES: Row = Row {
    input: &[
        Waited("once L 1 request @3 HV1 SWITCH_ON"),
        Waited("once M_2 7 request @4 HV2 SWITCH_ON"),
        Waited("once L 1 request @3 HV1 SWITCH_ON"),
        Waited("once M_2 7 request @4 HV2 SWITCH_ON"),
        Waited("once M_2 6 request @4 HV2 SWITCH_ON"),
    ],
    log: "request @3 HV1 SWITCH_ON ! once L 1
start HV1
request @4 HV2 SWITCH_ON ! once M_2 7
start HV2
",
    output: "accept @3 HV1 0 SWITCH_ON
once L 1 accept @3 HV1 0 SWITCH_ON
start HV1 @3 0 SWITCH_ON
accept @4 HV2 0 SWITCH_ON
once M_2 7 accept @4 HV2 0 SWITCH_ON
start HV2 @4 0 SWITCH_ON
once L 1 accept @3 HV1 0 SWITCH_ON
once M_2 7 accept @4 HV2 0 SWITCH_ON
once M_2 6 refused Old
",
};

const LINES_THAT_MAY_NOT_COME: Row = Row {
    input: &[
        Waited("! smirun live 0123456789 16"),
        Waited("request @3 HV1 SWITCH_ON !\u{1}"),
        Waited("!\ta remark with a tab\r"),
        Waited("! smirun"),
    ],
    log: "refused BadLine
refused BadLine
!\ta remark with a tab\r
! smirun
",
    output: "refused BadLine
refused BadLine
",
};

// Whether a row is as it should be.
fn is_so(alloc: Global, row: &Row) -> Result<bool, AllocError> {
    let mut log = Vec::new(alloc);
    let mut output = Vec::new(alloc);
    let Some(managed) = manage(alloc, LIMITS, row.input, false, &mut log, &mut output) else {
        return Err(AllocError);
    };
    let is_logged = log.as_slice() == row.log.as_bytes();
    let is_written = output.as_slice() == row.output.as_bytes();
    Ok(managed.ended.is_ok() && is_logged && is_written)
}

#[test]
fn requests_that_are_made_once(rt: HostRuntime) {
    let rows = [
        ONCE,
        TWICE,
        OLD,
        REFUSED,
        NO_REQUEST,
        BAD_FORMS,
        GREATEST,
        MARKS_FROM_OUTSIDE,
        A_REMARK_OF_ITS_OWN,
        TWO_NAMES,
        LINES_THAT_MAY_NOT_COME,
    ];
    for (at, row) in rows.iter().enumerate() {
        assert!(rt; is_so(rt.alloc(), row) == Ok(true), "row {at}");
    }
}

// A log, a line that comes after it, what is kept of it, and what is told.
const AFTER_LOGS: [(&str, &str, &str, &str); 4] = [
    (
        "request @3 HV1 SWITCH_ON ! once L 1\nstart HV1\n",
        "once L 1 request @3 HV1 SWITCH_ON",
        "",
        "once L 1 accept @3 HV1 0 SWITCH_ON\n",
    ),
    (
        "request @3 HV1 SWITCH_ON ! once L 1\n",
        "once L 2 request @3 HV1 SWITCH_ON",
        "request @3 HV1 SWITCH_ON ! once L 2\n",
        "accept @3 HV1 1 SWITCH_ON\nonce L 2 accept @3 HV1 1 SWITCH_ON\n",
    ),
    (
        "request @3 XX GO ! once L 5\n",
        "once L 5 request @3 HV1 SWITCH_ON",
        "",
        "once L 5 refused UnknownObject\n",
    ),
    (
        "",
        "once L 1 request @3 HV1 SWITCH_ON",
        "request @3 HV1 SWITCH_ON ! once L 1\n",
        "accept @3 HV1 0 SWITCH_ON\nonce L 1 accept @3 HV1 0 SWITCH_ON\n",
    ),
];

#[test]
fn what_was_told_after_a_log(rt: HostRuntime) {
    for (at, (log, line, kept, text)) in AFTER_LOGS.iter().enumerate() {
        let Some(made) = goes_on(rt.alloc(), LIMITS, log.as_bytes(), line.as_bytes()) else {
            assert!(rt; false, "no manager");
            return;
        };
        let is_kept = made.kept.as_slice() == kept.as_bytes();
        assert!(rt;
            is_kept && made.text.as_slice() == text.as_bytes(),
            "log {at}"
        );
    }
}

// Logs that no manager wrote: a number that is not greater, one that stands twice, and a mark after what is no request.
const NO_LOGS: [&str; 3] = [
    "request @3 HV1 SWITCH_ON ! once L 2\nrequest @3 HV1 SWITCH_ON ! once L 1\n",
    "request @3 HV1 SWITCH_ON ! once L 2\nrequest @3 HV1 SWITCH_ON ! once L 2\n",
    "kill HV1 @3 ! once L 1\n",
];

#[test]
fn marks_that_no_manager_made(rt: HostRuntime) {
    for (at, log) in NO_LOGS.iter().enumerate() {
        assert!(rt;
            made_again(rt.alloc(), LIMITS, log.as_bytes()).is_none(),
            "log {at}"
        );
    }
}

// Takes a request of a name, which is refused as its object is not known. What is told.
fn take_named(
    alloc: Global,
    manager: &mut Manager<Asked>,
    name: u64,
    number: u64,
) -> Result<Vec<u8>, AllocError> {
    let mut line = Vec::new(alloc);
    let mut out = Out::new(&mut line);
    out.say(b"once N");
    out.number(name);
    out.say(b" ");
    out.number(number);
    out.say(b" request @3 XX GO");
    let mut made = Made::new(alloc);
    manager.take(&line, &mut made)?;
    let Made { text, .. } = made;
    Ok(text)
}

// Whether 64 names are known and a further one is not, and the known ones go on.
fn are_known(alloc: Global, manager: &mut Manager<Asked>) -> Result<bool, AllocError> {
    for name in 0..64 {
        if !take_named(alloc, manager, name, 1)?.starts_with(b"refused UnknownObject\n") {
            return Ok(false);
        }
    }
    let is_told = take_named(alloc, manager, 64, 1)?.as_slice()
        == b"once N64 1 refused TooManyNames\n".as_slice();
    let goes_on = take_named(alloc, manager, 0, 2)?.starts_with(b"refused UnknownObject\n");
    Ok(is_told && goes_on)
}

#[test]
fn names_that_are_known(rt: HostRuntime) {
    let Some(mut manager) = manager_of(rt.alloc(), LIMITS) else {
        assert!(rt; false, "no manager");
        return;
    };
    assert!(rt; are_known(rt.alloc(), &mut manager) == Ok(true));
}

// A log of three names: the last request of the first is open, that of the second was killed, and that of the third
// was refused.
const DONE: &[u8] = b"request @3 HV1 SWITCH_ON ! once L 1
start HV1
answer HV1 ON
request @3 HV1 SWITCH_OFF ! once L 2
start HV1
request @4 HV2 SWITCH_ON ! once M 7
kill HV2 @1
request @5 XX GO ! once N 1
";

// How often objects started and ended in all.
fn totals(manager: &Manager<Asked>) -> (u64, u64) {
    let mut started: u64 = 0;
    let mut ended: u64 = 0;
    for o in 0..manager.core().domain().objects() {
        if let Some(counts) = manager.accounts().counts(ObjId::new(o)) {
            started = started.saturating_add(counts.started);
            ended = ended.saturating_add(counts.ended);
        }
    }
    (started, ended)
}

// What became of the last request of the name at a place.
fn came_at(manager: &Manager<Asked>, place: usize) -> Option<Came> {
    match manager.accounts().watched(place) {
        Some(watched) => Some(watched.came),
        None => None,
    }
}

#[test]
fn what_is_kept_of_what_was_done(rt: HostRuntime) {
    let Some(manager) = made_again(rt.alloc(), LIMITS, DONE) else {
        assert!(rt; false, "no manager");
        return;
    };
    assert!(rt; totals(&manager) == (2, 2), "counts");
    assert!(rt;
        came_at(&manager, 0) == Some(Came::Accepted(Fate::Open)),
        "open"
    );
    let is_killed = matches!(came_at(&manager, 1), Some(Came::Accepted(Fate::Killed(_))));
    assert!(rt; is_killed, "killed");
    assert!(rt;
        came_at(&manager, 2) == Some(Came::Refused(None)),
        "refused"
    );
    assert!(rt; came_at(&manager, 3).is_none(), "no further name");
    assert!(rt; manager.accounts().told().names() == 3, "names");
}
