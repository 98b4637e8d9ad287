//! Lines that are not kept: where the log fills, or where no start is left.

use crate::feed::Come::Waited;
use crate::managing::{Limits, goes_on, made_again, manage};
use smi_live::{BYTES_LEFT, Machine, Made};
use std::alloc::{AllocError, Global};
use std::test::*;
use test_domains::SUPPLIES;

// A row: a log, and how many actions may be started; how many bytes the log may take besides those that are left for
// others; a line that comes; what is kept of it, and what is told.
#[derive(Drop)]
struct Row {
    log: &'static str,
    max_starts: usize,
    room: usize,
    line: &'static str,
    kept: &'static str,
    text: &'static str,
}

const MOST: usize = 1_000_000;

const ASK: &str = "request @3 HV1 SWITCH_ON";

// HV1 is at work.
const LOG_AT_WORK: &str = "request @3 HV1 SWITCH_ON\nstart HV1\n";

// A row in which nothing was done, and all may be started.
const fn fresh(room: usize, line: &'static str, kept: &'static str, text: &'static str) -> Row {
    Row {
        log: "",
        max_starts: MOST,
        room,
        line,
        kept,
        text,
    }
}

// A row in which no start is left.
const fn started(line: &'static str, kept: &'static str, text: &'static str) -> Row {
    Row {
        log: LOG_AT_WORK,
        max_starts: 1,
        room: MOST,
        line,
        kept,
        text,
    }
}

// A row in which HV1 is at work.
const fn at_work(room: usize, line: &'static str, kept: &'static str, text: &'static str) -> Row {
    Row {
        log: LOG_AT_WORK,
        max_starts: MOST,
        room,
        line,
        kept,
        text,
    }
}

// What is kept and told of a row.
fn made_of(alloc: Global, row: &Row) -> Option<Made> {
    let limits = Limits {
        domain: SUPPLIES,
        max_starts: row.max_starts,
        room: Some(BYTES_LEFT.saturating_add(row.room)),
    };
    goes_on(alloc, limits, row.log.as_bytes(), row.line.as_bytes())
}

// Whether a row is as it should be.
fn is_so(alloc: Global, row: &Row) -> bool {
    match made_of(alloc, row) {
        Some(made) => {
            made.kept.as_slice() == row.kept.as_bytes()
                && made.text.as_slice() == row.text.as_bytes()
        }
        None => false,
    }
}

#[test]
fn lines_that_are_not_kept(rt: HostRuntime) {
    let rows = [
        fresh(
            25,
            ASK,
            "request @3 HV1 SWITCH_ON\n",
            "accept @3 HV1 0 SWITCH_ON\n",
        ),
        fresh(24, ASK, "", "refused Limit\n"),
        fresh(
            18,
            "request @3 XX GO",
            "request @3 XX GO\n",
            "refused UnknownObject\n",
        ),
        fresh(16, "request @3 XX GO", "", "refused Limit\n"),
        fresh(16, "nonsense", "refused BadLine\n", "refused BadLine\n"),
        fresh(15, "nonsense", "", "refused Limit\n"),
        fresh(15, "start HV1", "", "refused Limit\n"),
        fresh(15, "go HV1", "", "refused Limit\n"),
        fresh(
            15,
            "request @3 HV1 SWITCH_ON ! once L 1",
            "",
            "refused Limit\n",
        ),
        fresh(15, "! smirun live 1", "", "refused Limit\n"),
        fresh(8, "! hello", "! hello\n", ""),
        fresh(7, "! hello", "", ""),
        fresh(1, "", "\n", ""),
        fresh(0, "", "", ""),
        fresh(0, "kill HV1 @3", "kill HV1 @3\n", "kill HV1 @3\n"),
        fresh(0, "answer HV1 ON", "answer HV1 ON\n", "refused NotOpen\n"),
        fresh(0, "fault HV1", "fault HV1\n", "refused NotOpen\n"),
        at_work(0, "answer HV1 ON", "answer HV1 ON\n", "end HV1 ON\n"),
        at_work(0, "fault HV1", "fault HV1\n", "kill HV1 fault\n"),
        at_work(0, "kill HV1 @3", "kill HV1 @3\n", "kill HV1 @3\n"),
        started(ASK, "", "refused Limit\n"),
        started(
            "once L 1 request @3 HV2 SWITCH_ON",
            "",
            "once L 1 refused Limit\n",
        ),
        started("once L 1 nonsense", "", "once L 1 refused Limit\n"),
        started("nonsense", "refused BadLine\n", "refused BadLine\n"),
        started("! hello", "! hello\n", ""),
        started("answer HV1 ON", "answer HV1 ON\n", "end HV1 ON\n"),
    ];
    for (at, row) in rows.iter().enumerate() {
        assert!(rt; is_so(rt.alloc(), row), "row {at}");
    }
}

// A log in which L asked for its first request.
const ASKED: &str = "request @3 HV1 SWITCH_ON ! once L 1\n";

const ASK_ONCE: &str = "once L 2 request @3 HV1 SWITCH_ON";

// A row of a request that is to be made once.
const fn once(room: usize, line: &'static str, kept: &'static str, text: &'static str) -> Row {
    Row {
        log: ASKED,
        max_starts: MOST,
        room,
        line,
        kept,
        text,
    }
}

#[test]
fn requests_once_that_are_not_kept(rt: HostRuntime) {
    let rows = [
        once(
            36,
            ASK_ONCE,
            "request @3 HV1 SWITCH_ON ! once L 2\n",
            "accept @3 HV1 1 SWITCH_ON\nonce L 2 accept @3 HV1 1 SWITCH_ON\n",
        ),
        once(35, ASK_ONCE, "", "once L 2 refused Limit\n"),
        once(
            20,
            "once L 2 nonsense",
            "refused BadLine\n",
            "refused BadLine\n",
        ),
        once(19, "once L 2 nonsense", "", "once L 2 refused Limit\n"),
        once(
            0,
            "once L 1 request @3 HV1 SWITCH_ON",
            "",
            "once L 1 accept @3 HV1 0 SWITCH_ON\n",
        ),
        once(
            0,
            "once L 0 request @3 HV1 SWITCH_ON",
            "",
            "once L 0 refused Old\n",
        ),
    ];
    for (at, row) in rows.iter().enumerate() {
        assert!(rt; is_so(rt.alloc(), row), "row {at}");
    }
}

// Asks for a request once where there is no room, and again where there is.
fn asks_twice(alloc: Global) -> Result<bool, AllocError> {
    let limits = Limits {
        domain: SUPPLIES,
        max_starts: MOST,
        room: Some(BYTES_LEFT),
    };
    let Some(mut manager) = made_again(alloc, limits, ASKED.as_bytes()) else {
        return Err(AllocError);
    };
    let mut made = Made::new(alloc);
    manager.take(ASK_ONCE.as_bytes(), &mut made)?;
    let is_refused = made.text.as_slice() == b"once L 2 refused Limit\n".as_slice();
    manager.begin(1, None);
    manager.take(ASK_ONCE.as_bytes(), &mut made)?;
    let is_made = made.text.starts_with(b"accept @3 HV1 1 SWITCH_ON\n");
    Ok(is_refused && is_made)
}

#[test]
fn a_number_that_is_not_used_up(rt: HostRuntime) {
    assert!(rt; asks_twice(rt.alloc()) == Ok(true));
}

// What two requests write, where the log may take this many bytes besides those that are left for others.
fn two_requests(alloc: Global, room: usize) -> Option<(Vec<u8>, Vec<u8>)> {
    let limits = Limits {
        domain: SUPPLIES,
        max_starts: MOST,
        room: Some(BYTES_LEFT.saturating_add(room)),
    };
    let lines = [Waited(ASK), Waited("request @3 HV2 SWITCH_ON")];
    let mut log = Vec::new(alloc);
    let mut output = Vec::new(alloc);
    let managed = manage(alloc, limits, &lines, false, &mut log, &mut output)?;
    managed.ended.ok()?;
    Some((log, output))
}

// Whether two requests are kept and written so.
fn are_so(alloc: Global, room: usize, log: &str, output: &str) -> bool {
    match two_requests(alloc, room) {
        Some((kept, written)) => {
            kept.as_slice() == log.as_bytes() && written.as_slice() == output.as_bytes()
        }
        None => false,
    }
}

// 25 bytes of a request, 10 of a start, and 25 of the second request: one byte less, and just as many.
const STEPS_COUNT: [(usize, &str, &str); 2] = [
    (
        59,
        "request @3 HV1 SWITCH_ON\nstart HV1\n",
        "accept @3 HV1 0 SWITCH_ON\nstart HV1 @3 0 SWITCH_ON\nrefused Limit\n",
    ),
    (
        60,
        "request @3 HV1 SWITCH_ON\nstart HV1\nrequest @3 HV2 SWITCH_ON\nstart HV2\n",
        "accept @3 HV1 0 SWITCH_ON\nstart HV1 @3 0 SWITCH_ON\naccept @3 HV2 0 SWITCH_ON\nstart HV2 @3 0 SWITCH_ON\n",
    ),
];

#[test]
fn own_steps_that_use_room(rt: HostRuntime) {
    for (at, (room, log, output)) in STEPS_COUNT.iter().enumerate() {
        assert!(rt; are_so(rt.alloc(), *room, log, output), "row {at}");
    }
}
