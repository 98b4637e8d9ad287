//! Cores after schedules: how many requests wait at an object, where it was killed, and whether it rests.
ghost use Rattle.std.specs.Prelude.{◌<◌, length};

use smi_core::{Core, run_schedule};
use sml_domain::ObjId;
use sml_load::domain_of;
use std::alloc::Global;
use std::test::*;
use test_domains::{FITTED, SUPPLIES};

// Two requests may wait at each object.
const CAPACITY: usize = 2;

// The objects of both domains, by number.
const HV1: usize = 0;

const HV2: usize = 1;

const RUN: usize = 2;

const BOSS: usize = 1;

// A schedule, how many starts it may make, and what is so of an object after it.
#[derive(Clone, Copy)]
struct Row {
    name: &'static str,
    domain: &'static [u8],
    most: usize,
    schedule: &'static [u8],
    object: usize,
    waits: usize,
    killed_at: Option<u64>,
    rests: bool,
}

const NOBODY_ASKED: Row = Row {
    name: "nobody asked",
    domain: SUPPLIES,
    most: 100,
    schedule: b"",
    object: HV1,
    waits: 0,
    killed_at: None,
    rests: true,
};

const ONE_WAITS: Row = Row {
    name: "one waits",
    schedule: b"request @1 HV1 SWITCH_ON\n",
    waits: 1,
    rests: false,
    ..NOBODY_ASKED
};

const FULL: Row = Row {
    name: "the mailbox is full",
    schedule: b"request @1 HV1 SWITCH_ON\nrequest @1 HV1 SWITCH_OFF\nrequest @1 HV1 SWITCH_ON\n",
    waits: 2,
    rests: false,
    ..NOBODY_ASKED
};

const PERFORMED: Row = Row {
    name: "a device performs, and one waits",
    schedule: b"request @1 HV1 SWITCH_ON\nrequest @1 HV1 SWITCH_OFF\nstart HV1\n",
    waits: 1,
    ..NOBODY_ASKED
};

const ANSWERED: Row = Row {
    name: "a device has answered, and one waits",
    schedule: b"request @1 HV1 SWITCH_ON\nrequest @1 HV1 SWITCH_OFF\nstart HV1\nanswer HV1 ON\n",
    waits: 1,
    rests: false,
    ..NOBODY_ASKED
};

const KILLED: Row = Row {
    name: "killed while one waits",
    schedule: b"request @1 HV1 SWITCH_ON\nkill HV1 @1\n",
    waits: 1,
    killed_at: Some(0),
    ..NOBODY_ASKED
};

const KILLED_OPEN: Row = Row {
    name: "killed while a device performs and one waits",
    schedule: b"request @1 HV1 SWITCH_ON\nrequest @1 HV1 SWITCH_OFF\nstart HV1\nfault HV1\n",
    waits: 1,
    killed_at: Some(1),
    ..NOBODY_ASKED
};

const AT_THE_LIMIT: Row = Row {
    name: "no start is left",
    most: 1,
    schedule: b"request @1 HV1 SWITCH_ON\nrequest @1 HV1 SWITCH_OFF\nstart HV1\nanswer HV1 ON\n",
    waits: 1,
    ..NOBODY_ASKED
};

const BEGUN: Row = Row {
    name: "an action has its next move",
    schedule: b"request @1 RUN CONFIGURE\nstart RUN\n",
    object: RUN,
    rests: false,
    ..NOBODY_ASKED
};

// The run posts to both supplies, waits for them, and is tried once more.
const WAITING: &[u8] = b"request @1 RUN CONFIGURE\nstart RUN\ngo RUN\ngo RUN\ngo RUN\n";

const HELD: Row = Row {
    name: "an action waits, and was looked at",
    schedule: WAITING,
    object: RUN,
    ..NOBODY_ASKED
};

const POSTED: Row = Row {
    name: "an action has posted",
    schedule: WAITING,
    object: HV2,
    waits: 1,
    rests: false,
    ..NOBODY_ASKED
};

// Of the two that it waits for the last one holds it first.
const FREED_BY_AN_ANSWER: Row = Row {
    name: "the answer of what holds it frees it for a look",
    schedule: b"request @1 RUN CONFIGURE\nstart RUN\ngo RUN\ngo RUN\ngo RUN\nstart HV2\nanswer HV2 ON\n",
    object: RUN,
    rests: false,
    ..NOBODY_ASKED
};

const HELD_AGAIN: Row = Row {
    name: "the other holds it then",
    schedule: b"request @1 RUN CONFIGURE\nstart RUN\ngo RUN\ngo RUN\ngo RUN\nstart HV2\nanswer HV2 ON\ngo RUN\n",
    object: RUN,
    ..NOBODY_ASKED
};

const FREED_BY_A_KILL: Row = Row {
    name: "a kill of what holds it frees it",
    schedule: b"request @1 RUN CONFIGURE\nstart RUN\ngo RUN\ngo RUN\ngo RUN\nstart HV2\nkill HV2 @2\n",
    object: RUN,
    rests: false,
    ..NOBODY_ASKED
};

const HELD_BY_A_LAMP: Row = Row {
    name: "a lamp holds its boss",
    domain: FITTED,
    schedule: b"request @1 L LIGHT\nstart L\nrequest @1 B GO\nstart B\ngo B\ngo B\n",
    object: BOSS,
    ..NOBODY_ASKED
};

const FREED_BY_A_CHANGE: Row = Row {
    name: "the lamp is taken out of the set",
    domain: FITTED,
    schedule: b"request @1 L LIGHT\nstart L\nrequest @1 B GO\nstart B\ngo B\ngo B\n\
        request @1 F OUT\nstart F\ngo F\n",
    object: BOSS,
    rests: false,
    ..NOBODY_ASKED
};

const ROWS: &[Row] = &[
    NOBODY_ASKED,
    ONE_WAITS,
    FULL,
    PERFORMED,
    ANSWERED,
    KILLED,
    KILLED_OPEN,
    AT_THE_LIMIT,
    BEGUN,
    HELD,
    POSTED,
    FREED_BY_AN_ANSWER,
    HELD_AGAIN,
    FREED_BY_A_KILL,
    HELD_BY_A_LAMP,
    FREED_BY_A_CHANGE,
];

// Whether a core tells of an object what a row says.
fn tells(core: &Core, o: ObjId, row: Row) -> bool
    requires { o < length core.now.setup.domain.objects }
{
    core.waits(o) == row.waits
        && core.killed_at(o) == row.killed_at
        && core.rests_at(o) == row.rests
}

// The same after the row's schedule. None if memory is refused.
fn tells_after(alloc: Global, core: &mut Core, row: Row) -> Option<bool> {
    let mut reader = row.schedule;
    let mut output = Vec::new(alloc);
    run_schedule(alloc, core, &mut reader, &mut output).ok()?;
    let o = ObjId::new(row.object);
    Some(core.domain().has(o) && tells(core, o, row))
}

fn is_so(alloc: Global, row: Row) -> Option<bool> {
    let domain = domain_of(alloc, row.domain).ok()?;
    let mut core = Core::new(alloc, domain, CAPACITY, row.most).ok()?;
    let told = tells_after(alloc, &mut core, row);
    drop(core);
    told
}

#[test]
fn what_waits_and_what_rests_is_read_off_a_core(rt: HostRuntime) {
    for row in ROWS {
        assert!(rt; is_so(rt.alloc(), *row) == Some(true), "{}", row.name);
    }
}
