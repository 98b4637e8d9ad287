//! Who does what is ready, while devices are slow, stuck or wait for one another.

use crate::stages::{RIGHT, Staged, Step, told_of};
use crate::texts::{DEAD, EIGHT, ERROR, FIRST, OFF, ON, SECOND};
use crate::valves::{BRIEF, HELD, MEET, SLOW};
use crate::watch::{begin_watch, end_watch};
use std::test::*;
use test_domains::SUPPLIES;

// How often a run goes in one test.
const RUNS: u32 = 20;

// `RUN` waits for the first supply, whose device is held; the second is dead. Only the kill of the first lets `RUN` go
// on, while the device is still held and the session stays.
const KILL_ALONE: Staged<'static> = Staged {
    name: "a kill lets a task go on",
    text: SUPPLIES,
    supplies: 2,
    meeting: 2,
    workers: 2,
    steps: &[
        Step::Kill(SECOND),
        Step::Set(HELD),
        Step::Configure,
        Step::Until(2),
        Step::Nap,
        Step::Kill(FIRST),
        Step::Until(0),
    ],
    states: &[DEAD, DEAD, ERROR],
    last: None,
};

#[test]
fn kill_lets_a_task_go_on(rt: HostRuntime) {
    let watched = begin_watch(rt, rt.alloc());
    for _ in 0..RUNS {
        assert_eq!(rt; told_of(rt, rt.alloc(), &KILL_ALONE), RIGHT);
    }
    end_watch(&rt, watched);
}

// The first supply, whose calls were brief, is stuck. All requests of the second are done meanwhile, so that the end of
// the first is the last entry of the journal.
const STUCK: Staged<'static> = Staged {
    name: "a device that is stuck",
    text: SUPPLIES,
    supplies: 2,
    meeting: 2,
    workers: 2,
    steps: &[
        Step::AskEach(40),
        Step::Until(0),
        Step::Set(HELD),
        Step::Ask(FIRST, 1),
        Step::Ask(SECOND, 41),
        Step::Until(1),
    ],
    states: &[ON, ON],
    last: Some(FIRST),
};

#[test]
fn stuck_device_holds_up_nothing(rt: HostRuntime) {
    let watched = begin_watch(rt, rt.alloc());
    for _ in 0..RUNS {
        for workers in 2..9usize {
            let run = Staged { workers, ..STUCK };
            assert_eq!(rt; told_of(rt, rt.alloc(), &run), RIGHT, "{workers} workers");
        }
    }
    end_watch(&rt, watched);
}

// After brief calls each of some supplies waits until all of them were entered.
const MEETING: Staged<'static> = Staged {
    name: "devices that wait for one another",
    text: EIGHT,
    supplies: 8,
    meeting: 8,
    workers: 8,
    steps: &[
        Step::AskEach(20),
        Step::Until(0),
        Step::Set(MEET),
        Step::AskEach(1),
        Step::Until(0),
    ],
    states: &[],
    last: None,
};

#[test]
fn devices_that_wait_for_one_another_all_answer(rt: HostRuntime) {
    let watched = begin_watch(rt, rt.alloc());
    let switched_on = [ON; 8];
    for _ in 0..RUNS {
        for count in 2..9usize {
            let run = Staged {
                meeting: count,
                workers: count,
                states: &switched_on[..count],
                ..MEETING
            };
            assert_eq!(rt; told_of(rt, rt.alloc(), &run), RIGHT, "{count} devices");
        }
    }
    end_watch(&rt, watched);
}

// The calls of the first supply are brief, then slow, then brief again.
const TURNS_SLOW: Staged<'static> = Staged {
    name: "calls that turn slow, and brief again",
    text: SUPPLIES,
    supplies: 2,
    meeting: 2,
    workers: 4,
    steps: &[
        Step::AskEach(20),
        Step::Until(0),
        Step::Set(SLOW),
        Step::AskEach(20),
        Step::Until(0),
        Step::Set(BRIEF),
        Step::AskEach(20),
    ],
    states: &[OFF, OFF],
    last: None,
};

// The session leaves once all workers wait.
const LEAVES_LATE: Staged<'static> = Staged {
    name: "a session that leaves late",
    text: SUPPLIES,
    supplies: 2,
    meeting: 2,
    workers: 8,
    steps: &[Step::AskEach(2), Step::Until(0), Step::Nap],
    states: &[OFF, OFF],
    last: None,
};

#[test]
fn slow_devices_and_late_sessions_end(rt: HostRuntime) {
    let watched = begin_watch(rt, rt.alloc());
    for _ in 0..RUNS {
        for run in &[TURNS_SLOW, LEAVES_LATE] {
            assert_eq!(rt; told_of(rt, rt.alloc(), run), RIGHT, "{}", run.name);
        }
    }
    end_watch(&rt, watched);
}
