//! Runs of two supplies and what switches them on.

use crate::late::drops_late_answers;
use crate::one_by_one::{Asked, Case, Ended, NONE, answers, misses_any};
use crate::openings::refuses;
use crate::reports::Wanted;
use crate::runs::{Act, Run, goes};
use crate::texts::{
    CONFIGURE, DEAD, EMPTY, FIRST, NOT_READY, OFF, ON, READY, RUN, SECOND, SWITCH_ON,
};
use crate::two_names::finishes_two;
use crate::watch::{begin_watch, end_watch};
use smi_run::{Config, KillError, OpenError, PostError, Progress, ServeEnd};
use std::test::*;
use test_domains::SUPPLIES;

const MOST: usize = 1_000_000;

// How often one test makes a short run, on the schedules of threads that it happens to meet.
const RUNS: u32 = 100;

const CONFIGURES: &[Act] = &[Act::Post(RUN, CONFIGURE)];

const SWITCHES: &[Act] = &[Act::Post(FIRST, SWITCH_ON)];

// Both supplies are switched on.
const CONFIGURED: Run = Run {
    name: "both supplies are switched on by two workers",
    text: SUPPLIES,
    devices: 2,
    capacity: 16,
    config: Config {
        workers: 2,
        max_starts: MOST,
    },
    entered: 1,
    sessions: &[CONFIGURES],
    times: 1,
    wanted: Some(Wanted {
        end: ServeEnd::Quiet,
        refused: &[0],
        states: &[ON, ON, READY],
        stalled: &[],
        accepted: &[(1, RUN, 1), (12, FIRST, 1), (12, SECOND, 1)],
        left: &[],
        performed: &[1, 1],
    }),
};

#[test]
fn both_supplies_are_switched_on(rt: HostRuntime) {
    let watched = begin_watch(rt, rt.alloc());
    let alone = Run {
        name: "both supplies are switched on by one worker",
        config: Config {
            workers: 1,
            max_starts: MOST,
        },
        ..CONFIGURED
    };
    for _ in 0..RUNS {
        for run in &[CONFIGURED, alone] {
            assert!(rt; goes(rt, rt.alloc(), run), "{}", run.name);
        }
    }
    end_watch(&rt, watched);
}

// Two sessions switch one supply on, a hundred times each.
const BUSY: Run = Run {
    name: "two sessions switch one supply on",
    text: SUPPLIES,
    devices: 2,
    capacity: 256,
    config: Config {
        workers: 4,
        max_starts: MOST,
    },
    entered: 1,
    sessions: &[SWITCHES, SWITCHES],
    times: 100,
    wanted: Some(Wanted {
        end: ServeEnd::Quiet,
        refused: &[0, 0],
        states: &[ON, OFF, NOT_READY],
        stalled: &[],
        accepted: &[(1, FIRST, 100), (2, FIRST, 100)],
        left: &[],
        performed: &[1, 0],
    }),
};

#[test]
fn all_requests_of_two_sessions_are_accepted(rt: HostRuntime) {
    let watched = begin_watch(rt, rt.alloc());
    for _ in 0..RUNS {
        assert!(rt; goes(rt, rt.alloc(), &BUSY));
    }
    end_watch(&rt, watched);
}

// Each supply returns only after the other was entered.
const GATED: Run = Run {
    name: "each supply returns after the other was entered",
    text: SUPPLIES,
    devices: 2,
    capacity: 16,
    config: Config {
        workers: 2,
        max_starts: MOST,
    },
    entered: 0,
    sessions: &[&[Act::Post(FIRST, SWITCH_ON), Act::Post(SECOND, SWITCH_ON)]],
    times: 1,
    wanted: Some(Wanted {
        end: ServeEnd::Quiet,
        refused: &[0],
        states: &[ON, ON, NOT_READY],
        stalled: &[],
        accepted: &[(1, FIRST, 1), (1, SECOND, 1)],
        left: &[],
        performed: &[1, 1],
    }),
};

#[test]
fn two_devices_are_at_work_at_once(rt: HostRuntime) {
    let watched = begin_watch(rt, rt.alloc());
    for _ in 0..RUNS {
        assert!(rt; goes(rt, rt.alloc(), &GATED));
    }
    end_watch(&rt, watched);
}

// Only one request is started: what it sends is left, and it waits for it.
const LIMITED: Run = Run {
    name: "one request is started at most",
    config: Config {
        workers: 2,
        max_starts: 1,
    },
    wanted: Some(Wanted {
        end: ServeEnd::Limit,
        refused: &[0],
        states: &[OFF, OFF, NOT_READY],
        stalled: &[RUN],
        accepted: &[(1, RUN, 1), (12, FIRST, 1), (12, SECOND, 1)],
        left: &[(12, FIRST, 1), (12, SECOND, 1)],
        performed: &[0, 0],
    }),
    ..CONFIGURED
};

// Nothing is there, and what is asked for is refused.
const NOTHING: Run = Run {
    name: "a domain of nothing",
    text: EMPTY,
    devices: 0,
    capacity: 1,
    config: Config {
        workers: 2,
        max_starts: MOST,
    },
    entered: 1,
    sessions: &[&[], &[Act::Stray]],
    times: 3,
    wanted: Some(Wanted {
        end: ServeEnd::Quiet,
        refused: &[0, 3],
        states: &[],
        stalled: &[],
        accepted: &[],
        left: &[],
        performed: &[],
    }),
};

// The sessions do nothing.
const IDLE: Run = Run {
    name: "sessions that do nothing",
    sessions: &[&[], &[]],
    wanted: Some(Wanted {
        end: ServeEnd::Quiet,
        refused: &[0, 0],
        states: &[OFF, OFF, NOT_READY],
        stalled: &[],
        accepted: &[],
        left: &[],
        performed: &[0, 0],
    }),
    ..CONFIGURED
};

// One session kills a supply, and then asks it and is refused; so what switches both on sees it dead.
const KILLED: Run = Run {
    name: "a supply that is killed and then asked",
    sessions: &[&[
        Act::Kill(FIRST),
        Act::Kill(FIRST),
        Act::Post(FIRST, SWITCH_ON),
    ]],
    wanted: Some(Wanted {
        end: ServeEnd::Quiet,
        refused: &[2],
        states: &[DEAD, OFF, NOT_READY],
        stalled: &[],
        accepted: &[],
        left: &[],
        performed: &[0, 0],
    }),
    ..CONFIGURED
};

#[test]
fn runs_that_do_little_end(rt: HostRuntime) {
    let watched = begin_watch(rt, rt.alloc());
    for _ in 0..RUNS {
        for run in &[LIMITED, NOTHING, IDLE, KILLED] {
            assert!(rt; goes(rt, rt.alloc(), run), "{}", run.name);
        }
    }
    end_watch(&rt, watched);
}

// Eight sessions at mailboxes for one request, of which many are refused.
const CROWDED: Run = Run {
    name: "eight sessions at mailboxes for one request",
    capacity: 1,
    config: Config {
        workers: 8,
        max_starts: MOST,
    },
    sessions: &[
        SWITCHES, SWITCHES, SWITCHES, SWITCHES, SWITCHES, SWITCHES, SWITCHES, SWITCHES,
    ],
    times: 50,
    wanted: None,
    ..CONFIGURED
};

#[test]
fn runs_over_full_mailboxes_end(rt: HostRuntime) {
    let watched = begin_watch(rt, rt.alloc());
    for _ in 0..RUNS {
        assert!(rt; goes(rt, rt.alloc(), &CROWDED));
    }
    end_watch(&rt, watched);
}

const fn far(starts: u64, waiting: u64, open: u64) -> Progress {
    Progress {
        starts,
        waiting,
        open,
    }
}

#[test]
fn what_is_killed_or_unknown_is_refused(rt: HostRuntime) {
    let asked = [
        Asked::Kill(NONE, Err(KillError::UnknownObject)),
        Asked::Kill(RUN, Ok(0)),
        Asked::Post(RUN, CONFIGURE, 0, Err(PostError::Dead(0))),
        Asked::Kill(RUN, Err(KillError::AlreadyDead(0))),
        Asked::Post(NONE, NONE, 1, Err(PostError::UnknownObject)),
        Asked::Post(FIRST, CONFIGURE, 1, Err(PostError::UnknownAction)),
        Asked::Post(FIRST, NONE, 1, Err(PostError::UnknownAction)),
        Asked::Post(RUN, CONFIGURE, 1, Err(PostError::BadArgs)),
        Asked::Post(FIRST, SWITCH_ON, 0, Ok(0)),
        Asked::Post(FIRST, SWITCH_ON, 0, Err(PostError::Full)),
        Asked::See(far(0, 1, 0)),
    ];
    let case = Case {
        max_starts: 10,
        asked: &asked,
        ended: Ended {
            end: ServeEnd::Quiet,
            receipts: 3,
            entries: 3,
            progress: far(1, 0, 0),
        },
    };
    assert!(rt; answers(rt, rt.alloc(), case));
}

// `RUN` sends to the first supply, whose mailbox is full, and to the second. It ends after both supplies.
#[test]
fn progress_tells_what_waits_and_is_open(rt: HostRuntime) {
    let asked = [
        Asked::See(far(0, 0, 0)),
        Asked::Post(RUN, CONFIGURE, 0, Ok(0)),
        Asked::See(far(0, 1, 0)),
        Asked::Post(FIRST, SWITCH_ON, 0, Ok(0)),
        Asked::Post(FIRST, SWITCH_ON, 0, Err(PostError::Full)),
        Asked::See(far(0, 2, 0)),
    ];
    let case = Case {
        max_starts: 10,
        asked: &asked,
        ended: Ended {
            end: ServeEnd::Quiet,
            receipts: 0,
            entries: 10,
            progress: far(3, 0, 0),
        },
    };
    assert!(rt; answers(rt, rt.alloc(), case));
}

// Only `RUN` is started: it waits for what it sent.
#[test]
fn progress_at_the_limit_tells_what_is_left(rt: HostRuntime) {
    let asked = [Asked::Post(RUN, CONFIGURE, 0, Ok(0))];
    let case = Case {
        max_starts: 1,
        asked: &asked,
        ended: Ended {
            end: ServeEnd::Limit,
            receipts: 0,
            entries: 4,
            progress: far(1, 2, 1),
        },
    };
    assert!(rt; answers(rt, rt.alloc(), case));
}

#[test]
fn no_run_is_finished_without_its_sessions(rt: HostRuntime) {
    assert!(rt; misses_any(rt, rt.alloc()));
}

#[test]
fn two_runs_are_finished_under_two_names(rt: HostRuntime) {
    assert!(rt; finishes_two(rt, rt.alloc()));
}

const fn numbers(workers: usize, max_starts: usize) -> Config {
    Config {
        workers,
        max_starts,
    }
}

#[test]
fn wrong_numbers_open_no_run(rt: HostRuntime) {
    let openings = [
        (1, numbers(1, 1), OpenError::DeviceCount, "a device too few"),
        (0, numbers(8, MOST), OpenError::DeviceCount, "no device"),
        (2, numbers(0, 1), OpenError::BadConfig, "no worker"),
        (2, numbers(9, 1), OpenError::BadConfig, "nine workers"),
        (2, numbers(1, 0), OpenError::BadConfig, "no starts"),
        (
            1,
            numbers(1, MOST + 1),
            OpenError::BadConfig,
            "too many starts, and a device too few",
        ),
    ];
    for opening in &openings {
        assert!(rt; refuses(rt, rt.alloc(), opening), "{}", opening.3);
    }
}

#[test]
fn late_answers_are_dropped(rt: HostRuntime) {
    let watched = begin_watch(rt, rt.alloc());
    for _ in 0..RUNS {
        assert!(rt; drops_late_answers(rt, rt.alloc()));
    }
    end_watch(&rt, watched);
}
