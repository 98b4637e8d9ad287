//! Tasks of boards, from contact to contact.

use crate::boards::{Run, journal_of};
use crate::sends::{
    CAPACITY_ONE, FIRST_STATE_IS_DEAD, FOR_EACH_OTHER, HANDED_BACK, KILLED_RUN, KILLED_SUPPLY,
    READY, SETS, TO_ITSELF, TO_NOBODY, TO_TEN, TWO_WAITS, WORKED,
};
use crate::strangers::{SECOND_TASKS, refuses_killed, refuses_second_task};
use std::test::*;

const CONFIGURED: &[Run] = &[READY, CAPACITY_ONE, KILLED_SUPPLY, KILLED_RUN, HANDED_BACK];

const WORKING: &[Run] = &[WORKED];

const SETTING: &[Run] = &[SETS];

const WAITING: &[Run] = &[FOR_EACH_OTHER, TWO_WAITS, FIRST_STATE_IS_DEAD];

const SENDING: &[Run] = &[TO_ITSELF, TO_TEN, TO_NOBODY];

#[test]
fn a_run_is_configured_or_cut_by_its_kill(rt: HostRuntime) {
    for run in CONFIGURED {
        let (name, expected, given) = (run.name, run.journal, journal_of(rt.alloc(), *run));
        assert!(rt;
            given.as_str() == expected,
            "{name}: expected {expected}given {given}"
        );
    }
}

// What comes next, as a worker asks for it, until all is quiet.
#[test]
fn a_worker_is_offered_all_that_can_go_on(rt: HostRuntime) {
    for run in WORKING {
        let (name, expected, given) = (run.name, run.journal, journal_of(rt.alloc(), *run));
        assert!(rt;
            given.as_str() == expected,
            "{name}: expected {expected}given {given}"
        );
    }
}

#[test]
fn what_an_action_sets_is_kept_at_its_end_alone(rt: HostRuntime) {
    for run in SETTING {
        let (name, expected, given) = (run.name, run.journal, journal_of(rt.alloc(), *run));
        assert!(rt;
            given.as_str() == expected,
            "{name}: expected {expected}given {given}"
        );
    }
}

#[test]
fn tasks_wait_for_objects_that_are_open(rt: HostRuntime) {
    for run in WAITING {
        let (name, expected, given) = (run.name, run.journal, journal_of(rt.alloc(), *run));
        assert!(rt;
            given.as_str() == expected,
            "{name}: expected {expected}given {given}"
        );
    }
}

#[test]
fn all_that_a_task_sends_is_in_the_journal(rt: HostRuntime) {
    for run in SENDING {
        let (name, expected, given) = (run.name, run.journal, journal_of(rt.alloc(), *run));
        assert!(rt;
            given.as_str() == expected,
            "{name}: expected {expected}given {given}"
        );
    }
}

#[test]
fn a_task_of_a_killed_object_is_refused(rt: HostRuntime) {
    assert!(rt; refuses_killed(rt.alloc()));
}

#[test]
fn a_second_task_of_a_request_is_refused(rt: HostRuntime) {
    for row in SECOND_TASKS {
        assert!(rt; refuses_second_task(rt.alloc(), *row), "{}", row.name);
    }
}
