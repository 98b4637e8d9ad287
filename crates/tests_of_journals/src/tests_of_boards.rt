//! Boards of known domains, call by call.

use crate::boards::{Run, journal_of};
use crate::counters::{FULL_OF_ARGUMENTS, GIVEN_ARGUMENTS};
use crate::looks::{FREED, FREED_BY_A_CHANGE, LOOKED};
use crate::supplies::{
    DEAD_BY_ANSWER, FAULTY, IN_ORDER, KILLED, KILLED_FIRST, NO_DEVICE, NO_START, ONE_START,
    ONE_WAITS, TWO_STARTS,
};
use crate::switches::{OTHER_STATES, SKIPPED};
use std::test::*;

const ANSWERED: &[Run] = &[IN_ORDER, NO_DEVICE, DEAD_BY_ANSWER];

const OF_A_SWITCH: &[Run] = &[OTHER_STATES, SKIPPED];

const DEAD: &[Run] = &[KILLED, KILLED_FIRST, FAULTY];

const LIMITED: &[Run] = &[ONE_WAITS, ONE_START, TWO_STARTS, NO_START];

const LOOKS: &[Run] = &[LOOKED, FREED, FREED_BY_A_CHANGE];

const WITH_ARGUMENTS: &[Run] = &[GIVEN_ARGUMENTS, FULL_OF_ARGUMENTS];

#[test]
fn what_a_state_does_not_declare_is_skipped(rt: HostRuntime) {
    for run in OF_A_SWITCH {
        let (name, expected, given) = (run.name, run.journal, journal_of(rt.alloc(), *run));
        assert!(rt;
            given.as_str() == expected,
            "{name}: expected {expected}given {given}"
        );
    }
}

#[test]
fn requests_are_done_in_order_or_skipped(rt: HostRuntime) {
    for run in ANSWERED {
        let (name, expected, given) = (run.name, run.journal, journal_of(rt.alloc(), *run));
        assert!(rt;
            given.as_str() == expected,
            "{name}: expected {expected}given {given}"
        );
    }
}

#[test]
fn what_is_killed_does_nothing_more(rt: HostRuntime) {
    for run in DEAD {
        let (name, expected, given) = (run.name, run.journal, journal_of(rt.alloc(), *run));
        assert!(rt;
            given.as_str() == expected,
            "{name}: expected {expected}given {given}"
        );
    }
}

#[test]
fn mailboxes_and_starts_have_limits(rt: HostRuntime) {
    for run in LIMITED {
        let (name, expected, given) = (run.name, run.journal, journal_of(rt.alloc(), *run));
        assert!(rt;
            given.as_str() == expected,
            "{name}: expected {expected}given {given}"
        );
    }
}

#[test]
fn requests_keep_their_arguments(rt: HostRuntime) {
    for run in WITH_ARGUMENTS {
        let (name, expected, given) = (run.name, run.journal, journal_of(rt.alloc(), *run));
        assert!(rt;
            given.as_str() == expected,
            "{name}: expected {expected}given {given}"
        );
    }
}

#[test]
fn what_waits_and_what_may_act_is_told(rt: HostRuntime) {
    for run in LOOKS {
        let (name, expected, given) = (run.name, run.journal, journal_of(rt.alloc(), *run));
        assert!(rt;
            given.as_str() == expected,
            "{name}: expected {expected}given {given}"
        );
    }
}
