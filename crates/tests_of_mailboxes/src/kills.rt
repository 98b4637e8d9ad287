//! The run that is configured, with a kill at each of its places, and with a fault in the place of an answer.

use crate::broken_schedules::core_of;
use crate::steps::CONFIGURE_READY;
use smi_audit::{Judgement, audit};
use smi_core::{Core, run_schedule};
use smi_journal::write_journal;
use sml_domain::Domain;
use sml_load::domain_of;
use std::alloc::{AllocError, Global};
use std::sync::Arc;
use std::test::*;
use test_domains::SUPPLIES;

// A line that kills an object, the words in front of its kill and of its starts in a journal, and its name.
type Kill = (&'static [u8], &'static [u8], &'static [u8], &'static str);

const KILLS: [Kill; 3] = [
    (
        b"kill HV1 @2\n",
        b"kill HV1 ",
        b"start HV1 ",
        "a kill of the first supply",
    ),
    (
        b"kill HV2 @2\n",
        b"kill HV2 ",
        b"start HV2 ",
        "a kill of the second supply",
    ),
    (
        b"kill RUN @2\n",
        b"kill RUN ",
        b"start RUN ",
        "a kill of the run",
    ),
];

// The place of an answer among the steps, the fault that is there, and its name.
type Fault = (usize, &'static [u8], &'static str);

// The first has no place: all answers are given.
const FAULTS: [Fault; 3] = [
    (usize::MAX, b"", "no fault"),
    (6, b"fault HV1\n", "a fault of the first supply"),
    (9, b"fault HV2\n", "a fault of the second supply"),
];

// What a schedule is with a kill in front of the step at a place and a fault in the place of another.
fn schedule(alloc: Global, kill: &[u8], place: usize, fault: Fault) -> Result<Vec<u8>, AllocError> {
    let mut text = Vec::new(alloc);
    for (i, (line, _)) in CONFIGURE_READY.steps.iter().enumerate() {
        if i == place {
            text.extend_from_slice(kill)?;
        }
        text.extend_from_slice(if i == fault.0 { fault.1 } else { line })?;
    }
    if place == CONFIGURE_READY.steps.len() {
        text.extend_from_slice(kill)?;
    }
    Ok(text)
}

// The text of the journal of a core that has run a schedule.
fn journal_after(alloc: Global, core: &mut Core, schedule: &[u8]) -> Option<Vec<u8>> {
    let mut reader = schedule;
    let mut output = Vec::new(alloc);
    run_schedule(alloc, core, &mut reader, &mut output).ok()?;
    let mut text = Vec::new(alloc);
    write_journal(core.domain(), core.journal(), &mut text).ok()?;
    Some(text)
}

fn journal_of(alloc: Global, domain: &Arc<Domain>, schedule: &[u8]) -> Option<Vec<u8>> {
    let mut core = core_of(alloc, domain)?;
    let text = journal_after(alloc, &mut core, schedule);
    drop(core);
    text
}

fn is_legal(alloc: Global, domain: &Arc<Domain>, journal: &[u8]) -> bool {
    match Arc::try_clone(domain) {
        Ok(domain) => audit(alloc, domain, journal) == Ok(Judgement::Legal),
        Err(_) => false,
    }
}

// How often a journal kills an object, where it starts nothing there behind that.
fn kills_of(journal: &[u8], kill: Kill) -> Option<usize> {
    let mut kills = 0usize;
    for line in journal.split(|byte| *byte == b'\n') {
        if line.starts_with(kill.1) {
            kills = kills.wrapping_add(1);
        }
        if line.starts_with(kill.2) && kills > 0 {
            return None;
        }
    }
    Some(kills)
}

// Whether a journal kills no object twice and starts nothing at one that is killed.
fn is_over_where_killed(journal: &[u8]) -> bool {
    KILLS
        .iter()
        .all(|kill| matches!(kills_of(journal, *kill), Some(0 | 1)))
}

// Whether a run with a kill and a fault is legal, and nothing is started where something was killed.
fn goes(
    alloc: Global,
    domain: &Arc<Domain>,
    kill: Kill,
    place: usize,
    fault: Fault,
) -> Option<bool> {
    let schedule = schedule(alloc, kill.0, place, fault).ok()?;
    let journal = journal_of(alloc, domain, &schedule)?;
    let is_killed = kills_of(&journal, kill) == Some(1);
    Some(is_killed && is_over_where_killed(&journal) && is_legal(alloc, domain, &journal))
}

// Whether all runs with a kill of an object go so.
fn goes_everywhere(alloc: Global, kill: Kill, fault: Fault) -> Option<bool> {
    let domain = domain_of(alloc, SUPPLIES).ok()?;
    for place in 0..CONFIGURE_READY.steps.len() + 1 {
        if goes(alloc, &domain, kill, place, fault) != Some(true) {
            return Some(false);
        }
    }
    Some(true)
}

#[test]
fn nothing_starts_behind_a_kill(rt: HostRuntime) {
    for fault in FAULTS {
        for kill in KILLS {
            assert!(rt;
                goes_everywhere(rt.alloc(), kill, fault) == Some(true),
                "{}, {}",
                kill.3,
                fault.2
            );
        }
    }
}

// A fault, and the journal behind the start of its device. The run waits for the other device, and ends in ERROR.
const AFTER_FAULTS: [(Fault, &[u8]); 2] = [
    (
        (6, b"fault HV1\n", "a fault of the first supply"),
        b"smi-journal 2
start RUN @1 0 CONFIGURE
post RUN HV1 0 SWITCH_ON
post RUN HV2 0 SWITCH_ON
wait RUN
start HV1 RUN 0 SWITCH_ON
kill HV1 fault
start HV2 RUN 0 SWITCH_ON
end HV2 ON
seen RUN HV1=DEAD HV2=ON
end RUN ERROR
",
    ),
    (
        (9, b"fault HV2\n", "a fault of the second supply"),
        b"smi-journal 2
start RUN @1 0 CONFIGURE
post RUN HV1 0 SWITCH_ON
post RUN HV2 0 SWITCH_ON
wait RUN
start HV1 RUN 0 SWITCH_ON
end HV1 ON
start HV2 RUN 0 SWITCH_ON
kill HV2 fault
seen RUN HV1=ON HV2=DEAD
end RUN ERROR
",
    ),
];

// Whether a run with a fault and no kill has this journal, and it is legal.
fn has_journal(alloc: Global, fault: Fault, journal: &[u8]) -> Option<bool> {
    let domain = domain_of(alloc, SUPPLIES).ok()?;
    let schedule = schedule(alloc, b"", usize::MAX, fault).ok()?;
    let made = journal_of(alloc, &domain, &schedule)?;
    Some(made.as_slice() == journal && is_legal(alloc, &domain, journal))
}

#[test]
fn a_fault_kills_its_device_alone(rt: HostRuntime) {
    for (fault, journal) in &AFTER_FAULTS {
        assert!(rt;
            has_journal(rt.alloc(), *fault, journal) == Some(true),
            "{}",
            fault.2
        );
    }
}
