//! Schedules and lists of steps in a core, and what it is left with.

use crate::cores::{core_of, written};
use crate::schedule_texts::{PARAMETERS, SENT_TO_NOBODY, TWO_SETS};
use crate::transcript::whole_of;
use smi_core::{Answer, Core, CoreError, Step, StepError, read_step, run};
use sml_domain::Value;
use sml_load::domain_of;
use sml_tree::Name;
use std::alloc::Global;
use test_domains::{COUNTER, SUPPLIES};

// Whether the parameters of an object are a number and a text.
fn has_parameters(core: &Core, object: &Name, number: i64, text: &[u8]) -> bool {
    let Some(o) = core.domain().object(object) else {
        return false;
    };
    match core.params(o) {
        [Value::Int(n), Value::Text(t)] => *n == number && t.as_bytes() == text,
        _ => false,
    }
}

// Whether what an action set is forgotten if a kill cuts it.
fn forgets_what_was_cut(alloc: Global) -> Option<bool> {
    let mut core = core_of(alloc, COUNTER)?;
    let forgets = forgets_by(alloc, &mut core);
    drop(core);
    forgets
}

// The same, in a core.
fn forgets_by(alloc: Global, core: &mut Core) -> Option<bool> {
    let told = whole_of(alloc, PARAMETERS).ok()?;
    let output = written(alloc, core, told.schedule.as_str());
    let forgets = output.is_some() && has_parameters(core, &Name::from_word(b"C"), 5, b"a");
    drop(output);
    Some(forgets)
}

#[test]
fn a_kill_forgets_what_its_action_set(rt: HostRuntime) {
    assert!(rt; forgets_what_was_cut(rt.alloc()) == Some(true));
}

// The steps of a run that is killed twice while its supplies are asked to switch on.
const KILLED: &[&[u8]] = &[
    b"request @1 RUN CONFIGURE",
    b"start RUN",
    b"go RUN",
    b"kill RUN @1",
    b"kill RUN @2",
];

// The steps of lines, if each is one.
fn steps_of(alloc: Global, lines: &[&[u8]]) -> Option<Vec<Step>> {
    let mut steps = Vec::new(alloc);
    for line in lines {
        let step = read_step(alloc, line).ok()??;
        steps.push(step).ok()?;
    }
    Some(steps)
}

// Whether these are the answers to the run that is killed twice.
fn are_of_killed(answers: &[Result<Answer, StepError>]) -> bool {
    match answers {
        [
            Ok(Answer::Accepted { number: 0, .. }),
            ..,
            Err(StepError::AlreadyDead(3)),
        ] => answers.len() == KILLED.len(),
        _ => false,
    }
}

// Whether a list of steps is answered in order.
fn answers_in_order(alloc: Global) -> Option<bool> {
    let steps = steps_of(alloc, KILLED)?;
    let answers = are_answered(alloc, steps.as_slice());
    drop(steps);
    answers
}

fn are_answered(alloc: Global, steps: &[Step]) -> Option<bool> {
    let domain = domain_of(alloc, SUPPLIES).ok()?;
    let made = run(alloc, domain, 16, 1_000_000, steps);
    let answers = match &made {
        Ok((core, answers)) => core.journal().len() == 4 && are_of_killed(answers.as_slice()),
        Err(_) => false,
    };
    drop(made);
    Some(answers)
}

#[test]
fn a_list_of_steps_is_answered_in_order(rt: HostRuntime) {
    assert!(rt; answers_in_order(rt.alloc()) == Some(true));
}

// Whether a set of the core's domain has this object alone, or none.
fn has_members(core: &Core, set: &Name, object: Option<&Name>) -> bool {
    let Some(set) = core.domain().set(set) else {
        return false;
    };
    match (core.members(set), object) {
        ([], None) => true,
        ([member], Some(object)) => core.domain().object(object) == Some(*member),
        _ => false,
    }
}

// Whether what is sent to a set without members is written so, and members are told.
fn sends_to_nobody(alloc: Global) -> Option<bool> {
    let mut core = core_of(alloc, TWO_SETS)?;
    let sends = sends_by(alloc, &mut core);
    drop(core);
    sends
}

// The same, in a core.
fn sends_by(alloc: Global, core: &mut Core) -> Option<bool> {
    let told = whole_of(alloc, SENT_TO_NOBODY).ok()?;
    let output = written(alloc, core, told.schedule.as_str());
    let is_told = match &output {
        Some(output) => output.as_slice() == told.output.as_bytes(),
        None => false,
    };
    drop(output);
    let lamp = Name::from_word(b"L");
    let are_members = has_members(core, &Name::from_word(b"E"), None)
        && has_members(core, &Name::from_word(b"G"), Some(&lamp));
    Some(is_told && are_members)
}

#[test]
fn a_send_to_nobody_is_written_and_members_are_told(rt: HostRuntime) {
    assert!(rt; sends_to_nobody(rt.alloc()) == Some(true));
}

// A name, a capacity, how many starts there may be, and whether there is a core with these numbers.
const NUMBERS: &[(&str, usize, usize, bool)] = &[
    ("no room in a mailbox", 0, 1, false),
    ("more room than the limit", 1025, 1, false),
    ("no start", 1, 0, false),
    ("more starts than the limit", 1, 1_000_001, false),
    ("the least of both", 1, 1, true),
    ("the most of both", 1024, 1_000_000, true),
];

// Whether there is a core with these numbers, or else they are reported to be out of range.
fn has_core(alloc: Global, capacity: usize, max_starts: usize) -> Option<bool> {
    let domain = domain_of(alloc, SUPPLIES).ok()?;
    let made = Core::new(alloc, domain, capacity, max_starts);
    let answer = match &made {
        Ok(_) => Some(true),
        Err(CoreError::BadConfig) => Some(false),
        Err(CoreError::Memory) => None,
    };
    drop(made);
    answer
}

#[test]
fn a_core_is_made_within_its_limits_alone(rt: HostRuntime) {
    for (name, capacity, max_starts, expected) in NUMBERS {
        let given = has_core(rt.alloc(), *capacity, *max_starts);
        assert!(rt; given == Some(*expected), "{name}");
    }
}
