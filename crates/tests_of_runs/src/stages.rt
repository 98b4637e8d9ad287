//! Runs in which a test says step by step what the session and the supplies do.
ghost use Rattle.std.specs.Prelude.{◌≡◌};
ghost use Rattle.std.specs.Arc.{arc_value};

use crate::reports::is_judged;
use crate::texts::{CONFIGURE, RUN, SWITCH_OFF, SWITCH_ON};
use crate::valves::{BRIEF, NAP, NAPS, Stage, Valve, nap, valves};
use smi_journal::Entry;
use smi_mail::{MailNames, Mailboxes, ruled};
use smi_run::{Closed, Config, Progress, Report, Runtime, Session, Tally};
use sml_domain::{ActionId, Domain, ObjId};
use sml_load::domain_of;
use std::alloc::Global;
use std::marker::Brand;
use std::sync::{Arc, Wait};
use std::thread;
use std::thread::Threads;

// How many requests may wait at each object, and how many may be started.
const CAPACITY: usize = 256;

const MOST: usize = 1_000_000;

// For how long nothing happens where a step says so, in microseconds.
const LONG_NAP: u64 = 20_000;

/// What is told about a run that went as it must.
pub const RIGHT: &str = "all went as it must";

/// What the session or the supplies do.
#[derive(Clone, Copy)]
pub enum Step {
    /// A supply is asked this number of times, in turn to switch on and to switch off.
    Ask(usize, usize),
    /// So is each of those that are to meet.
    AskEach(usize),
    /// `RUN` is asked to configure.
    Configure,
    /// An object is killed.
    Kill(usize),
    /// Supplies do this from now on.
    Set(u64),
    /// Waits until no request waits, and this number of objects have an open action.
    Until(u64),
    /// Nothing happens for a while.
    Nap,
}

/// A run: its name and its domain; how many supplies it has, and how many of these are to meet; how many workers serve;
/// what is done; in which states the first objects are in the end; and the object whose end the journal's last entry
/// must be.
#[derive(Clone, Copy)]
pub struct Staged<'a> {
    pub name: &'static str,
    pub text: &'static [u8],
    pub supplies: usize,
    pub meeting: usize,
    pub workers: usize,
    pub steps: &'a [Step],
    pub states: &'a [usize],
    pub last: Option<usize>,
}

// An object is asked for an action: whether that is accepted.
fn asks<K: MailNames, R: Wait + Copy + Send>(
    rt: &R,
    alloc: Global,
    runtime: &Runtime<R, K, Valve>,
    session: &mut Session<K>,
    asked: (usize, usize),
) -> bool {
    let domain = runtime.domain();
    let object = domain.object_name(ObjId::new(asked.0));
    let action = domain.action_name(ActionId::new(asked.1));
    match (object, action) {
        (Some(object), Some(action)) => session
            .post(rt, alloc, runtime, &object, &action, &[])
            .is_ok(),
        _ => false,
    }
}

// Asks a supply `times` times, in turn to switch on and to switch off.
fn switches<K: MailNames, R: Wait + Copy + Send>(
    rt: &R,
    alloc: Global,
    runtime: &Runtime<R, K, Valve>,
    session: &mut Session<K>,
    supply: usize,
    times: usize,
) -> bool {
    for time in 0..times {
        let action = if time % 2 == 0 { SWITCH_ON } else { SWITCH_OFF };
        if !asks(rt, alloc, runtime, session, (supply, action)) {
            return false;
        }
    }
    true
}

// So is each of the first supplies.
fn switches_all<K: MailNames, R: Wait + Copy + Send>(
    rt: &R,
    alloc: Global,
    runtime: &Runtime<R, K, Valve>,
    session: &mut Session<K>,
    supplies: usize,
    times: usize,
) -> bool {
    for supply in 0..supplies {
        if !switches(rt, alloc, runtime, session, supply, times) {
            return false;
        }
    }
    true
}

fn kills<K: MailNames, R: Wait + Copy + Send>(
    rt: &R,
    runtime: &Runtime<R, K, Valve>,
    session: &mut Session<K>,
    object: usize,
) -> bool {
    match runtime.domain().object_name(ObjId::new(object)) {
        Some(object) => session.kill(rt, runtime, &object).is_ok(),
        None => false,
    }
}

// Waits until no request waits and `wanted` objects have an open action. Whether that comes in time.
fn comes_to<K: MailNames, R: Wait + Copy + Send>(
    rt: &R,
    runtime: &Runtime<R, K, Valve>,
    wanted: u64,
) -> bool {
    let mut tally = Tally::new();
    for _ in 0..NAPS {
        let Progress { waiting, open, .. } = runtime.progress(rt, &mut tally);
        if waiting == 0 && open == wanted {
            return true;
        }
        nap(rt, NAP);
    }
    false
}

// Does a step: whether all was accepted, and came in time.
fn does<K: MailNames, R: Wait + Copy + Send>(
    rt: &R,
    alloc: Global,
    runtime: &Runtime<R, K, Valve>,
    session: &mut Session<K>,
    stage: &Stage,
    meeting: usize,
    step: Step,
) -> bool {
    match step {
        Step::Ask(supply, times) => switches(rt, alloc, runtime, session, supply, times),
        Step::AskEach(times) => switches_all(rt, alloc, runtime, session, meeting, times),
        Step::Configure => asks(rt, alloc, runtime, session, (RUN, CONFIGURE)),
        Step::Kill(object) => kills(rt, runtime, session, object),
        Step::Set(mode) => {
            stage.set(mode);
            true
        }
        Step::Until(open) => comes_to(rt, runtime, open),
        Step::Nap => {
            nap(rt, LONG_NAP);
            true
        }
    }
}

// Does all steps, up to one that fails. Then supplies answer at once, and the session leaves.
fn does_all<K: MailNames, R: Wait + Copy + Send>(
    rt: &R,
    alloc: Global,
    runtime: &Runtime<R, K, Valve>,
    session: Session<K>,
    stage: &Stage,
    run: &Staged<'_>,
) -> (bool, Closed<K>) {
    let mut session = session;
    let mut is_done = true;
    for step in run.steps {
        is_done = is_done && does(rt, alloc, runtime, &mut session, stage, run.meeting, *step);
    }
    stage.set(BRIEF);
    (is_done, runtime.leave(rt, session))
}

// Does all steps while workers serve: whether all were done, and the session, which has left.
fn does_served<'x, R: Threads + Wait + Copy + Send + Sync, K: MailNames + Send + Sync>(
    rt: &'x R,
    alloc: Global,
    runtime: &'x Runtime<R, K, Valve>,
    session: Session<K>,
    stage: &'x Stage,
    run: &Staged<'_>,
) -> (bool, Closed<K>) {
    thread::scope(thread::scope_env(), rt, |scope| {
        for _ in 0..run.workers {
            let _ = scope.spawn(move || {
                let _ = runtime.serve(rt);
            });
        }
        does_all(rt, alloc, runtime, session, stage, run)
    })
}

// Whether the first objects are in these states.
fn are_in<K: MailNames>(report: &Report<Valve, K>, states: &[usize]) -> bool {
    for o in 0..report.domain().objects() {
        if let Some(state) = states.get(o) {
            if report.state(ObjId::new(o)).get() != *state {
                return false;
            }
        }
    }
    true
}

// Whether the last entry of a journal is the end of an object's action.
fn ends_last(journal: &[Entry], wanted: usize) -> bool {
    match journal.last() {
        Some(Entry::End { object, .. }) => object.get() == wanted,
        _ => false,
    }
}

// Whether a report is as it must be, and its journal legal.
fn is_right<K: MailNames>(
    alloc: Global,
    domain: &Arc<Domain>,
    report: &Report<Valve, K>,
    run: &Staged<'_>,
) -> bool {
    let Ok(shared) = Arc::try_clone(domain) else {
        return false;
    };
    let is_last = match run.last {
        Some(last) => ends_last(report.journal(), last),
        None => true,
    };
    is_last
        && are_in(report, run.states)
        && report.unmet().is_empty()
        && is_judged(alloc, shared, report)
}

// A run over mailboxes: what is told about it.
fn goes_over<K: MailNames + Send + Sync, R: Threads + Wait + Copy + Send + Sync>(
    rt: R,
    alloc: Global,
    domain: &Arc<Domain>,
    boxes: Mailboxes<R>,
    run: &Staged<'_>,
) -> Option<&'static str>
    requires named { K.names ≡ boxes }
    requires domain { boxes.domain ≡ arc_value domain.now }
{
    let Ok((mail, ends)) = ruled::<K, R>(alloc, boxes) else {
        return None;
    };
    let shared = Arc::try_clone(domain).ok()?;
    let stage = Arc::new(alloc, Stage::new(run.meeting as u64)).ok()?;
    let devices = valves(alloc, &stage, run.supplies)?;
    let config = Config {
        workers: run.workers,
        max_starts: MOST,
    };
    let Ok((runtime, mut sessions)) = Runtime::open(alloc, shared, mail, ends, devices, config)
    else {
        return None;
    };
    let session = sessions.pop()?;
    let (is_done, left) = does_served(&rt, alloc, &runtime, session, &stage, run);
    if !is_done {
        return Some("a step failed, or what it waits for did not come in time");
    }
    let mut closed = Vec::new(alloc);
    closed.push(left).ok()?;
    match runtime.finish(alloc, closed) {
        Ok(report) => Some(told_right(is_right(alloc, domain, &report, run))),
        Err(_) => None,
    }
}

// What is told about a report.
fn told_right(is_right: bool) -> &'static str {
    if is_right {
        RIGHT
    } else {
        "the report is not as it must be"
    }
}

/// What is told about a run: `RIGHT`, or what was wrong.
pub fn told_of<R: Threads + Wait + Copy + Send + Sync + Drop>(
    rt: R,
    alloc: Global,
    run: &Staged<'_>,
) -> &'static str {
    let Ok(domain) = domain_of(alloc, run.text) else {
        return "the domain was not read";
    };
    let Ok(shared) = Arc::try_clone(&domain) else {
        return "out of memory";
    };
    let told = match Mailboxes::new(rt, alloc, shared, CAPACITY, 1) {
        Ok(boxes) => goes_over::<Brand, _>(rt, alloc, &domain, boxes, run),
        Err(_) => None,
    };
    told.unwrap_or("out of memory, or the runtime was refused")
}
