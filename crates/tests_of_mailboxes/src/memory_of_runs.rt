//! A run that is refused memory: what was passed comes back, and the same call then returns its answer.
//!
//! It says little unless an allocation is refused, as `tools/refused-memory` does: here it runs with all its memory.
ghost use Rattle.std.specs.Prelude.{◌≡◌, [], ℕ};
ghost use Rattle.std.specs.Arc.{arc_value};
ghost use Rattle.smi_journal_entries.specs.declared.entry.Sender.{Sender};
ghost use Rattle.smi_mail.specs.Drains.{AreAllEnds};
ghost use Rattle.smi_mail.specs.Mails.{requests_sent, requests_taken};
ghost use Rattle.smi_run_runtime.specs.Sessions.{AreUnused};

use crate::at_last::{boxes_at_last, domain_at_last};
use smi_journal::Args;
use smi_mail::{MailNames, Mailboxes, OperatorEnd, RuledMail, ruled};
use smi_run::{
    Closed, Config, Device, DeviceFault, FinishError, OpenError, PostError, Report, Runtime,
    ServeEnd, Session,
};
use sml_domain::{ActionId, Domain, ObjId, StateId};
use sml_tree::Name;
use std::alloc::Global;
use std::marker::Brand;
use std::sync::{Arc, Wait};
use std::test::*;
use test_domains::SUPPLIES;

// The states of the objects in the end, by number: both supplies are on, and the run is ready.
const STATES: [usize; 3] = [1, 1, 3];

// The capacity of the mailboxes.
const CAPACITY: usize = 16;

const CONFIG: Config = Config {
    workers: 1,
    max_starts: 10,
};

/// A supply that is on after each action.
#[derive(Drop)]
pub struct Obeying;

impl Device for Obeying {
    ghost faults = { λ _. 0 };

    fn perform<R: Wait>(
        &mut self,
        _rt: &R,
        _action: ActionId,
        _given: &Args,
    ) -> Result<StateId, DeviceFault> {
        Ok(StateId::new(1))
    }
}

// Posts a request of the run, and once more if it was refused since memory ran out.
fn posts_at_last<K: MailNames, R: Wait + Copy + Send>(
    rt: &R,
    alloc: Global,
    runtime: &Runtime<R, K, Obeying>,
    session: &mut Session<K>,
) -> bool {
    let run = Name::from_word(b"RUN");
    let action = Name::from_word(b"CONFIGURE");
    match session.post(rt, alloc, runtime, &run, &action, &[]) {
        Err(PostError::Memory) => { session.post(rt, alloc, runtime, &run, &action, &[]) == Ok(0) }
        told => told == Ok(0),
    }
}

// Whether a worker comes to rest, the second time if it was refused memory the first time.
fn rests_at_last<K: MailNames, R: Wait + Copy + Send>(
    rt: &R,
    runtime: &Runtime<R, K, Obeying>,
) -> bool {
    match runtime.serve(rt) {
        ServeEnd::Memory => runtime.serve(rt) == ServeEnd::Quiet,
        end => end == ServeEnd::Quiet,
    }
}

// Whether a report has the states of the end, and each of the three requests was started once.
fn is_right<K: MailNames>(report: &Report<Obeying, K>) -> bool {
    for o in 0..report.domain().objects() {
        if STATES.get(o) != Some(&report.state(ObjId::new(o)).get()) {
            return false;
        }
    }
    report.starts() == STATES.len() && report.unmet().is_empty()
}

// Whether there is such a report, the second time if the first was refused memory.
fn finishes_at_last<K: MailNames, R: Wait + Copy + Send>(
    alloc: Global,
    runtime: Runtime<R, K, Obeying>,
    closed: Vec<Closed<K>>,
) -> bool {
    match runtime.finish(alloc, closed) {
        Ok(report) => is_right(&report),
        Err((FinishError::Memory, runtime, closed)) => match runtime.finish(alloc, closed) {
            Ok(report) => is_right(&report),
            Err(_) => false,
        },
        Err(_) => false,
    }
}

// A list with a place for one, asked for a second time if it was refused.
fn place_for_one<K: MailNames>(alloc: Global) -> Option<Vec<Closed<K>>> {
    match Vec::with_capacity(alloc, 1) {
        Ok(list) => Some(list),
        Err(_) => Vec::with_capacity(alloc, 1).ok(),
    }
}

// Whether a runtime with one session gets to its end.
fn runs<K: MailNames, R: Wait + Copy + Send>(
    rt: &R,
    alloc: Global,
    runtime: Runtime<R, K, Obeying>,
    mut sessions: Vec<Session<K>>,
) -> bool {
    let (Some(mut session), Some(mut closed)) = (sessions.pop(), place_for_one(alloc)) else {
        return false;
    };
    let is_posted = posts_at_last(rt, alloc, &runtime, &mut session);
    let is_closed = closed.push(runtime.leave(rt, session)).is_ok();
    is_posted
        && is_closed
        && rests_at_last(rt, &runtime)
        && finishes_at_last(alloc, runtime, closed)
}

/// Two supplies.
pub fn supplies(alloc: Global) -> Option<Vec<Obeying>> {
    match vec![in alloc; Obeying, Obeying] {
        Ok(devices) => Some(devices),
        Err(_) => vec![in alloc; Obeying, Obeying].ok(),
    }
}

// Whether a runtime over mail gets to its end, opened the second time if the first was refused memory.
fn opens_at_last<K: MailNames, R: Wait + Copy + Send>(
    rt: &R,
    alloc: Global,
    domain: &Arc<Domain>,
    mail: RuledMail<R, K>,
    ends: Vec<OperatorEnd<K>>,
) -> Option<bool>
    requires domain { arc_value domain.now ≡ K.names.domain }
    requires ends { AreAllEnds K.names.sessions ends.items }
    requires unused { AreUnused ends.items }
    requires taken { (o : ℕ) → requests_taken mail o ≡ [] }
    requires sent { (s : Sender) (o : ℕ) → requests_sent mail s o ≡ [] }
{
    let first = Arc::try_clone(domain).ok()?;
    let second = Arc::try_clone(domain).ok()?;
    let devices = supplies(alloc)?;
    match Runtime::open(alloc, first, mail, ends, devices, CONFIG) {
        Ok((runtime, sessions)) => Some(runs(rt, alloc, runtime, sessions)),
        Err((OpenError::Memory, mail, ends, devices)) => {
            match Runtime::open(alloc, second, mail, ends, devices, CONFIG) {
                Ok((runtime, sessions)) => Some(runs(rt, alloc, runtime, sessions)),
                Err(_) => None,
            }
        }
        Err(_) => None,
    }
}

// Whether mailboxes are taken apart, the second time if memory was refused, and a runtime over them gets to its end.
fn go_on<K: MailNames, R: Wait + Copy + Send>(
    rt: &R,
    alloc: Global,
    domain: &Arc<Domain>,
    boxes: Mailboxes<R>,
) -> Option<bool>
    requires named { K.names ≡ boxes }
    requires domain { boxes.domain ≡ arc_value domain.now }
{
    match ruled::<K, R>(alloc, boxes) {
        Ok((mail, ends)) => opens_at_last(rt, alloc, domain, mail, ends),
        Err((_, boxes)) => match ruled::<K, R>(alloc, boxes) {
            Ok((mail, ends)) => opens_at_last(rt, alloc, domain, mail, ends),
            Err(_) => None,
        },
    }
}

fn goes_on<R: Wait + Copy + Send + Drop>(rt: R, alloc: Global) -> Option<bool> {
    let domain = domain_at_last(alloc, SUPPLIES)?;
    match boxes_at_last(rt, alloc, &domain, CAPACITY, 1) {
        Some(boxes) => go_on::<Brand, _>(&rt, alloc, &domain, boxes),
        None => None,
    }
}

#[test]
fn goes_on_after_a_refusal(rt: HostRuntime) {
    assert!(rt; goes_on(rt, rt.alloc()) == Some(true));
}
