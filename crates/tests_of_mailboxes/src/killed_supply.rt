//! A run of two supplies, one of which is killed while requests wait there.
ghost use Rattle.std.specs.Prelude.{◌≡◌};
ghost use Rattle.std.specs.Arc.{arc_value};

use crate::memory_of_runs::{Obeying, supplies};
use smi_journal::{Envelope, SessionId, write_journal};
use smi_mail::{MailNames, Mailboxes, ruled};
use smi_run::{Accepted, Config, Report, Runtime, ServeEnd, Session};
use sml_domain::{Domain, ObjId};
use sml_load::domain_of;
use sml_tree::Name;
use std::alloc::Global;
use std::marker::Brand;
use std::sync::{Arc, Wait};
use std::test::*;
use test_domains::SUPPLIES;

// The first supply, and the state of what is killed, by number.
const FIRST: usize = 0;

const DEAD: usize = 5;

const CONFIG: Config = Config {
    workers: 1,
    max_starts: 10,
};

// The journal of the run: nothing was started.
const JOURNAL: &[u8] = b"smi-journal 2\nkill HV1 @1\n";

// Whether this many requests were told, with the numbers from 0.
fn are_told(told: &[Accepted], count: usize) -> bool {
    told.len() == count
        && told
            .iter()
            .enumerate()
            .all(|(k, told)| told.number == k as u64)
}

// Whether this many requests are left, with the numbers from 0.
fn are_left(left: &[Envelope], count: usize) -> bool {
    left.len() == count
        && left
            .iter()
            .enumerate()
            .all(|(k, left)| left.letter().number == k as u64)
}

// Whether a report is right: what was told and what is left counts from 0, the first supply is dead, the journal has
// its lines and no others, and no receipt is unmet.
fn is_right<K: MailNames>(alloc: Global, report: &Report<Obeying, K>) -> Option<bool> {
    let o = ObjId::new(FIRST);
    let session = SessionId::new(1)?;
    let mut text = Vec::new(alloc);
    write_journal(report.domain(), report.journal(), &mut text).ok()?;
    if !report.domain().has(o) {
        return None;
    }
    let is_told = are_told(report.accepted(session, o), 2) && are_left(report.left(o), 2);
    let is_dead = report.state(o).get() == DEAD && report.unmet().is_empty();
    Some(is_told && is_dead && text.as_slice() == JOURNAL)
}

// Whether a session's request to switch the first supply on is accepted under a number.
fn posts<K: MailNames, R: Wait + Copy + Send>(
    rt: &R,
    alloc: Global,
    runtime: &Runtime<R, K, Obeying>,
    session: &mut Session<K>,
    number: u64,
) -> bool {
    let supply = Name::from_word(b"HV1");
    let action = Name::from_word(b"SWITCH_ON");
    session.post(rt, alloc, runtime, &supply, &action, &[]) == Ok(number)
}

// Whether a session kills the first supply at a place of the journal.
fn kills<K: MailNames, R: Wait + Copy + Send>(
    rt: &R,
    runtime: &Runtime<R, K, Obeying>,
    session: &mut Session<K>,
    place: u64,
) -> bool {
    session.kill(rt, runtime, &Name::from_word(b"HV1")) == Ok(place)
}

// Whether a runtime goes as it must: its session posts twice, kills the supply and leaves; then a worker begins.
fn goes<K: MailNames, R: Wait + Copy + Send>(
    rt: &R,
    alloc: Global,
    runtime: Runtime<R, K, Obeying>,
    mut session: Session<K>,
) -> bool {
    let is_done = posts(rt, alloc, &runtime, &mut session, 0)
        && posts(rt, alloc, &runtime, &mut session, 1)
        && kills(rt, &runtime, &mut session, 0);
    let mut closed = Vec::new(alloc);
    if closed.push(runtime.leave(rt, session)).is_err() {
        return false;
    }
    let end = runtime.serve(rt);
    match runtime.finish(alloc, closed) {
        Ok(report) => {
            end == ServeEnd::Quiet && is_done && is_right(alloc, &report) == Some(true)
        }
        Err(_) => false,
    }
}

// Whether a run over mailboxes goes as it must.
fn goes_over<K: MailNames, R: Wait + Copy + Send>(
    rt: R,
    alloc: Global,
    domain: &Arc<Domain>,
    boxes: Mailboxes<R>,
) -> Option<bool>
    requires named { K.names ≡ boxes }
    requires domain { boxes.domain ≡ arc_value domain.now }
{
    let shared = Arc::try_clone(domain).ok()?;
    let devices = supplies(alloc)?;
    let Ok((mail, ends)) = ruled::<K, R>(alloc, boxes) else {
        return None;
    };
    let Ok((runtime, mut sessions)) = Runtime::open(alloc, shared, mail, ends, devices, CONFIG)
    else {
        return None;
    };
    let session = sessions.pop()?;
    Some(goes(&rt, alloc, runtime, session))
}

// Whether a run goes as it must.
fn goes_once<R: Wait + Copy + Send + Drop>(rt: R, alloc: Global) -> Option<bool> {
    let domain = domain_of(alloc, SUPPLIES).ok()?;
    let shared = Arc::try_clone(&domain).ok()?;
    match Mailboxes::new(rt, alloc, shared, 16, 1) {
        Ok(boxes) => goes_over::<Brand, _>(rt, alloc, &domain, boxes),
        Err(_) => None,
    }
}

#[test]
fn what_was_posted_before_a_kill_is_left(rt: HostRuntime) {
    for _ in 0..100u8 {
        assert!(rt; goes_once(rt, rt.alloc()) == Some(true));
    }
}
