//! A device that answers only after its object was killed.
ghost use Rattle.std.specs.Prelude.{◌≡◌};
ghost use Rattle.std.specs.Arc.{arc_value};

use crate::devices::{Supply, supplies};
use crate::reports::{Wanted, is_judged, shows};
use crate::texts::{DEAD, FIRST, NOT_READY, ON, SECOND, SWITCH_ON};
use smi_mail::{MailNames, Mailboxes, ruled};
use smi_run::{Closed, Config, Report, Runtime, ServeEnd, Session, Tally};
use sml_domain::{ActionId, Domain, ObjId};
use sml_load::domain_of;
use std::alloc::Global;
use std::marker::Brand;
use std::sync::{Arc, Wait};
use std::thread;
use std::thread::Threads;
use test_domains::SUPPLIES;

// How often it is looked whether an action is open.
const TURNS: u64 = 100_000_000;

// Two workers, of whom one is kept by the supply that waits for the other.
const CONFIG: Config = Config {
    workers: 2,
    max_starts: 10,
};

// How many entries the journal has: the start and the kill of the first supply, the start and the end of the second.
const ENTRIES: usize = 4;

// A session asks a supply to switch on: whether that is accepted.
fn switches_on<K: MailNames, R: Wait + Copy + Send>(
    rt: &R,
    alloc: Global,
    runtime: &Runtime<R, K, Supply>,
    session: &mut Session<K>,
    supply: usize,
) -> bool {
    let domain = runtime.domain();
    let object = domain.object_name(ObjId::new(supply));
    let action = domain.action_name(ActionId::new(SWITCH_ON));
    match (object, action) {
        (Some(object), Some(action)) => {
            session.post(rt, alloc, runtime, &object, &action, &[]) == Ok(0)
        }
        _ => false,
    }
}

// Kills the first supply once its action is open: whether it was killed.
fn kills_open<K: MailNames, R: Wait + Copy + Send>(
    rt: &R,
    runtime: &Runtime<R, K, Supply>,
    session: &mut Session<K>,
) -> bool {
    let mut tally = Tally::new();
    for _ in 0..TURNS {
        if runtime.progress(rt, &mut tally).open == 1 {
            break;
        }
        thread::yield_now();
    }
    match runtime.domain().object_name(ObjId::new(FIRST)) {
        Some(object) => session.kill(rt, runtime, &object).is_ok(),
        None => false,
    }
}

// The first supply is asked, and killed while it performs. Then the second is asked, without which the first does not
// return. Whether all was taken, and the session, which has left.
fn asks_both<K: MailNames, R: Wait + Copy + Send>(
    rt: &R,
    alloc: Global,
    runtime: &Runtime<R, K, Supply>,
    session: Session<K>,
) -> (bool, Closed<K>) {
    let mut session = session;
    let is_taken = switches_on(rt, alloc, runtime, &mut session, FIRST)
        && kills_open(rt, runtime, &mut session)
        && switches_on(rt, alloc, runtime, &mut session, SECOND);
    (is_taken, runtime.leave(rt, session))
}

// The same, while two workers serve.
fn asks_served<'x, R: Threads + Wait + Copy + Send + Sync, K: MailNames + Send + Sync>(
    rt: &'x R,
    alloc: Global,
    runtime: &'x Runtime<R, K, Supply>,
    session: Session<K>,
) -> (bool, Closed<K>) {
    thread::scope(thread::scope_env(), rt, |scope| {
        for _ in 0..CONFIG.workers {
            let _ = scope.spawn(move || {
                let _ = runtime.serve(rt);
            });
        }
        asks_both(rt, alloc, runtime, session)
    })
}

// What the report must show: the first supply is dead, though its device performed the action.
const WANTED: Wanted = Wanted {
    end: ServeEnd::Quiet,
    refused: &[0],
    states: &[DEAD, ON, NOT_READY],
    stalled: &[],
    accepted: &[(1, FIRST, 1), (1, SECOND, 1)],
    left: &[],
    performed: &[1, 1],
};

// Whether a report shows that the first supply did not end.
fn is_dropped<K: MailNames>(
    alloc: Global,
    domain: &Arc<Domain>,
    report: &Report<Supply, K>,
) -> bool {
    let Ok(shared) = Arc::try_clone(domain) else {
        return false;
    };
    report.journal().len() == ENTRIES && shows(report, &WANTED) && is_judged(alloc, shared, report)
}

// Whether the answer is dropped in a run over mailboxes.
fn drops_over<K: MailNames + Send + Sync, R: Threads + Wait + Copy + Send + Sync>(
    rt: R,
    alloc: Global,
    domain: &Arc<Domain>,
    boxes: Mailboxes<R>,
) -> bool
    requires named { K.names ≡ boxes }
    requires domain { boxes.domain ≡ arc_value domain.now }
{
    let Ok((mail, ends)) = ruled::<K, R>(alloc, boxes) else {
        return false;
    };
    let Ok(shared) = Arc::try_clone(domain) else {
        return false;
    };
    let Some(devices) = supplies(alloc, 0) else {
        return false;
    };
    let Ok((runtime, mut sessions)) = Runtime::open(alloc, shared, mail, ends, devices, CONFIG)
    else {
        return false;
    };
    let Some(session) = sessions.pop() else {
        return false;
    };
    let (is_taken, left) = asks_served(&rt, alloc, &runtime, session);
    let mut closed = Vec::new(alloc);
    if closed.push(left).is_err() {
        return false;
    }
    match runtime.finish(alloc, closed) {
        Ok(report) => is_taken && is_dropped(alloc, domain, &report),
        Err(_) => false,
    }
}

/// Whether the answer of a device is dropped that comes only after its object was killed.
pub fn drops_late_answers<R: Threads + Wait + Copy + Send + Sync + Drop>(
    rt: R,
    alloc: Global,
) -> bool {
    let Ok(domain) = domain_of(alloc, SUPPLIES) else {
        return false;
    };
    let Ok(shared) = Arc::try_clone(&domain) else {
        return false;
    };
    match Mailboxes::new(rt, alloc, shared, 1, 1) {
        Ok(boxes) => drops_over::<Brand, _>(rt, alloc, &domain, boxes),
        Err(_) => false,
    }
}
