//! A runtime call by call, in one thread.
ghost use Rattle.std.specs.Prelude.{◌≡◌};
ghost use Rattle.std.specs.Arc.{arc_value};

use crate::devices::{Supply, supplies};
use crate::texts::{CONFIGURE, RUN};
use smi_journal::Passed;
use smi_mail::{MailNames, Mailboxes, ruled};
use smi_run::{
    Closed, Config, FinishError, KillError, PostError, Progress, Runtime, ServeEnd, Session, Tally,
};
use sml_domain::{ActionId, Domain, ObjId, Value};
use sml_load::domain_of;
use sml_tree::Name;
use std::alloc::Global;
use std::marker::Brand;
use std::sync::{Arc, Wait};
use test_domains::SUPPLIES;

/// What a session asks for, and what it must be answered. Objects and actions go by number; `NONE` goes by a name of
/// the other kind.
#[derive(Clone, Copy)]
pub enum Asked {
    /// A post of a request, with this number of arguments that no action has.
    Post(usize, usize, usize, Result<u64, PostError>),
    /// A kill.
    Kill(usize, Result<u64, KillError>),
    /// How far the run is.
    See(Progress),
}

/// What a runtime must be like in the end: how it ended, how many receipts the session has, how many entries the
/// journal, and how far the run is.
#[derive(Clone, Copy)]
pub struct Ended {
    pub end: ServeEnd,
    pub receipts: usize,
    pub entries: usize,
    pub progress: Progress,
}

/// A runtime with one session: how many requests are started at most, what is asked, and what it is like in the end.
#[derive(Clone, Copy)]
pub struct Case<'a> {
    pub max_starts: usize,
    pub asked: &'a [Asked],
    pub ended: Ended,
}

// A run in which nothing is done.
const NOTHING_DONE: Ended = Ended {
    end: ServeEnd::Quiet,
    receipts: 0,
    entries: 0,
    progress: Progress {
        starts: 0,
        waiting: 0,
        open: 0,
    },
};

/// The number that goes for no object and no action.
pub const NONE: usize = 99;

fn object_name(domain: &Domain, o: usize) -> Option<Name> {
    if o == NONE {
        return domain.action_name(ActionId::new(CONFIGURE));
    }
    domain.object_name(ObjId::new(o))
}

fn action_name(domain: &Domain, a: usize) -> Option<Name> {
    if a == NONE {
        return domain.object_name(ObjId::new(RUN));
    }
    domain.action_name(ActionId::new(a))
}

fn given_of(alloc: Global, domain: &Domain, count: usize) -> Option<Vec<Passed>> {
    let mut given = Vec::new(alloc);
    for _ in 0..count {
        let passed = Passed {
            name: object_name(domain, RUN)?,
            value: Value::Int(1),
        };
        given.push(passed).ok()?;
    }
    Some(given)
}

// Whether a session is answered so.
fn is_answered<K: MailNames, R: Wait + Copy + Send>(
    rt: &R,
    alloc: Global,
    runtime: &Runtime<R, K, Supply>,
    session: &mut Session<K>,
    tally: &mut Tally,
    asked: Asked,
) -> Option<bool> {
    match asked {
        Asked::Post(object, action, given, wanted) => {
            let object = object_name(runtime.domain(), object)?;
            let action = action_name(runtime.domain(), action)?;
            let given = given_of(alloc, runtime.domain(), given)?;
            Some(session.post(rt, alloc, runtime, &object, &action, &given) == wanted)
        }
        Asked::Kill(object, wanted) => {
            let object = object_name(runtime.domain(), object)?;
            Some(session.kill(rt, runtime, &object) == wanted)
        }
        Asked::See(wanted) => Some(runtime.progress(rt, tally) == wanted),
    }
}

fn are_answered<K: MailNames, R: Wait + Copy + Send>(
    rt: &R,
    alloc: Global,
    runtime: &Runtime<R, K, Supply>,
    session: &mut Session<K>,
    tally: &mut Tally,
    asked: &[Asked],
) -> bool {
    for one in asked {
        if is_answered(rt, alloc, runtime, session, tally, *one) != Some(true) {
            return false;
        }
    }
    true
}

// Whether a run is as far as it must be, and says so again if nothing is new.
fn is_so_far<K: MailNames, R: Wait + Copy + Send>(
    rt: &R,
    runtime: &Runtime<R, K, Supply>,
    mut tally: Tally,
    wanted: Progress,
) -> bool {
    runtime.progress(rt, &mut tally) == wanted && runtime.progress(rt, &mut tally) == wanted
}

// Whether a runtime serves up to such an end once its sessions have left, and its report is so, with no receipt unmet.
fn ends<K: MailNames, R: Wait + Copy + Send>(
    rt: &R,
    alloc: Global,
    runtime: Runtime<R, K, Supply>,
    closed: Vec<Closed<K>>,
    tally: Tally,
    ended: Ended,
) -> bool {
    if runtime.serve(rt) != ended.end || !is_so_far(rt, &runtime, tally, ended.progress) {
        return false;
    }
    match runtime.finish(alloc, closed) {
        Ok(report) => report.journal().len() == ended.entries && report.unmet().is_empty(),
        Err(_) => false,
    }
}

// Whether the first session of a runtime is answered so, and the run ends so.
fn goes<K: MailNames, R: Wait + Copy + Send>(
    rt: &R,
    alloc: Global,
    runtime: Runtime<R, K, Supply>,
    sessions: Vec<Session<K>>,
    case: Case,
) -> bool {
    let mut sessions = sessions;
    let Some(mut session) = sessions.pop() else {
        return false;
    };
    let mut tally = Tally::new();
    let is_right = are_answered(rt, alloc, &runtime, &mut session, &mut tally, case.asked);
    let one = runtime.leave(rt, session);
    let receipts = one.receipts().len();
    let mut closed = Vec::new(alloc);
    if closed.push(one).is_err() {
        return false;
    }
    is_right
        && receipts == case.ended.receipts
        && ends(rt, alloc, runtime, closed, tally, case.ended)
}

// Whether a report is refused while the second session is missing, all comes back, and there is one with both.
fn misses<K: MailNames, R: Wait + Copy + Send>(
    rt: &R,
    alloc: Global,
    runtime: Runtime<R, K, Supply>,
    sessions: Vec<Session<K>>,
) -> bool {
    let mut sessions = sessions;
    let (Some(second), Some(first)) = (sessions.pop(), sessions.pop()) else {
        return false;
    };
    let mut closed = Vec::new(alloc);
    if closed.push(runtime.leave(rt, second)).is_err() {
        return false;
    }
    match runtime.finish(alloc, closed) {
        Err((FinishError::Missing, runtime, mut closed)) => {
            closed.len() == 1
                && closed.push(runtime.leave(rt, first)).is_ok()
                && ends(rt, alloc, runtime, closed, Tally::new(), NOTHING_DONE)
        }
        _ => false,
    }
}

// Whether a report is refused while both sessions are missing, and all comes back; and then as `misses` says.
fn misses_both<K: MailNames, R: Wait + Copy + Send>(
    rt: &R,
    alloc: Global,
    runtime: Runtime<R, K, Supply>,
    sessions: Vec<Session<K>>,
) -> bool {
    match runtime.finish(alloc, Vec::new(alloc)) {
        Err((FinishError::Missing, runtime, closed)) => {
            closed.is_empty() && misses(rt, alloc, runtime, sessions)
        }
        _ => false,
    }
}

// A runtime of the supplies and its sessions, to which something is done.
fn with_runtime<K: MailNames, R: Wait + Copy + Send>(
    rt: R,
    alloc: Global,
    domain: &Arc<Domain>,
    boxes: Mailboxes<R>,
    case: Option<Case>,
) -> bool
    requires named { K.names ≡ boxes }
    requires domain { boxes.domain ≡ arc_value domain.now }
{
    let Ok((mail, ends)) = ruled::<K, R>(alloc, boxes) else {
        return false;
    };
    let Ok(shared) = Arc::try_clone(domain) else {
        return false;
    };
    let Some(devices) = supplies(alloc, 1) else {
        return false;
    };
    let config = Config {
        workers: 1,
        max_starts: case.map_or(1, |case| case.max_starts),
    };
    let Ok((runtime, sessions)) = Runtime::open(alloc, shared, mail, ends, devices, config) else {
        return false;
    };
    match case {
        Some(case) => goes(&rt, alloc, runtime, sessions, case),
        None => misses_both(&rt, alloc, runtime, sessions),
    }
}

fn with_sessions<R: Wait + Copy + Send + Drop>(
    rt: R,
    alloc: Global,
    sessions: usize,
    case: Option<Case>,
) -> bool {
    let Ok(domain) = domain_of(alloc, SUPPLIES) else {
        return false;
    };
    let Ok(shared) = Arc::try_clone(&domain) else {
        return false;
    };
    match Mailboxes::new(rt, alloc, shared, 1, sessions) {
        Ok(boxes) => with_runtime::<Brand, _>(rt, alloc, &domain, boxes, case),
        Err(_) => false,
    }
}

/// Whether a session, the only one, is answered so, and the run ends so.
pub fn answers<R: Wait + Copy + Send + Drop>(rt: R, alloc: Global, case: Case) -> bool {
    with_sessions(rt, alloc, 1, Some(case))
}

/// Whether a report is refused while both sessions are missing, and while one is.
pub fn misses_any<R: Wait + Copy + Send + Drop>(rt: R, alloc: Global) -> bool {
    with_sessions(rt, alloc, 2, None)
}
