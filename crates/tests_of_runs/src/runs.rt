//! Runs by scripts.
ghost use Rattle.std.specs.Prelude.{◌≡◌, length};
ghost use Rattle.std.specs.Arc.{arc_value};

use crate::devices::{Supply, supplies};
use crate::reports::{Wanted, is_all_answered, is_judged, shows};
use smi_mail::{MailNames, Mailboxes, ruled};
use smi_run::{Config, Line, Report, Runtime, Script, ServeEnd, run_scripts};
use smi_world::Arguments;
use sml_domain::{ActionId, Domain, ObjId};
use sml_load::domain_of;
use sml_tree::Name;
use std::alloc::Global;
use std::marker::Brand;
use std::sync::{Arc, Wait};
use std::thread::Threads;

/// What a session does, by number: it asks an object for an action, or kills it, or asks for what no object is.
#[derive(Clone, Copy)]
pub enum Act {
    Post(usize, usize),
    Kill(usize),
    Stray,
}

/// A run: its name, the text of its domain, the capacity of its mailboxes, its numbers, how often each device was
/// entered before, what each session does and how often, and what the report must show. None where it is open which
/// lines are accepted: each session does one thing, and all ends with nothing left.
#[derive(Clone, Copy)]
pub struct Run {
    pub name: &'static str,
    pub text: &'static [u8],
    pub devices: usize,
    pub capacity: usize,
    pub config: Config,
    pub entered: u64,
    pub sessions: &'static [&'static [Act]],
    pub times: usize,
    pub wanted: Option<Wanted>,
}

fn shared(alloc: Global, name: Name) -> Option<Arc<Name>> {
    Arc::new(alloc, name).ok()
}

// A line. What no object is named is the name of an action.
fn line_of(alloc: Global, domain: &Domain, act: Act) -> Option<Line> {
    let given = Arguments::new(Vec::new(alloc));
    match act {
        Act::Post(object, action) => Some(Line::Post {
            object: shared(alloc, domain.object_name(ObjId::new(object))?)?,
            action: shared(alloc, domain.action_name(ActionId::new(action))?)?,
            given,
        }),
        Act::Kill(object) => Some(Line::Kill {
            object: shared(alloc, domain.object_name(ObjId::new(object))?)?,
        }),
        Act::Stray => Some(Line::Kill {
            object: shared(alloc, domain.action_name(ActionId::new(0))?)?,
        }),
    }
}

fn script_of(alloc: Global, domain: &Domain, acts: &[Act], times: usize) -> Option<Script> {
    let mut lines = Vec::new(alloc);
    for _ in 0..times {
        for act in acts {
            lines.push(line_of(alloc, domain, *act)?).ok()?;
        }
    }
    Some(Script::new(lines))
}

fn scripts_of(alloc: Global, domain: &Domain, run: &Run) -> Option<Vec<Script>> {
    let mut scripts = Vec::new(alloc);
    for acts in run.sessions {
        scripts
            .push(script_of(alloc, domain, acts, run.times)?)
            .ok()?;
    }
    Some(scripts)
}

fn devices_of(alloc: Global, run: &Run) -> Option<Vec<Supply>> {
    let mut devices = supplies(alloc, run.entered)?;
    devices.truncate(run.devices);
    Some(devices)
}

// Whether a report is as it must be, and its journal legal.
fn is_wanted<K: MailNames>(
    alloc: Global,
    domain: &Arc<Domain>,
    report: &Report<Supply, K>,
    refused: &[u64],
    run: &Run,
) -> bool {
    let Ok(shared) = Arc::try_clone(domain) else {
        return false;
    };
    let is_shown = match &run.wanted {
        Some(wanted) => refused == wanted.refused && shows(report, wanted),
        None => is_all_answered(report, refused, run.times as u64),
    };
    is_shown && is_judged(alloc, shared, report)
}

fn end_of(run: &Run) -> ServeEnd {
    match &run.wanted {
        Some(wanted) => wanted.end,
        None => ServeEnd::Quiet,
    }
}

// Whether a run over mailboxes goes as it must.
fn goes_over<K: MailNames + Send + Sync, R: Threads + Wait + Copy + Send + Sync>(
    rt: R,
    alloc: Global,
    domain: &Arc<Domain>,
    boxes: Mailboxes<R>,
    run: &Run,
) -> bool
    requires named { K.names ≡ boxes }
    requires domain { boxes.domain ≡ arc_value domain.now }
{
    let Ok((mail, ends)) = ruled::<K, R>(alloc, boxes) else {
        return false;
    };
    let Ok(shared) = Arc::try_clone(domain) else {
        return false;
    };
    let Some(devices) = devices_of(alloc, run) else {
        return false;
    };
    let Some(scripts) = scripts_of(alloc, domain, run) else {
        return false;
    };
    let Ok((runtime, sessions)) = Runtime::open(alloc, shared, mail, ends, devices, run.config)
    else {
        return false;
    };
    if sessions.len() != scripts.len() {
        return false;
    }
    let Ok((end, refused, report)) = run_scripts(&rt, alloc, runtime, sessions, &scripts) else {
        return false;
    };
    end == end_of(run) && is_wanted(alloc, domain, &report, &refused, run)
}

/// Whether a run goes as it must.
pub fn goes<R: Threads + Wait + Copy + Send + Sync + Drop>(
    rt: R,
    alloc: Global,
    run: &Run,
) -> bool {
    let Ok(domain) = domain_of(alloc, run.text) else {
        return false;
    };
    let Ok(shared) = Arc::try_clone(&domain) else {
        return false;
    };
    match Mailboxes::new(rt, alloc, shared, run.capacity, run.sessions.len()) {
        Ok(boxes) => goes_over::<Brand, _>(rt, alloc, &domain, boxes, run),
        Err(_) => false,
    }
}
