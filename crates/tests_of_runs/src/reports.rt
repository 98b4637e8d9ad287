//! What reports must show.
ghost use Rattle.std.specs.Prelude.{◌≡◌, ◌<◌, length};

use crate::devices::Supply;
use smi_audit::{Judgement, audit};
use smi_journal::{Entry, Envelope, Sender, SessionId, write_journal};
use smi_mail::MailNames;
use smi_run::{Accepted, Report, ServeEnd};
use sml_domain::{Domain, ObjId};
use std::alloc::Global;
use std::sync::Arc;

/// How many requests of a sender there are at an object. Sessions are 1 to 8, and objects their numbers and 10.
pub type Count = (usize, usize, usize);

/// What the report of a run must show: the end; how many lines of each session were refused; the state of each object
/// by number; the objects that are stalled; how many requests were accepted and are left (0 for a pair that is not
/// listed); and how often each device performed an action.
#[derive(Clone, Copy)]
pub struct Wanted {
    pub end: ServeEnd,
    pub refused: &'static [u64],
    pub states: &'static [usize],
    pub stalled: &'static [usize],
    pub accepted: &'static [Count],
    pub left: &'static [Count],
    pub performed: &'static [u64],
}

// How many are listed of a sender at an object.
fn listed(counts: &[Count], by: usize, o: usize) -> usize {
    match counts.iter().find(|row| row.0 == by && row.1 == o) {
        Some(row) => row.2,
        None => 0,
    }
}

// Whether an accepted request is the one with this number, and is as a letter says.
fn is_request(told: Option<&Accepted>, number: u64, entry: (u64, usize)) -> bool {
    match told {
        Some(told) => {
            told.number == number
                && entry.0 == number
                && told.action.get() == entry.1
                && told.args.values().is_empty()
        }
        None => false,
    }
}

// The number and the action of a start of a sender's request at an object.
fn start_of(entry: &Entry, by: &Sender, o: ObjId) -> Option<(u64, usize)> {
    match entry {
        Entry::Start {
            object,
            sender,
            number,
            action,
            args: _,
        } if object.get() == o.get() && by.is(sender) => Some((*number, action.get())),
        _ => None,
    }
}

// How many requests of a sender the journal starts at an object, if those are the first that were told, in order.
fn started(journal: &[Entry], told: &[Accepted], by: &Sender, o: ObjId) -> Option<u64> {
    let mut count = 0u64;
    for entry in journal {
        if let Some(start) = start_of(entry, by, o) {
            if !is_request(told.get(count as usize), count, start) {
                return None;
            }
            count = count.wrapping_add(1);
        }
    }
    Some(count)
}

// How many were started or are left, if those that are left are the next that were told, in order.
fn started_or_left(left: &[Envelope], told: &[Accepted], by: &Sender, before: u64) -> Option<u64> {
    let mut count = before;
    for envelope in left {
        let letter = envelope.letter();
        if by.is(&letter.sender) {
            if !is_request(
                told.get(count as usize),
                count,
                (letter.number, letter.action.get()),
            ) {
                return None;
            }
            count = count.wrapping_add(1);
        }
    }
    Some(count)
}

// Whether what a session was told is accepted at an object are its starts in order, and then what is left of it.
fn is_told<K: MailNames>(report: &Report<Supply, K>, session: SessionId, o: ObjId) -> bool
    requires { o < length K.names.domain.objects }
{
    let by = Sender::Operator(session);
    let told = report.accepted(session, o);
    match started(report.journal(), told, &by, o) {
        Some(before) => {
            started_or_left(report.left(o), told, &by, before) == Some(told.len() as u64)
        }
        None => false,
    }
}

// Whether as many requests of a session are accepted and left at an object as are listed.
fn shows_session<K: MailNames>(
    report: &Report<Supply, K>,
    wanted: &Wanted,
    session: SessionId,
    o: ObjId,
) -> bool
    requires { o < length K.names.domain.objects }
{
    let by = usize::from(session.get());
    report.accepted(session, o).len() == listed(wanted.accepted, by, o.get())
        && report.left_count(&Sender::Operator(session), o) == listed(wanted.left, by, o.get())
}

// The same of an object that sends.
fn shows_object<K: MailNames>(
    report: &Report<Supply, K>,
    wanted: &Wanted,
    sender: ObjId,
    o: ObjId,
) -> bool
    requires sender { sender < length K.names.domain.objects }
    requires target { o < length K.names.domain.objects }
{
    let by = sender.get().wrapping_add(10);
    report.posted(sender, o) == listed(wanted.accepted, by, o.get())
        && report.left_count(&Sender::Object(sender), o) == listed(wanted.left, by, o.get())
}

// Whether each session was told of its starts at an object in order, and then of what is left there.
fn are_told<K: MailNames>(report: &Report<Supply, K>, o: ObjId) -> bool
    requires { o < length K.names.domain.objects }
{
    for k in 1..9u8 {
        if let Some(session) = SessionId::new(k) {
            if !is_told(report, session, o) {
                return false;
            }
        }
    }
    true
}

// Whether the requests of the sessions at an object are as many as are listed.
fn shows_sessions<K: MailNames>(report: &Report<Supply, K>, wanted: &Wanted, o: ObjId) -> bool
    requires { o < length K.names.domain.objects }
{
    for k in 1..9u8 {
        if let Some(session) = SessionId::new(k) {
            if !shows_session(report, wanted, session, o) {
                return false;
            }
        }
    }
    true
}

// Whether the requests of the objects at an object are as many as are listed.
fn shows_objects<K: MailNames>(report: &Report<Supply, K>, wanted: &Wanted, o: ObjId) -> bool
    requires { o < length K.names.domain.objects }
{
    for a in 0..report.domain().objects() {
        if !shows_object(report, wanted, ObjId::new(a), o) {
            return false;
        }
    }
    true
}

// Whether an object is as it must be.
fn shows_at<K: MailNames>(report: &Report<Supply, K>, wanted: &Wanted, o: ObjId) -> bool
    requires { o < length K.names.domain.objects }
{
    Some(&report.state(o).get()) == wanted.states.get(o.get())
        && report.is_stalled(o) == wanted.stalled.contains(&o.get())
        && shows_sessions(report, wanted, o)
        && shows_objects(report, wanted, o)
}

// Whether the devices are those that were given, and performed as often as they must.
fn are_devices(devices: &[Supply], performed: &[u64]) -> bool {
    for (k, device) in devices.iter().enumerate() {
        if device.place != k || Some(&device.performed) != performed.get(k) {
            return false;
        }
    }
    devices.len() == performed.len()
}

// How many requests of a session were accepted at all.
fn accepted_of<K: MailNames>(report: &Report<Supply, K>, session: SessionId) -> u64 {
    let mut count = 0u64;
    for o in 0..report.domain().objects() {
        count = count.wrapping_add(report.accepted(session, ObjId::new(o)).len() as u64);
    }
    count
}

// Whether nothing is left at an object, and each session was told of its starts there in order.
fn is_done<K: MailNames>(report: &Report<Supply, K>, o: ObjId) -> bool
    requires { o < length K.names.domain.objects }
{
    report.left(o).is_empty() && are_told(report, o)
}

// Whether each session has `lines` requests that were accepted or refused. At least one was accepted.
fn are_counted<K: MailNames>(report: &Report<Supply, K>, refused: &[u64], lines: u64) -> bool {
    let mut is_any = false;
    let mut number = 1u8;
    for count in refused {
        let Some(session) = SessionId::new(number) else {
            return false;
        };
        let accepted = accepted_of(report, session);
        if accepted.wrapping_add(*count) != lines {
            return false;
        }
        is_any |= accepted > 0;
        number = number.wrapping_add(1);
    }
    is_any
}

/// Whether `lines` requests of each session were accepted and then started, or refused, and at least one was accepted.
pub fn is_all_answered<K: MailNames>(
    report: &Report<Supply, K>,
    refused: &[u64],
    lines: u64,
) -> bool {
    for o in 0..report.domain().objects() {
        if !is_done(report, ObjId::new(o)) {
            return false;
        }
    }
    report.unmet().is_empty() && are_counted(report, refused, lines)
}

/// Whether the journal of a report is legal, as the judge reads its text.
pub fn is_judged<D: Drop, K: MailNames>(
    alloc: Global,
    domain: Arc<Domain>,
    report: &Report<D, K>,
) -> bool {
    let mut text = Vec::new(alloc);
    if write_journal(&domain, report.journal(), &mut text).is_err() {
        return false;
    }
    match audit(alloc, domain, &text) {
        Ok(judgement) => judgement == Judgement::Legal,
        Err(_) => false,
    }
}

/// Whether a report shows what it must.
pub fn shows<K: MailNames>(report: &Report<Supply, K>, wanted: &Wanted) -> bool {
    for o in 0..report.domain().objects() {
        let o = ObjId::new(o);
        if !shows_at(report, wanted, o) || !are_told(report, o) {
            return false;
        }
    }
    report.unmet().is_empty() && are_devices(report.devices(), wanted.performed)
}
