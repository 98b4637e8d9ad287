//! Eight sessions that post, each from its own thread, while one thread takes.
ghost use Rattle.std.specs.Prelude.{◌≡◌, ◌<◌, length};
ghost use Rattle.std.specs.Arc.{arc_value};

use crate::domains::THREE;
use crate::envelopes::request_by;
use smi_journal::{Envelope, Sender};
use smi_mail::{Mail, MailNames, Mailboxes, OperatorEnd, RuledMail, ruled};
use sml_domain::{Domain, ObjId};
use sml_load::domain_of;
use std::alloc::Global;
use std::marker::Brand;
use std::sync::{Arc, Wait};
use std::test::*;
use std::thread;
use std::thread::Threads;

const OBJECTS: usize = 3;

const SESSIONS: usize = 8;

const CAPACITY: usize = 7;

// How many requests each session posts, and how many of all are left.
const EACH: u64 = 10_000;

const LEFT: u64 = 7;

const ROUNDS: u32 = 100;

// A session: its end, how many requests to each object it was told are accepted, and whether a number was wrong.
#[derive(Drop)]
struct Seat<K: MailNames> {
    end: OperatorEnd<K>,
    told: Vec<u64>,
    wrong: bool,
}

// What a session was told, once its end is handed in.
#[derive(Drop)]
struct Told {
    by: Sender,
    told: Vec<u64>,
    wrong: bool,
}

// Posts one request to an object, again and again until it is accepted.
fn post_one<R: Wait, K: MailNames>(
    rt: &R,
    alloc: Global,
    domain: &Domain,
    seat: &mut Seat<K>,
    o: ObjId,
) -> Option<u64>
    requires domain { domain.now ≡ K.names.domain }
    requires object { o < length domain.now.objects }
{
    for _ in rt.forever() {
        let by = Sender::Operator(seat.end.session());
        let envelope = request_by(alloc, domain, &by, 0, o)?;
        let answer = seat.end.post(rt, o, envelope);
        if let Ok(number) = answer {
            return Some(number);
        }
        thread::yield_now();
    }
    None
}

// Posts all requests of a session, to the objects in turn.
fn post_all<R: Wait, K: MailNames>(rt: &R, alloc: Global, domain: &Domain, seat: &mut Seat<K>)
    requires domain { domain.now ≡ K.names.domain }
    requires objects { 2 < length domain.now.objects }
{
    for turn in 0..EACH {
        let place = (turn % 3) as usize;
        match post_one(rt, alloc, domain, seat, ObjId::new(place)) {
            Some(number) => seat.wrong |= !counts(&mut seat.told, place, number),
            None => seat.wrong = true,
        }
    }
}

// Whether a number is the next at a place. One more is then counted there.
fn counts(next: &mut Vec<u64>, place: usize, number: u64) -> bool {
    match next.get_mut(place) {
        Some(count) => {
            let is_next = *count == number;
            *count = number.wrapping_add(1);
            is_next
        }
        None => false,
    }
}

// The place of a sender and an object among counts.
fn place_of(by: &Sender, o: usize) -> usize {
    match by {
        Sender::Operator(session) => usize::from(session.get()) * OBJECTS + o % OBJECTS,
        Sender::Object(_) => 0,
    }
}

// Takes from the objects in turn until all but what is left is taken: whether each number is the next of its sender.
fn take_most<R: Wait + Copy + Send, K: MailNames>(
    rt: &R,
    mail: &mut RuledMail<R, K>,
    next: &mut Vec<u64>,
) -> bool
    requires { 2 < length K.names.domain.objects }
{
    let mut taken = 0u64;
    let mut place = 0;
    for _ in rt.forever() {
        if taken == EACH * SESSIONS as u64 - LEFT {
            return true;
        }
        place = if place < 2 { place + 1 } else { 0 };
        match mail.take(ObjId::new(place)) {
            Some(envelope) => {
                taken = taken.wrapping_add(1);
                let letter = envelope.letter();
                if !counts(next, place_of(&letter.sender, place), letter.number) {
                    return false;
                }
            }
            None => thread::yield_now(),
        }
    }
    false
}

// A seat for each end; nothing was told to any end yet.
fn seats_of<K: MailNames>(alloc: Global, ends: Vec<OperatorEnd<K>>) -> Option<Vec<Seat<K>>> {
    let mut seats = Vec::new(alloc);
    for end in ends {
        let told = Vec::from_elem(alloc, 0u64, OBJECTS).ok()?;
        let seat = Seat {
            end,
            told,
            wrong: false,
        };
        seats.push(seat).ok()?;
    }
    Some(seats)
}

// Takes the ends from their seats, and keeps what each session was told.
fn ends_of<K: MailNames>(
    alloc: Global,
    seats: Vec<Seat<K>>,
) -> Option<(Vec<OperatorEnd<K>>, Vec<Told>)> {
    let mut ends = Vec::new(alloc);
    let mut all = Vec::new(alloc);
    for seat in seats {
        let Seat { end, told, wrong } = seat;
        let by = Sender::Operator(end.session());
        all.push(Told { by, told, wrong }).ok()?;
        ends.push(end).ok()?;
    }
    Some((ends, all))
}

// Whether a session was told that as many requests to each object are accepted as were taken and left.
fn is_borne_out(told: &Told, next: &[u64]) -> bool {
    for place in 0..OBJECTS {
        if told.told.get(place).copied() != next.get(place_of(&told.by, place)).copied() {
            return false;
        }
    }
    !told.wrong
}

// Whether what is left at an object continues the numbers of its senders.
fn goes_on(left: &[Envelope], place: usize, next: &mut Vec<u64>) -> bool {
    for envelope in left {
        let letter = envelope.letter();
        if !counts(next, place_of(&letter.sender, place), letter.number) {
            return false;
        }
    }
    true
}

// Closes the mailboxes: whether what is left continues the numbers, and each session was told of as many.
fn closes<R: Wait + Copy + Send, K: MailNames>(
    alloc: Global,
    mail: RuledMail<R, K>,
    seats: Vec<Seat<K>>,
    next: &mut Vec<u64>,
) -> bool
    requires { 2 < length K.names.domain.objects }
{
    let Some((ends, told)) = ends_of(alloc, seats) else {
        return false;
    };
    if !mail.has_all(ends.as_slice()) {
        return false;
    }
    let Ok(drained) = mail.close(alloc, ends) else {
        return false;
    };
    let left = goes_on(drained.left(ObjId::new(0)), 0, next)
        && goes_on(drained.left(ObjId::new(1)), 1, next)
        && goes_on(drained.left(ObjId::new(2)), 2, next);
    left && told.iter().all(|told| is_borne_out(told, next))
}

// Each session posts in its own thread.
fn post_in_threads<R: Threads + Wait + Sync, K: MailNames + Send + Sync>(
    rt: &R,
    alloc: Global,
    domain: &Domain,
    seats: &mut Vec<Seat<K>>,
)
    requires domain { domain.now ≡ K.names.domain }
    requires objects { 2 < length domain.now.objects }
{
    let poster = |_: usize, seat: &mut Seat<K>|
        requires { (domain.now ≡ K.names.domain) × (2 < length domain.now.objects) }
    { post_all(rt, alloc, domain, seat) };
    thread::for_each_mut(rt, seats, SESSIONS, &poster);
}

// One round: all sessions post, each in its own thread, while this thread takes.
fn goes_round<K: MailNames + Send + Sync, R: Threads + Wait + Copy + Send + Sync>(
    rt: R,
    alloc: Global,
    domain: &Arc<Domain>,
    boxes: Mailboxes<R>,
) -> bool
    requires named { K.names ≡ boxes }
    requires domain { boxes.domain ≡ arc_value domain.now }
    requires objects { 2 < length (arc_value domain.now).objects }
{
    let Ok((mut mail, ends)) = ruled::<K, R>(alloc, boxes) else {
        return false;
    };
    let Some(mut seats) = seats_of(alloc, ends) else {
        return false;
    };
    let Ok(mut next) = Vec::from_elem(alloc, 0u64, (SESSIONS + 1) * OBJECTS) else {
        return false;
    };
    let names: &Domain = domain;
    let ((), went) = thread::join(
        &rt,
        ||
            requires { (names.now ≡ K.names.domain) × (2 < length names.now.objects) }
        { post_in_threads(&rt, alloc, names, &mut seats) },
        || -> bool
            requires { 2 < length K.names.domain.objects }
        { take_most(&rt, &mut mail, &mut next) },
    );
    went && closes(alloc, mail, seats, &mut next)
}

// Whether one round goes well on new mailboxes.
fn goes_once<R: Threads + Wait + Copy + Send + Sync + Drop>(
    rt: R,
    alloc: Global,
    domain: &Arc<Domain>,
) -> bool {
    if domain.objects() != OBJECTS {
        return false;
    }
    let Ok(shared) = Arc::try_clone(domain) else {
        return false;
    };
    match Mailboxes::new(rt, alloc, shared, CAPACITY, SESSIONS) {
        Ok(boxes) => goes_round::<Brand, _>(rt, alloc, domain, boxes),
        Err(_) => false,
    }
}

#[test]
fn no_request_of_eight_sessions_is_lost(rt: HostRuntime) {
    let alloc: Global = rt.alloc();
    let domain = domain_of(alloc, THREE).ok();
    assert!(rt; domain.is_some());
    let Some(domain) = domain else {
        return;
    };
    for _ in 0..ROUNDS {
        assert!(rt; goes_once(rt, alloc, &domain));
    }
}
