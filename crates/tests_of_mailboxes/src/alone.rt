//! One object, in whose mailbox one request may wait.
ghost use Rattle.std.specs.Prelude.{◌≡◌, ◌<◌, IfSome, length, true};
ghost use Rattle.std.specs.Arc.{arc_value};
ghost use Rattle.smi_journal_entries.specs.declared.entry.Sender.TheVariants.{Object, Operator};

use crate::envelopes::request_by;
use smi_journal::{Envelope, Sender};
use smi_mail::{
    Drained, Full, Mail, MailError, MailNames, Mailboxes, OperatorEnd, PlainMail, RuledMail, ruled,
};
use sml_domain::{Domain, ObjId};
use sml_load::domain_of;
use std::alloc::Global;
use std::marker::Brand;
use std::sync::{Arc, Wait};
use std::test::*;
use test_domains::ALONE;

// What became of a request.
#[derive(Clone, Copy, PartialEq)]
enum Told {
    Number(u64),
    // The mailbox is full, and the envelope came back as it was.
    Full,
    // Memory ran out, or another envelope came back.
    Wrong,
}

fn outcome_of(answer: &Result<u64, (Full, Envelope)>, by: &Sender) -> Told {
    match answer {
        Ok(number) => Told::Number(*number),
        Err((Full, back)) if back.letter().sender == *by && back.letter().number == 0 => Told::Full,
        Err(_) => Told::Wrong,
    }
}

// A request of an object to itself, with the room for it.
fn posts<M: Mail>(alloc: Global, mail: &mut M, domain: &Domain, o: ObjId) -> Told
    requires domain { M.domain mail.old ≡ domain.now }
    requires object { o < length domain.now.objects }
    requires serves { M.serves mail.old (Object o) ≡ true }
    ensures domain { M.domain mail.new ≡ M.domain mail.old }
    ensures serves { M.serves mail.new ≡ M.serves mail.old }
{
    let by = Sender::Object(o);
    let Some(envelope) = request_by(alloc, domain, &by, 0, o) else {
        return Told::Wrong;
    };
    if mail.room(o).is_err() {
        return Told::Wrong;
    }
    let answer = mail.post(o, envelope);
    outcome_of(&answer, &by)
}

// Whether a request is taken, the one of a number.
fn takes<M: Mail>(mail: &mut M, o: ObjId) -> Option<u64>
    requires { o < length (M.domain mail.old).objects }
    ensures domain { M.domain mail.new ≡ M.domain mail.old }
    ensures serves { M.serves mail.new ≡ M.serves mail.old }
{
    match mail.take(o) {
        Some(envelope) => Some(envelope.letter().number),
        None => None,
    }
}

// Whether an object's requests to itself are answered as capacity 1 has it.
fn goes_in_turn<M: Mail>(alloc: Global, mail: &mut M, domain: &Domain, o: ObjId) -> bool
    requires domain { M.domain mail.old ≡ domain.now }
    requires object { o < length domain.now.objects }
    requires serves { M.serves mail.old (Object o) ≡ true }
{
    posts(alloc, mail, domain, o) == Told::Number(0)
        && posts(alloc, mail, domain, o) == Told::Full
        && takes(mail, o) == Some(0)
        && takes(mail, o).is_none()
        && posts(alloc, mail, domain, o) == Told::Number(1)
}

// Whether these are the numbers of the requests that are left at an object, once the mailboxes are closed.
fn are_left<R: Wait + Copy + Send, K: MailNames>(
    alloc: Global,
    mail: RuledMail<R, K>,
    ends: Vec<OperatorEnd<K>>,
    o: ObjId,
    numbers: &[u64],
) -> bool
    requires { o < length K.names.domain.objects }
{
    if !mail.has_all(ends.as_slice()) {
        return false;
    }
    match mail.close(alloc, ends) {
        Ok(drained) => have_numbers(drained.left(o), numbers),
        Err(_) => false,
    }
}

// Whether envelopes have these numbers, in order.
fn have_numbers(envelopes: &[Envelope], numbers: &[u64]) -> bool {
    envelopes.len() == numbers.len()
        && envelopes
            .iter()
            .zip(numbers.iter())
            .all(|(envelope, number)| envelope.letter().number == *number)
}

// Whether the object's requests to itself are answered so by mailboxes that threads share.
fn objects_go<K: MailNames, R: Wait + Copy + Send>(
    alloc: Global,
    domain: &Arc<Domain>,
    boxes: Mailboxes<R>,
) -> bool
    requires named { K.names ≡ boxes }
    requires domain { boxes.domain ≡ arc_value domain.now }
{
    let o = ObjId::new(0);
    if !domain.has(o) {
        return false;
    }
    let Ok((mut mail, ends)) = ruled::<K, R>(alloc, boxes) else {
        return false;
    };
    goes_in_turn(alloc, &mut mail, domain, o) && are_left(alloc, mail, ends, o, &[1])
}

// A request of a session to the object.
fn operator_posts<R: Wait, K: MailNames>(
    rt: &R,
    alloc: Global,
    end: &mut OperatorEnd<K>,
    domain: &Domain,
    o: ObjId,
) -> Told
    requires domain { domain.now ≡ K.names.domain }
    requires object { o < length domain.now.objects }
    ensures { end.new.session ≡ end.old.session }
{
    let by = Sender::Operator(end.session());
    let Some(envelope) = request_by(alloc, domain, &by, 0, o) else {
        return Told::Wrong;
    };
    let answer = end.post(rt, o, envelope);
    outcome_of(&answer, &by)
}

// Whether a session's requests are answered so, with takes by the board between them.
fn operators_go<K: MailNames, R: Wait + Copy + Send>(
    rt: R,
    alloc: Global,
    domain: &Arc<Domain>,
    boxes: Mailboxes<R>,
) -> bool
    requires named { K.names ≡ boxes }
    requires domain { boxes.domain ≡ arc_value domain.now }
{
    let o = ObjId::new(0);
    if !domain.has(o) {
        return false;
    }
    let Ok((mut mail, mut ends)) = ruled::<K, R>(alloc, boxes) else {
        return false;
    };
    let Some(mut end) = ends.pop() else {
        return false;
    };
    let went = operator_posts(&rt, alloc, &mut end, domain, o) == Told::Number(0)
        && operator_posts(&rt, alloc, &mut end, domain, o) == Told::Full
        && takes(&mut mail, o) == Some(0)
        && takes(&mut mail, o).is_none()
        && operator_posts(&rt, alloc, &mut end, domain, o) == Told::Number(1);
    went && ends.push(end).is_ok() && are_left(alloc, mail, ends, o, &[1])
}

// Whether the mail of one thread answers so.
fn plain_goes(alloc: Global, domain: &Arc<Domain>) -> bool {
    let o = ObjId::new(0);
    if !domain.has(o) {
        return false;
    }
    let Ok(shared) = Arc::try_clone(domain) else {
        return false;
    };
    match PlainMail::new(alloc, shared, 1) {
        Ok(mut mail) => goes_in_turn(alloc, &mut mail, domain, o),
        Err(_) => false,
    }
}

// Empty mailboxes of capacity 1 with one session.
fn one_each<R: Wait + Copy + Send + Drop>(
    rt: R,
    alloc: Global,
    domain: &Arc<Domain>,
) -> Option<Mailboxes<R>>
    ensures { IfSome result (λ boxes. boxes.domain ≡ arc_value domain.now) }
{
    let shared = Arc::try_clone(domain).ok()?;
    Mailboxes::new(rt, alloc, shared, 1, 1).ok()
}

// Whether mailboxes that threads share do, asked by an object and by an operator.
fn shared_go<R: Wait + Copy + Send + Drop>(rt: R, alloc: Global, domain: &Arc<Domain>) -> bool {
    let (Some(boxes), Some(others)) = (one_each(rt, alloc, domain), one_each(rt, alloc, domain))
    else {
        return false;
    };
    objects_go::<Brand, _>(alloc, domain, boxes)
        && operators_go::<Brand, _>(rt, alloc, domain, others)
}

// A name, a capacity, a count of sessions, and whether mailboxes are made with them.
type Row = (&'static str, usize, usize, bool);

// Whether mailboxes of these numbers are made, and refused as wrong numbers otherwise.
fn is_made<R: Wait + Copy + Send + Drop>(
    rt: R,
    alloc: Global,
    domain: &Arc<Domain>,
    row: Row,
) -> bool {
    let Ok(shared) = Arc::try_clone(domain) else {
        return false;
    };
    let (_, capacity, sessions, good) = row;
    match Mailboxes::new(rt, alloc, shared, capacity, sessions) {
        Ok(_) => good,
        Err(error) => !good && error == MailError::BadConfig,
    }
}

const NUMBERS: &[Row] = &[
    ("no capacity", 0, 1, false),
    ("a capacity of one", 1, 1, true),
    ("the greatest capacity", 1_024, 1, true),
    ("a greater capacity", 1_025, 1, false),
    ("no session", 1, 0, false),
    ("eight sessions", 1, 8, true),
    ("nine sessions", 1, 9, false),
];

#[test]
fn mailboxes_are_made_with_good_numbers_alone(rt: HostRuntime) {
    let alloc: Global = rt.alloc();
    let domain = domain_of(alloc, ALONE).ok();
    assert!(rt; domain.is_some());
    let Some(domain) = domain else {
        return;
    };
    for row in NUMBERS {
        assert!(rt; is_made(rt, alloc, &domain, *row), "{}", row.0);
    }
}

#[test]
fn one_request_waits_in_a_mailbox_of_one(rt: HostRuntime) {
    let alloc: Global = rt.alloc();
    let domain = domain_of(alloc, ALONE).ok();
    assert!(rt; domain.is_some());
    let Some(domain) = domain else {
        return;
    };
    assert!(rt; plain_goes(alloc, &domain));
    assert!(rt; shared_go(rt, alloc, &domain));
}
