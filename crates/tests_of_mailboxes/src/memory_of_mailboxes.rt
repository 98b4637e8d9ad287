//! Memory that is refused: what was passed comes back, and the same call then returns its answer.
//!
//! `tools/refused-memory` runs this again and again, and each time another allocation is refused.
ghost use Rattle.std.specs.Prelude.{◌≡◌, IfSome};
ghost use Rattle.std.specs.Arc.{arc_value};
ghost use Rattle.smi_mail.specs.Drains.{AreAllEnds};

use crate::at_last::{boxes_at_last, domain_at_last};
use crate::envelopes::request_by;
use smi_journal::{Envelope, Sender};
use smi_mail::{Drained, MailNames, Mailboxes, OperatorEnd, RuledMail, ruled};
use sml_domain::{Domain, ObjId};
use std::alloc::Global;
use std::marker::Brand;
use std::sync::{Arc, Wait};
use std::test::*;
use test_domains::ALONE;

// The capacity of the mailboxes, and their sessions.
const CAPACITY: usize = 2;

const SESSIONS: usize = 8;

// The ends of mailboxes, asked for a second time if they were refused.
fn ends_at_last<K: MailNames, R: Wait + Copy + Send>(
    alloc: Global,
    boxes: Mailboxes<R>,
) -> Option<(RuledMail<R, K>, Vec<OperatorEnd<K>>)>
    requires { K.names ≡ boxes }
    ensures { IfSome result (λ r. AreAllEnds K.names.sessions r.1.items) }
{
    match ruled::<K, R>(alloc, boxes) {
        Ok(ends) => Some(ends),
        Err((_, boxes)) => ruled::<K, R>(alloc, boxes).ok(),
    }
}

// A request of an object to itself, asked for a second time if it was refused.
fn request_at_last(alloc: Global, domain: &Domain, o: ObjId) -> Option<Envelope> {
    let by = Sender::Object(o);
    match request_by(alloc, domain, &by, 0, o) {
        Some(envelope) => Some(envelope),
        None => request_by(alloc, domain, &by, 0, o),
    }
}

// What closed mailboxes hold, asked for a second time if it was refused: all that was passed is there again.
fn closed_at_last<K: MailNames, R: Wait + Copy + Send>(
    alloc: Global,
    mail: RuledMail<R, K>,
    ends: Vec<OperatorEnd<K>>,
) -> Option<Drained<K>>
    requires { AreAllEnds K.names.sessions ends.items }
{
    match mail.close(alloc, ends) {
        Ok(drained) => Some(drained),
        Err((_, mail, ends)) => mail.close(alloc, ends).ok(),
    }
}

// Whether mailboxes are taken apart and closed, and hold nothing.
fn go_on<K: MailNames, R: Wait + Copy + Send>(
    alloc: Global,
    domain: &Arc<Domain>,
    boxes: Mailboxes<R>,
) -> bool
    requires named { K.names ≡ boxes }
    requires domain { boxes.domain ≡ arc_value domain.now }
{
    let o = ObjId::new(0);
    if !domain.has(o) || request_at_last(alloc, domain, o).is_none() {
        return false;
    }
    match ends_at_last::<K, R>(alloc, boxes) {
        Some((mail, ends)) => match closed_at_last(alloc, mail, ends) {
            Some(drained) => drained.left(o).is_empty(),
            None => false,
        },
        None => false,
    }
}

fn goes_on<R: Wait + Copy + Send + Drop>(rt: R, alloc: Global) -> bool {
    let Some(domain) = domain_at_last(alloc, ALONE) else {
        return false;
    };
    match boxes_at_last(rt, alloc, &domain, CAPACITY, SESSIONS) {
        Some(boxes) => go_on::<Brand, _>(alloc, &domain, boxes),
        None => false,
    }
}

#[test]
fn goes_on_after_a_refusal(rt: HostRuntime) {
    assert!(rt; goes_on(rt, rt.alloc()));
}
