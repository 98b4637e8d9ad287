//! The calls of the run in which both supplies are switched on, on boards over two mails.
ghost use Rattle.std.specs.Prelude.{◌≡◌, ◌<◌, length};
ghost use Rattle.std.specs.Arc.{arc_value};

use crate::acts::{Made, acts, performs, resumes};
use crate::domains::SUPPLIES_WITHOUT_SPARE;
use crate::envelopes::request_by;
use smi_board::Board;
use smi_journal::{Entry, Sender, SessionId, write_journal};
use smi_mail::{Mail, MailNames, Mailboxes, PlainMail, ruled};
use sml_domain::{Domain, ObjId, StateId};
use sml_load::domain_of;
use std::alloc::Global;
use std::marker::Brand;
use std::sync::{Arc, Wait};
use std::test::*;

// The objects HV1, HV2 and RUN, the state ON and the action CONFIGURE, by number.
const FIRST: usize = 0;

const SECOND: usize = 1;

const RUN: usize = 2;

const ON: usize = 1;

const CONFIGURE: usize = 2;

const CAPACITY: usize = 16;

const MOST_STARTS: usize = 1_000;

const JOURNAL: &[u8] = b"smi-journal 2
start RUN @1 0 CONFIGURE
empty RUN SPARE
post RUN HV1 0 SWITCH_ON
post RUN HV2 0 SWITCH_ON
wait RUN
start HV1 RUN 0 SWITCH_ON
end HV1 ON
start HV2 RUN 0 SWITCH_ON
end HV2 ON
seen RUN HV1=ON HV2=ON
end RUN READY
";

// Nobody is sent to first, and then both supplies.
const MOVES: &[Made] = &[Made::Posted, Made::Posted, Made::Waiting];

// Whether a board continues so, once RUN is asked to configure.
fn configures<M: Mail>(board: &mut Board<M>) -> bool
    requires { 2 < length board.old.domain.objects }
{
    let on = StateId::new(ON);
    acts(board, ObjId::new(RUN), MOVES)
        && performs(board, ObjId::new(FIRST), on)
        && performs(board, ObjId::new(SECOND), on)
        && resumes(board, &[Made::Seen, Made::Ended])
}

// Whether these entries are the journal of that run, as text.
fn is_journal(alloc: Global, domain: &Domain, entries: &[Entry]) -> bool {
    let mut text = Vec::new(alloc);
    write_journal(domain, entries, &mut text).is_ok() && text.as_slice() == JOURNAL
}

// Whether the board of one thread writes that journal.
fn plain_goes(alloc: Global, domain: &Arc<Domain>) -> bool
    requires { 2 < length (arc_value domain.now).objects }
{
    let run = ObjId::new(RUN);
    let Some(session) = SessionId::new(1) else {
        return false;
    };
    let by = Sender::Operator(session);
    let (Ok(one), Ok(other)) = (Arc::try_clone(domain), Arc::try_clone(domain)) else {
        return false;
    };
    let Ok(mail) = PlainMail::new(alloc, one, CAPACITY) else {
        return false;
    };
    let Ok(mut board) = Board::new(alloc, other, mail, MOST_STARTS) else {
        return false;
    };
    let Some(envelope) = request_by(alloc, domain, &by, CONFIGURE, run) else {
        return false;
    };
    let asked = board.request(run, envelope).is_ok();
    asked && configures(&mut board) && is_journal(alloc, domain, board.journal())
}

// Whether a board over mailboxes that threads share does, and the journal that it is closed with is the same.
fn ruled_goes<K: MailNames, R: Wait + Copy + Send>(
    rt: R,
    alloc: Global,
    domain: &Arc<Domain>,
    boxes: Mailboxes<R>,
) -> bool
    requires named { K.names ≡ boxes }
    requires domain { boxes.domain ≡ arc_value domain.now }
    requires objects { 2 < length (arc_value domain.now).objects }
{
    let run = ObjId::new(RUN);
    let Ok(other) = Arc::try_clone(domain) else {
        return false;
    };
    let Ok((mail, mut ends)) = ruled::<K, R>(alloc, boxes) else {
        return false;
    };
    let Some(mut end) = ends.pop() else {
        return false;
    };
    let by = Sender::Operator(end.session());
    let Some(envelope) = request_by(alloc, domain, &by, CONFIGURE, run) else {
        return false;
    };
    let Ok(mut board) = Board::new(alloc, other, mail, MOST_STARTS) else {
        return false;
    };
    let asked = end.post(&rt, run, envelope).is_ok();
    let went = asked && configures(&mut board) && is_journal(alloc, domain, board.journal());
    if !went || ends.push(end).is_err() || !board.has_all(ends.as_slice()) {
        return false;
    }
    match board.close(ends) {
        Ok((journal, drained)) => {
            is_journal(alloc, domain, journal.entries()) && drained.left(run).is_empty()
        }
        Err(_) => false,
    }
}

#[test]
fn two_mails_one_journal(rt: HostRuntime) {
    let alloc: Global = rt.alloc();
    let domain = domain_of(alloc, SUPPLIES_WITHOUT_SPARE).ok();
    assert!(rt; domain.is_some());
    let Some(domain) = domain else {
        return;
    };
    if domain.objects() != 3 {
        return;
    }
    assert!(rt; plain_goes(alloc, &domain));
    let Ok(shared) = Arc::try_clone(&domain) else {
        return;
    };
    let boxes = Mailboxes::new(rt, alloc, shared, CAPACITY, 1).ok();
    assert!(rt; boxes.is_some());
    if let Some(boxes) = boxes {
        assert!(rt; ruled_goes::<Brand, _>(rt, alloc, &domain, boxes));
    }
}
