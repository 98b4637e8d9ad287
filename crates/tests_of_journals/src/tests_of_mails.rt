//! The mail of one thread, step by step.

use crate::completing::{C, OUT, PUT, SHOW, TAKE};
use crate::mails::{Asked, Move, wrong_step};
use crate::rows::Plain;
use crate::runs::By;
use smi_mail_plain::PlainMail;
use sml_load::domain_of;
use std::alloc::Global;
use std::sync::Arc;
use std::test::*;
use test_domains::COUNTER;

// Requests to the sink.
const FIRST: Asked = Asked {
    by: By::Session(1),
    action: TAKE,
    given: &[Plain::Int(1), Plain::Str(b"a")],
};

const SECOND: Asked = Asked {
    by: By::Session(1),
    action: TAKE,
    given: &[Plain::Int(2), Plain::Str(b"b")],
};

const OTHERS: Asked = Asked {
    by: By::Session(2),
    action: TAKE,
    given: &[Plain::Int(3), Plain::Str(b"c")],
};

const SENT: Asked = Asked {
    by: By::Object(C),
    action: TAKE,
    given: &[Plain::Int(4), Plain::Str(b"d")],
};

// Requests to the counter, one of them its own.
const SHOWN: Asked = Asked {
    by: By::Session(8),
    action: SHOW,
    given: &[],
};

const OWN: Asked = Asked {
    by: By::Object(C),
    action: PUT,
    given: &[Plain::Int(5), Plain::Str(b"e")],
};

// A name, a capacity, and the steps of a mail with it.
type Row = (&'static str, usize, &'static [Move]);

const ROWS: &[Row] = &[
    // Number 0, full, taken, nothing left, then number 1.
    (
        "a capacity of one",
        1,
        &[
            Move::Empty(OUT),
            Move::Posts(OUT, FIRST, 0),
            Move::Full(OUT, SECOND),
            Move::Full(OUT, OTHERS),
            Move::Takes(OUT, FIRST, 0),
            Move::Empty(OUT),
            Move::Posts(OUT, SECOND, 1),
            Move::Takes(OUT, SECOND, 1),
            Move::Empty(OUT),
        ],
    ),
    // What was posted first is taken first.
    (
        "three senders, each with its own numbers",
        4,
        &[
            Move::Posts(OUT, OTHERS, 0),
            Move::Posts(OUT, FIRST, 0),
            Move::Posts(OUT, SENT, 0),
            Move::Posts(OUT, SECOND, 1),
            Move::Full(OUT, OTHERS),
            Move::Takes(OUT, OTHERS, 0),
            Move::Posts(OUT, OTHERS, 1),
            Move::Takes(OUT, FIRST, 0),
            Move::Takes(OUT, SENT, 0),
            Move::Takes(OUT, SECOND, 1),
            Move::Takes(OUT, OTHERS, 1),
            Move::Empty(OUT),
        ],
    ),
    (
        "an object that sends to itself finds its own mailbox full",
        2,
        &[
            Move::Posts(C, SHOWN, 0),
            Move::Posts(C, OWN, 0),
            Move::Full(C, OWN),
            Move::Takes(C, SHOWN, 0),
            Move::Posts(C, OWN, 1),
            Move::Takes(C, OWN, 0),
            Move::Takes(C, OWN, 1),
            Move::Empty(C),
        ],
    ),
    (
        "objects have their own mailboxes, and their own numbers",
        1,
        &[
            Move::Posts(OUT, SENT, 0),
            Move::Empty(C),
            Move::Posts(C, OWN, 0),
            Move::Full(OUT, SENT),
            Move::Takes(C, OWN, 0),
            Move::Full(OUT, FIRST),
            Move::Takes(OUT, SENT, 0),
            Move::Empty(C),
        ],
    ),
    (
        "what was taken is posted again and again",
        1,
        &[
            Move::Posts(OUT, FIRST, 0),
            Move::GoesRound(OUT, 1),
            Move::GoesRound(OUT, 2),
            Move::GoesRound(OUT, 3),
            Move::GoesRound(OUT, 4),
            Move::GoesRound(OUT, 5),
            Move::Takes(OUT, FIRST, 5),
            Move::Empty(OUT),
        ],
    ),
];

// Whether each step of a row goes as it says, in a mail of the counter.
fn is_answered(alloc: Global, row: Row) -> bool {
    let (_, capacity, steps) = row;
    if capacity < 1 || capacity > 1024 {
        return false;
    }
    let Ok(domain) = domain_of(alloc, COUNTER) else {
        return false;
    };
    let Ok(shared) = Arc::try_clone(&domain) else {
        return false;
    };
    let Ok(mail) = PlainMail::new(alloc, shared, capacity) else {
        return false;
    };
    let mut mail = mail;
    wrong_step(alloc, &domain, &mut mail, steps).is_none()
}

#[test]
fn mails_keep_their_order_and_capacity(rt: HostRuntime) {
    for row in ROWS {
        assert!(rt; is_answered(rt.alloc(), *row), "{}", row.0);
    }
}
