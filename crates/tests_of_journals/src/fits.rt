//! Whether envelopes fit a counter and its sink, and what each of their four owners is given.

use crate::completing::{C, OUT, PUT, SHOW, TAKE};
use crate::rows::{Plain, args_of};
use smi_journal::{Envelope, Letter, Sender, SessionId};
use sml_domain::{ActionId, Domain, ObjId};
use sml_load::domain_of;
use std::alloc::Global;
use std::test::*;
use test_domains::COUNTER;

// A name, an object, an action with values, and whether they fit.
type Row = (&'static str, usize, usize, &'static [Plain], bool);

const ROWS: &[Row] = &[
    (
        "what the sink takes",
        OUT,
        TAKE,
        &[Plain::Int(5), Plain::Str(b"a")],
        true,
    ),
    (
        "what the counter takes",
        C,
        PUT,
        &[Plain::Int(5), Plain::Str(b"a")],
        true,
    ),
    (
        "nothing, for an action without parameters",
        C,
        SHOW,
        &[],
        true,
    ),
    (
        "a value of the wrong kind",
        OUT,
        TAKE,
        &[Plain::Int(5), Plain::Int(5)],
        false,
    ),
    (
        "values in another order",
        OUT,
        TAKE,
        &[Plain::Str(b"a"), Plain::Int(5)],
        false,
    ),
    (
        "too few, though there is a default",
        OUT,
        TAKE,
        &[Plain::Int(5)],
        false,
    ),
    ("none of two", C, PUT, &[], false),
    (
        "one too many",
        C,
        PUT,
        &[Plain::Int(5), Plain::Str(b"a"), Plain::Int(5)],
        false,
    ),
    (
        "one for an action without parameters",
        C,
        SHOW,
        &[Plain::Int(5)],
        false,
    ),
    (
        "an action of another class, at the sink",
        OUT,
        PUT,
        &[Plain::Int(5), Plain::Str(b"a")],
        false,
    ),
    (
        "an action of another class, at the counter",
        C,
        TAKE,
        &[Plain::Int(5), Plain::Str(b"a")],
        false,
    ),
    ("an object that is not there", 2, SHOW, &[], false),
];

// An envelope of the first session.
fn envelope_of(alloc: Global, action: usize, values: &[Plain]) -> Option<Envelope> {
    let sender = Sender::Operator(SessionId::new(1)?);
    let args = args_of(alloc, values)?;
    Envelope::new(sender, ActionId::new(action), args).ok()
}

// Whether a row's values fit as it says.
fn is_so(alloc: Global, domain: &Domain, row: Row) -> bool {
    let (_, object, action, values, fit) = row;
    match envelope_of(alloc, action, values) {
        Some(envelope) => envelope.fits(domain, ObjId::new(object)) == fit,
        None => false,
    }
}

// The name of the first row that is not so.
fn wrong_row(alloc: Global, domain: &Domain) -> Option<&'static str> {
    for row in ROWS {
        if !is_so(alloc, domain, *row) {
            return Some(row.0);
        }
    }
    None
}

#[test]
fn fits_by_kind_and_order(rt: HostRuntime) {
    let domain = domain_of(rt.alloc(), COUNTER).ok();
    let wrong = match &domain {
        Some(domain) => wrong_row(rt.alloc(), domain),
        None => Some("the domain"),
    };
    assert!(rt; wrong.is_none(), "{wrong:?}");
}

// Whether a letter is that of the first session, under the number, with `args` arguments.
fn is_letter(letter: &Letter, number: u64, args: usize) -> bool {
    let first = match letter.sender {
        Sender::Operator(session) => session.get() == 1,
        Sender::Object(_) => false,
    };
    first && letter.number == number && letter.args.values().len() == args
}

fn gives_four_letters(alloc: Global) -> bool {
    let Some(envelope) = envelope_of(alloc, PUT, &[Plain::Int(5), Plain::Str(b"a")]) else {
        return false;
    };
    let mut envelope = envelope;
    let begins = is_letter(envelope.letter(), 0, 2);
    envelope.set_number(7);
    let letters = envelope.into_letters();
    begins
        && is_letter(&letters.mail, 7, 2)
        && is_letter(&letters.journal, 7, 2)
        && is_letter(&letters.slot, 7, 2)
        && is_letter(&letters.task, 7, 2)
}

#[test]
fn an_envelope_gives_four_equal_letters(rt: HostRuntime) {
    assert!(rt; gives_four_letters(rt.alloc()));
}
