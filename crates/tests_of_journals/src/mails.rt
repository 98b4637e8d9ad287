//! What is asked of any mail, step by step, and what it must answer. All go by number.
ghost use Rattle.std.specs.Prelude.{◌≡◌, ◌<◌, IfSome, length, true};
ghost use Rattle.smi_journal_entries.specs.declared.entry.Sender.{Sender};
ghost use Rattle.smi_journal_entries.specs.Fits.{letter_fits};
ghost use Rattle.smi_mail_plain.specs.Mails.{is_sender};

use crate::rows::{Plain, args_of};
use crate::runs::By;
use smi_journal::{Envelope, Sender, SessionId};
use smi_mail_plain::Mail;
use sml_domain::{ActionId, Domain, ObjId, same_values};
use std::alloc::Global;

/// A request: who sends it, its action and its arguments.
#[derive(Clone, Copy)]
pub struct Asked {
    pub by: By,
    pub action: usize,
    pub given: &'static [Plain],
}

/// What is asked of a mail, and what it must answer.
#[derive(Clone, Copy)]
pub enum Move {
    /// A request is posted to an object, and accepted under the number.
    Posts(usize, Asked, u64),
    /// A request is posted to an object whose mailbox is full, and comes back as it was.
    Full(usize, Asked),
    /// A request is taken of an object's mailbox, under the number.
    Takes(usize, Asked, u64),
    /// Nothing waits at an object.
    Empty(usize),
    /// A request is taken of an object's mailbox and posted to it again, under the number.
    GoesRound(usize, u64),
}

// A sender of a domain, or None if the domain has no sender of this number.
fn sender_of(domain: &Domain, by: By) -> Option<Sender>
    ensures { IfSome result (λ s. is_sender domain.now s ≡ true) }
{
    match by {
        By::Session(number) => Some(Sender::Operator(SessionId::new(number)?)),
        By::Object(number) => {
            let object = ObjId::new(number);
            if !domain.has(object) {
                return None;
            }
            Some(Sender::Object(object))
        }
    }
}

// The envelope of a request, whose sender is one of the domain.
fn envelope_of(alloc: Global, domain: &Domain, asked: Asked) -> Option<Envelope>
    ensures { IfSome result (λ e. is_sender domain.now e.sender ≡ true) }
{
    let sender = sender_of(domain, asked.by)?;
    let args = args_of(alloc, asked.given)?;
    Envelope::new(sender, ActionId::new(asked.action), args).ok()
}

// Whether an envelope is a request's, under the number.
fn is_of(alloc: Global, domain: &Domain, envelope: &Envelope, asked: Asked, number: u64) -> bool {
    let Some(sender) = sender_of(domain, asked.by) else {
        return false;
    };
    let Some(args) = args_of(alloc, asked.given) else {
        return false;
    };
    let letter = envelope.letter();
    letter.sender == sender
        && letter.number == number
        && letter.action == ActionId::new(asked.action)
        && same_values(letter.args.values(), args.values())
}

// The envelope of a request that fits an object of the domain.
fn fitting(alloc: Global, domain: &Domain, o: ObjId, asked: Asked) -> Option<Envelope>
    ensures within { IfSome result (λ e. o < length domain.now.objects) }
    ensures sender { IfSome result (λ e. is_sender domain.now e.sender ≡ true) }
    ensures fits { IfSome result (λ e. letter_fits domain.now o e ≡ true) }
{
    let envelope = envelope_of(alloc, domain, asked)?;
    if !domain.has(o) || !envelope.fits(domain, o) {
        return None;
    }
    Some(envelope)
}

// Makes room for an envelope, and posts it: its number, or the envelope that came back.
fn post<M: Mail>(mail: &mut M, o: ObjId, envelope: Envelope) -> Result<u64, Option<Envelope>>
    requires within { o < length (M.domain mail.old).objects }
    requires sender { M.serves mail.old envelope.sender ≡ true }
    requires fits { letter_fits (M.domain mail.old) o envelope ≡ true }
    ensures domain { M.domain mail.new ≡ M.domain mail.old }
    ensures serves { M.serves mail.new ≡ M.serves mail.old }
{
    mail.in_order(o);
    let Ok(()) = mail.room(o) else {
        return Err(None);
    };
    match mail.post(o, envelope) {
        Ok(number) => Ok(number),
        Err((_, back)) => Err(Some(back)),
    }
}

// Whether a request is posted to an object, under the number.
fn posts<M: Mail>(alloc: Global, domain: &Domain, mail: &mut M, o: ObjId, row: (Asked, u64)) -> bool
    requires domain { M.domain mail.old ≡ domain.now }
    requires serves { (s : Sender) → is_sender domain.now s ≡ true → M.serves mail.old s ≡ true }
    ensures domain { M.domain mail.new ≡ M.domain mail.old }
    ensures serves { M.serves mail.new ≡ M.serves mail.old }
{
    let (asked, number) = row;
    match fitting(alloc, domain, o, asked) {
        Some(envelope) => post(mail, o, envelope).ok() == Some(number),
        None => false,
    }
}

// Whether a request is posted to an object and comes back as it was.
fn is_full<M: Mail>(alloc: Global, domain: &Domain, mail: &mut M, o: ObjId, asked: Asked) -> bool
    requires domain { M.domain mail.old ≡ domain.now }
    requires serves { (s : Sender) → is_sender domain.now s ≡ true → M.serves mail.old s ≡ true }
    ensures domain { M.domain mail.new ≡ M.domain mail.old }
    ensures serves { M.serves mail.new ≡ M.serves mail.old }
{
    let Some(envelope) = fitting(alloc, domain, o, asked) else {
        return false;
    };
    match post(mail, o, envelope) {
        Err(Some(back)) => is_of(alloc, domain, &back, asked, 0),
        _ => false,
    }
}

// Whether what is taken of an object's mailbox is posted there again, under the number.
fn goes_round<M: Mail>(domain: &Domain, mail: &mut M, o: ObjId, number: u64) -> bool
    requires domain { M.domain mail.old ≡ domain.now }
    requires serves { (s : Sender) → is_sender domain.now s ≡ true → M.serves mail.old s ≡ true }
    ensures domain { M.domain mail.new ≡ M.domain mail.old }
    ensures serves { M.serves mail.new ≡ M.serves mail.old }
{
    if !domain.has(o) {
        return false;
    }
    match mail.take(o) {
        Some(envelope) => post(mail, o, envelope).ok() == Some(number),
        None => false,
    }
}

// Whether a request is taken of an object's mailbox, under the number.
fn takes<M: Mail>(alloc: Global, domain: &Domain, mail: &mut M, o: ObjId, row: (Asked, u64)) -> bool
    requires domain { M.domain mail.old ≡ domain.now }
    ensures domain { M.domain mail.new ≡ M.domain mail.old }
    ensures serves { M.serves mail.new ≡ M.serves mail.old }
{
    let (asked, number) = row;
    if !domain.has(o) {
        return false;
    }
    match mail.take(o) {
        Some(envelope) => is_of(alloc, domain, &envelope, asked, number),
        None => false,
    }
}

// Whether nothing is taken of an object's mailbox.
fn is_empty<M: Mail>(domain: &Domain, mail: &mut M, o: ObjId) -> bool
    requires domain { M.domain mail.old ≡ domain.now }
    ensures domain { M.domain mail.new ≡ M.domain mail.old }
    ensures serves { M.serves mail.new ≡ M.serves mail.old }
{
    domain.has(o) && mail.take(o).is_none()
}

// Whether a mail answers a step as it must.
fn answers<M: Mail>(alloc: Global, domain: &Domain, mail: &mut M, step: Move) -> bool
    requires domain { M.domain mail.old ≡ domain.now }
    requires serves { (s : Sender) → is_sender domain.now s ≡ true → M.serves mail.old s ≡ true }
    ensures domain { M.domain mail.new ≡ M.domain mail.old }
    ensures serves { M.serves mail.new ≡ M.serves mail.old }
{
    match step {
        Move::Posts(o, asked, number) => posts(alloc, domain, mail, ObjId::new(o), (asked, number)),
        Move::Full(o, asked) => is_full(alloc, domain, mail, ObjId::new(o), asked),
        Move::Takes(o, asked, number) => takes(alloc, domain, mail, ObjId::new(o), (asked, number)),
        Move::Empty(o) => is_empty(domain, mail, ObjId::new(o)),
        Move::GoesRound(o, number) => goes_round(domain, mail, ObjId::new(o), number),
    }
}

/// The place of the first step that a mail does not answer as it must.
pub fn wrong_step<M: Mail>(
    alloc: Global,
    domain: &Domain,
    mail: &mut M,
    steps: &[Move],
) -> Option<usize>
    requires domain { M.domain mail.old ≡ domain.now }
    requires serves { (s : Sender) → is_sender domain.now s ≡ true → M.serves mail.old s ≡ true }
{
    for (place, step) in steps.iter().enumerate() {
        if !answers(alloc, domain, mail, *step) {
            return Some(place);
        }
    }
    None
}
