//! One end of one mailbox. An end owns its share of the queue and its pass, so no pass is used with another queue.
ghost use Rattle.std.specs.Prelude.{◌≡◌, ◌<◌, ◌≤◌, ◌++◌, ℕ, [], IfOk, IfErr, MatchResult, MatchOption, length, vec_capacity};
ghost use mathlib.Core.List.{IsPrefix};
ghost use Rattle.smi_journal_entries.specs.declared.entry.Sender.{Sender};
ghost use Rattle.smi_journal_entries.specs.declared.entry.Sender.TheVariants.{Operator, Object};
ghost use Rattle.smi_mail.specs.Letters.{IsFor, letters_from};
ghost use Rattle.smi_mail.specs.Rule.{add_own, add_sent, add_taken, add_known, add_session, new_session, sent_of, opened, mailbox_kind, IsWhole};

use crate::envelopes::{number_of, numbered};
use crate::rule::{Drains, Ends, MailPass, Names, Queue, Seats, Sends, Shape, Takes};
use smi_journal_entries::Envelope;
use smi_mail_plain::Full;
use sml_domain::{Domain, ObjId};
use std::alloc::{AllocError, Global};
use std::marker::{Brand, Model};
use std::sync::{Arc, Wait};

/// A session's end of one mailbox.
#[derive(Drop)]
pub struct SessionEnd {
    queue: Arc<Queue, Global>,
    pass: MailPass,
    count: u64,
}

impl Model for SessionEnd {
    ghost use Rattle.std.specs.Prelude.{◌≡◌, length};
    ghost use Rattle.std.specs.Arc.{arc_value};
    ghost use Rattle.smi_mail.specs.Sides.{SessionSide, session_side, IsSession};
    ghost use Rattle.std.specs.Coded.{codes};
    ghost use Rattle.sml_domain.specs.Codes.{formula_code};

    ghost Value = { SessionSide };

    ghost coded = { Prim.hlevel (codes, formula_code) };

    ghost view = { λ e. session_side (arc_value e.queue) e.pass };

    ghost invariant = { λ e. IsSession (arc_value e.queue) e.pass (session_side (arc_value e.queue) e.pass).seen
        × (e.count ≡ length (session_side (arc_value e.queue) e.pass).seen.sent) };
}

impl SessionEnd {
    /// Sends a request of the session and returns its number. A request is returned if the mailbox is full, or after
    /// 2^64 - 1 requests of the session.
    pub fn post<R: Wait>(&mut self, rt: &R, envelope: Envelope) -> Result<u64, (Full, Envelope)>
        requires sender { envelope.sender ≡ Operator self.old.seen.session }
        requires fits { IsFor self.old.seen.kind envelope }
        ensures sent { IfOk result (λ n. (n ≡ length self.old.seen.sent)
            × (self.new ≡ record self.old { seen = add_own self.old.seen (record envelope { number = n }) })) }
        ensures full { IfErr result (λ e. (e.1 ≡ envelope) × (self.new ≡ self.old)) }
    {
        let number = self.count;
        let before = number_of(&envelope);
        if number == u64::MAX {
            return Err((Full, envelope));
        }
        let envelope = numbered(envelope, number);
        match self.queue.push_as::<Sends, R>(rt, &mut self.pass, envelope) {
            Ok(()) => {
                self.count = number + 1;
                Ok(number)
            }
            Err(refused) => Err((Full, numbered(refused, before))),
        }
    }
}

/// The board's end of one mailbox.
#[derive(Drop)]
pub struct BoardEnd {
    queue: Arc<Queue, Global>,
    pass: MailPass,
    // How many requests each object sent here.
    counts: Vec<u64>,
}

impl Model for BoardEnd {
    ghost use Rattle.std.specs.Arc.{arc_value};
    ghost use Rattle.smi_mail.specs.Sides.{BoardSide, board_side, IsBoardEnd};
    ghost use Rattle.std.specs.Coded.{codes};
    ghost use Rattle.sml_domain.specs.Codes.{formula_code};

    ghost Value = { BoardSide };

    ghost coded = { Prim.hlevel (codes, formula_code) };

    ghost view = { λ e. board_side (arc_value e.queue) e.pass };

    ghost invariant = { λ e.
        IsBoardEnd (arc_value e.queue) e.pass (board_side (arc_value e.queue) e.pass).seen e.counts.items };
}

impl BoardEnd {
    /// A law, whose function does nothing: what was taken of an object is a prefix of what it sent.
    pub fn in_order(&self)
        ensures { (a : ℕ) →
            IsPrefix (letters_from (Object a) self.now.seen.taken) (letters_from (Object a) self.now.seen.sent) }
    {
        let _counts = &self.counts;
    }

    /// Takes the first request.
    pub fn take<R: Wait>(&mut self, rt: &R) -> Option<Envelope>
        ensures { MatchOption result
            ((self.new ≡ self.old)
            × ((a : ℕ) → letters_from (Object a) self.old.seen.taken ≡ letters_from (Object a) self.old.seen.sent))
            (λ e. (self.new ≡ record self.old { seen = add_taken self.old.seen e }) × IsFor self.old.seen.kind e
            × (e.number ≡ length (letters_from e.sender self.old.seen.taken))) }
    {
        self.queue.pop_as::<Takes, R>(rt, &mut self.pass)
    }

    /// Sends a request of an object and returns its number. A request is returned if the mailbox is full, or after
    /// 2^64 - 1 requests of that object.
    pub fn post<R: Wait>(
        &mut self,
        rt: &R,
        object: ObjId,
        envelope: Envelope,
    ) -> Result<u64, (Full, Envelope)>
        requires sender { envelope.sender ≡ Object object }
        requires object { object < length self.old.seen.kind.domain.objects }
        requires fits { IsFor self.old.seen.kind envelope }
        ensures sent { IfOk result (λ n. (n ≡ length (letters_from (Object object) self.old.seen.sent))
            × (self.new ≡ record self.old { seen = add_sent self.old.seen (record envelope { number = n }) })) }
        ensures full { IfErr result (λ e. (e.1 ≡ envelope) × (self.new ≡ self.old)) }
    {
        let place = object.get();
        let number = self.counts[place];
        let before = number_of(&envelope);
        if number == u64::MAX {
            return Err((Full, envelope));
        }
        let envelope = numbered(envelope, number);
        match self.queue.push_as::<Sends, R>(rt, &mut self.pass, envelope) {
            Ok(()) => {
                self.counts[place] = number + 1;
                Ok(number)
            }
            Err(envelope) => Err((Full, numbered(envelope, before))),
        }
    }

    /// An end for one more session. Only the count of the queue's owners changes in memory.
    pub fn session(&mut self) -> Result<SessionEnd, AllocError>
        ensures made { IfOk result (λ s. (s ≡ record { mailbox = self.old.mailbox; seen = new_session self.old.seen })
            × (self.new ≡ record self.old { seen = add_session self.old.seen })) }
        ensures none { IfErr result (λ e. self.new ≡ self.old) }
    {
        let queue = Arc::try_clone(&self.queue)?;
        let pass = self.queue.another::<Seats>(&mut self.pass);
        Ok(SessionEnd {
            queue,
            pass,
            count: 0,
        })
    }

    /// Takes in the end of a session, the sessions in their order.
    pub fn absorb(&mut self, end: SessionEnd)
        requires mailbox { end.mailbox ≡ self.old.mailbox }
        requires order { end.seen.session ≡ length self.old.seen.known }
        ensures { self.new ≡ record self.old { seen = add_known self.old.seen end.seen.sent } }
    {
        let SessionEnd {
            queue: _,
            pass,
            count: _,
        } = end;
        self.queue.absorb::<Ends>(&mut self.pass, pass);
    }

    /// Takes what is left, once all sessions were taken in. The room for it was made before.
    pub fn drain<R: Wait>(self, rt: &R, mut left: Vec<Envelope>) -> DrainedEnd
        requires whole { IsWhole self.seen }
        requires empty { left.items ≡ [] }
        requires room { self.seen.capacity ≤ vec_capacity left }
        ensures mailbox { result.mailbox ≡ self.mailbox }
        ensures seen { (result.seen.taken ≡ self.seen.taken) × (result.seen.sent ≡ self.seen.sent)
            × (result.seen.known ≡ self.seen.known) }
        ensures settled { (s : Sender) →
            sent_of result.seen s ≡ letters_from s result.seen.taken ++ letters_from s result.seen.left }
    {
        let BoardEnd {
            queue,
            mut pass,
            counts: _,
        } = self;
        while let Some(envelope) = queue.pop_as::<Drains, R>(rt, &mut pass) {
            left.push_reserved(envelope);
        }
        let drained = DrainedEnd { pass, left };
        drained.left();
        drained
    }
}

/// What a mailbox held once all sessions had ended.
#[derive(Drop)]
pub struct DrainedEnd {
    pass: MailPass,
    left: Vec<Envelope>,
}

impl Model for DrainedEnd {
    ghost use Rattle.smi_mail.specs.Sides.{BoardSide, drained_side, IsDrainedEnd};
    ghost use Rattle.std.specs.Coded.{codes};
    ghost use Rattle.sml_domain.specs.Codes.{formula_code};

    ghost Value = { BoardSide };

    ghost coded = { Prim.hlevel (codes, formula_code) };

    ghost view = { λ e. drained_side e.pass };

    ghost invariant = { λ e. IsDrainedEnd e.pass e.left.items (drained_side e.pass).seen };
}

impl DrainedEnd {
    /// What is left, in order. What each sender sent is what was taken of it, followed by what is left of it.
    pub fn left(&self) -> &[Envelope]
        ensures left { result.now ≡ self.now.seen.left }
        ensures settled { (s : Sender) →
            sent_of self.now.seen s ≡ letters_from s self.now.seen.taken ++ letters_from s self.now.seen.left }
    {
        self.left.as_slice()
    }
}

// An empty mailbox, whose object and capacity are those of `S`.
fn named_mailbox<S: Shape>(
    alloc: Global,
    domain: &Domain,
    object: ObjId,
    capacity: usize,
) -> Result<BoardEnd, AllocError>
    requires some { 0 < capacity }
    requires shape { (capacity ≡ S.capacity) × (mailbox_kind domain.now object ≡ S.kind) }
    ensures { IfOk result (λ e. e.seen ≡ opened (mailbox_kind domain.now object) capacity) }
{
    let counts = Vec::from_elem(alloc, 0u64, domain.objects())?;
    let (queue, mut pass) = Queue::ruled(alloc, capacity)?;
    let _spare = queue.another::<Names<S>>(&mut pass);
    let queue = Arc::new(alloc, queue)?;
    Ok(BoardEnd {
        queue,
        pass,
        counts,
    })
}

/// An empty mailbox for an object.
pub fn open_mailbox(
    alloc: Global,
    domain: &Domain,
    object: ObjId,
    capacity: usize,
) -> Result<BoardEnd, AllocError>
    requires { 0 < capacity }
    ensures { IfOk result (λ e. e.seen ≡ opened (mailbox_kind domain.now object) capacity) }
{
    named_mailbox::<Brand>(alloc, domain, object, capacity)
}
