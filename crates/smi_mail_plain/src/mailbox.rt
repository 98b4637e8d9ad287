//! The mailbox of one object.
ghost use Rattle.std.specs.Prelude.{◌≡◌, ◌++◌, ◌∷◌, [], IfNone, IfOk, IfSome, IsOk, OnErr, OnOk, length, true, false};
ghost use Rattle.smi_journal_entries.specs.Requests.{from_sender, request_of};
ghost use Rattle.smi_mail_plain.specs.Boxes.{first_box, posted};
ghost use Rattle.smi_mail_plain.specs.Mails.{is_known};

use crate::counts::Counts;
use crate::history::History;
use smi_journal_entries::{Envelope, Letter};
use std::alloc::{AllocError, Global};
use std::collections::VecDeque;
use std::marker::Model;

/// The envelopes that wait for an object, oldest first, and how many each sender posted, with those that
/// were taken. A post takes the room that was made for it.
#[derive(Drop)]
pub(crate) struct Mailbox {
    taken: History<Letter>,
    waiting: VecDeque<Envelope>,
    counts: Counts,
    posted: u64,
    has_room: bool,
}

impl Model for Mailbox {
    ghost use Rattle.std.specs.Prelude.{◌≡◌, ◌<◌, length, map, true};
    ghost use Rattle.std.specs.VecDeque.{deque_len, deque_capacity};
    ghost use Rattle.smi_journal_entries.specs.Requests.{request_of};
    ghost use Rattle.smi_mail_plain.specs.Boxes.{BoxView, BoxIsKept};
    ghost use Rattle.smi_mail_plain.specs.Counts.{most_count};

    ghost Value = { BoxView };

    ghost view = { λ b. record {
      taken = map request_of b.taken.items;
      waiting = map request_of b.waiting.items;
      ready = b.has_room;
      objects = length b.counts.of_objects;
    } };

    ghost invariant = { λ b.
        BoxIsKept b.counts b.posted (map request_of b.taken.items) b.waiting.items
        × (b.has_room ≡ true → (deque_len b.waiting < deque_capacity b.waiting) × (b.posted < most_count)) };
}

impl Mailbox {
    // The mailbox to which nothing was posted, of one of `objects` objects.
    pub(crate) fn new(alloc: Global, objects: usize) -> Result<Mailbox, AllocError>
        ensures { IfOk result (λ b. b ≡ first_box objects) }
    {
        Ok(Mailbox {
            taken: History::new(),
            waiting: VecDeque::new(alloc),
            counts: Counts::new(alloc, objects)?,
            posted: 0,
            has_room: false,
        })
    }

    // How many wait.
    pub(crate) fn len(&self) -> usize
        ensures { result ≡ length self.now.waiting }
    {
        self.waiting.len()
    }

    // Takes the one that waits longest. The cost is constant.
    pub(crate) fn take(&mut self) -> Option<Envelope>
        ensures none { IfNone result ((self.old.waiting ≡ []) × (self.new ≡ self.old)) }
        ensures first { IfSome result (λ e.
            self.old.waiting ≡ request_of e ∷ self.new.waiting) }
        ensures some { IfSome result (λ e. self.new ≡ record self.old {
          taken = self.old.taken ++ request_of e ∷ [];
          waiting = self.new.waiting;
        }) }
        ensures number { IfSome result (λ e.
            e.number ≡ length (from_sender e.sender self.old.taken)) }
    {
        let envelope = self.waiting.pop_front()?;
        self.taken = self.taken.and(envelope.letter());
        Some(envelope)
    }

    // Makes room for one post, or keeps it if it is made already.
    pub(crate) fn room(&mut self) -> Result<(), AllocError>
        ensures ok { OnOk result (self.new ≡ record self.old { ready = true }) }
        ensures err { OnErr result (self.new ≡ self.old) }
        ensures there { self.old.ready ≡ true → IsOk result }
    {
        if self.has_room {
            return Ok(());
        }
        if self.posted == u64::MAX {
            return Err(AllocError);
        }
        self.waiting.reserve(1)?;
        self.has_room = true;
        Ok(())
    }

    // Puts an envelope behind those that wait, under its number, and returns the number. The cost is constant.
    pub(crate) fn post(&mut self, mut envelope: Envelope) -> u64
        requires ready { self.old.ready ≡ true }
        requires known { is_known self.old.objects envelope.sender ≡ true }
        ensures number { result ≡ length (from_sender envelope.sender (posted self.old)) }
        ensures new { self.new ≡ record self.old {
          waiting = self.old.waiting ++ request_of envelope ∷ [];
          ready = false;
        } }
    {
        let sender = envelope.letter().sender;
        let number = self.counts.of(&sender);
        envelope.set_number(number);
        self.counts.add(&sender);
        self.posted += 1;
        self.waiting.push_back_reserved(envelope);
        self.has_room = false;
        number
    }
}
