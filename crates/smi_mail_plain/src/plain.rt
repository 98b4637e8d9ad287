//! The mail of one thread.
ghost use Rattle.std.specs.Prelude.{◌≡◌, ◌<◌, ◌≤◌, ℕ, [], IfOk, length};
ghost use Rattle.std.specs.Arc.{arc_value};
ghost use Rattle.smi_journal_entries.specs.declared.entry.Sender.{Sender};
ghost use Rattle.smi_mail_plain.specs.Boxes.{sent_at, taken_at, waiting_at};
ghost use Rattle.smi_mail_plain.specs.declared.plain.TheConstants.{MAX_CAPACITY};

use crate::mail::{Full, Mail};
use crate::mailbox::Mailbox;
use smi_journal_entries::Envelope;
use sml_domain::{Domain, ObjId};
use std::alloc::{AllocError, Global};
use std::marker::Model;
use std::sync::Arc;

/// The most requests that may wait at an object. (A mail is asked for a capacity of 1 or more.)
pub const MAX_CAPACITY: usize = 1_024;

/// The mailboxes of a domain's objects, for one thread. It serves every sender of the domain, returns first
/// what was posted to an object first, and keeps the envelopes that wait and no others.
///
/// Each call takes a constant time; a call that makes room takes it on average.
#[derive(Drop)]
pub struct PlainMail {
    domain: Arc<Domain>,
    capacity: usize,
    boxes: Vec<Mailbox>,
}

impl Model for PlainMail {
    ghost use Rattle.std.specs.Arc.{arc_value};
    ghost use Rattle.std.specs.Coded.{codes};
    ghost use Rattle.sml_domain.specs.Codes.{formula_code};
    ghost use Rattle.smi_mail_plain.specs.Boxes.{AreBoxes, PlainView};

    ghost Value = { PlainView };

    ghost coded = { Prim.hlevel (codes, formula_code) };

    ghost view = { λ m. record {
      domain = arc_value m.domain;
      capacity = m.capacity;
      boxes = m.boxes.items;
    } };

    ghost invariant = { λ m. AreBoxes (arc_value m.domain) m.capacity m.boxes.items };
}

impl Mail for PlainMail {
    ghost use Rattle.std.specs.Prelude.{Some};
    ghost use Rattle.smi_mail_plain.specs.Boxes.{ready_at, sent_at, taken_at, waiting_at};
    ghost use Rattle.smi_mail_plain.specs.Mails.{is_sender};

    ghost domain = { λ m. m.domain };

    ghost serves = { λ m s. is_sender m.domain s };

    ghost taken = { taken_at };

    ghost sent = { sent_at };

    ghost ready = { ready_at };

    ghost waiting = { λ m o. Some (waiting_at m o) };

    ghost capacity = { λ m. m.capacity };

    fn in_order(&self, o: ObjId) {
        let _mailbox = &self.boxes[o.get()];
    }

    fn take(&mut self, o: ObjId) -> Option<Envelope> {
        self.boxes[o.get()].take()
    }

    fn room(&mut self, target: ObjId) -> Result<(), AllocError> {
        self.boxes[target.get()].room()
    }

    fn post(&mut self, target: ObjId, envelope: Envelope) -> Result<u64, (Full, Envelope)> {
        let mailbox = &mut self.boxes[target.get()];
        if mailbox.len() == self.capacity {
            return Err((Full, envelope));
        }
        Ok(mailbox.post(envelope))
    }
}

impl PlainMail {
    /// A law, whose function does nothing: each object has a mailbox, and no more requests wait there than may.
    #[tactic(auto, using(crate::proofs::Boxes::few_wait))]
    pub fn limits(&self)
        ensures few { (o : ℕ) → length (waiting_at self.now o) ≤ self.now.capacity }
        ensures count { length self.now.boxes ≡ length self.now.domain.objects }
    {
        let _boxes = &self.boxes;
    }

    /// How many requests wait at an object: those that were posted and not taken. The cost is constant.
    pub fn waits(&self, o: ObjId) -> usize
        requires { o < length self.now.domain.objects }
        ensures { result ≡ length (waiting_at self.now o) }
    {
        self.boxes[o.get()].len()
    }

    /// Makes empty mailboxes for the objects of a domain. In each `capacity` requests may wait, 1 to `MAX_CAPACITY`.
    /// The cost is the square of the count of objects.
    pub fn new(alloc: Global, domain: Arc<Domain>, capacity: usize) -> Result<PlainMail, AllocError>
        requires least { 1 ≤ capacity }
        requires most { capacity ≤ MAX_CAPACITY }
        ensures domain { IfOk result (λ m. m.domain ≡ arc_value domain) }
        ensures capacity { IfOk result (λ m. m.capacity ≡ capacity) }
        ensures taken { IfOk result (λ m. (o : ℕ) → taken_at m o ≡ []) }
        ensures sent { IfOk result (λ m. (s : Sender) (o : ℕ) → sent_at m s o ≡ []) }
        ensures waiting { IfOk result (λ m. (o : ℕ) → waiting_at m o ≡ []) }
    {
        let objects = domain.objects();
        let mut boxes = Vec::with_capacity(alloc, objects)?;
        for _ in 0..objects {
            boxes.push_reserved(Mailbox::new(alloc, objects)?);
        }
        Ok(PlainMail {
            domain,
            capacity,
            boxes,
        })
    }
}
